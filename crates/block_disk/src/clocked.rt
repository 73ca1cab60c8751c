//! A disk that tells the moment.
ghost use Rattle.std.specs.Prelude.{◌≡◌};

use crate::Disk;
use crate::fuse_disk::FuseDisk;
use crate::mem_disk::MemDisk;

/// A disk that tells its clock, as a disk in memory does.
pub trait Clocked: Disk {
    /// The moment: how far its clock has come.
    fn moment(&self) -> u64
        ensures { result ≡ (Self.view self.now).clock };
}

impl Clocked for MemDisk {
    fn moment(&self) -> u64 {
        self.record.len() as u64
    }
}

impl<D: Clocked> Clocked for FuseDisk<D> {
    fn moment(&self) -> u64 {
        self.inner.moment()
    }
}

impl Clocked for () {
    fn moment(&self) -> u64 {
        0
    }
}
