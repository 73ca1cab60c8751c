//! A disk whose fuse blows.
ghost use Rattle.std.specs.Prelude.{◌≡◌, ◌≤◌, ◌+◌, OnOk, OnErr};
ghost use Rattle.block_disk.specs.Counts.{HasRisen};
ghost use Rattle.block_disk.specs.FuseDisk.{fused};

use crate::count_one::count_one;
use crate::{Disk, Failed};

/// A disk that passes so many calls on, and then fails every call.
#[derive(Drop)]
pub struct FuseDisk<D> {
    pub(crate) inner: D,
    passes: u64,
    faults: u64,
}

impl<D> FuseDisk<D> {
    /// Passes so many calls on to this disk.
    pub fn new(inner: D, passes: u64) -> FuseDisk<D>
        ensures inner { result.inner ≡ inner }
        ensures passes { result.passes ≡ passes }
        ensures faults { result.faults ≡ 0 }
    {
        FuseDisk {
            inner,
            passes,
            faults: 0,
        }
    }
}

impl<D: Drop> FuseDisk<D> {
    /// The disk behind the fuse.
    pub fn into_inner(self) -> D
        ensures { result ≡ self.inner }
    {
        self.inner
    }
}

/// Whether one more call passes; the fuse's own fault is counted where none does.
fn passes_one(passes: &mut u64, faults: &mut u64) -> Result<(), Failed>
    ensures passes { OnOk result (passes.old ≡ passes.new + 1) }
    ensures blown { OnErr result (passes.old ≡ 0) }
    ensures still_blown { OnErr result (passes.new ≡ 0) }
    ensures cause { OnErr result (HasRisen faults.old faults.new) }
    ensures no_fault { OnOk result (faults.new ≡ faults.old) }
    ensures faults { faults.old ≤ faults.new }
{
    if *passes == 0 {
        count_one(faults);
        return Err(Failed);
    }
    *passes -= 1;
    Ok(())
}

impl<D: Disk> Disk for FuseDisk<D> {
    ghost view = { λ disk. fused (D.view disk.inner) disk.faults };

    fn blocks(&mut self) -> Result<u32, Failed> {
        passes_one(&mut self.passes, &mut self.faults)?;
        self.inner.blocks()
    }

    fn read_block(&mut self, no: u32, out: &mut [u8]) -> Result<(), Failed> {
        passes_one(&mut self.passes, &mut self.faults)?;
        self.inner.read_block(no, out)
    }

    fn write_block(&mut self, no: u32, from: &[u8]) -> Result<(), Failed> {
        passes_one(&mut self.passes, &mut self.faults)?;
        self.inner.write_block(no, from)
    }

    fn sync(&mut self) -> Result<(), Failed> {
        passes_one(&mut self.passes, &mut self.faults)?;
        self.inner.sync()
    }
}
