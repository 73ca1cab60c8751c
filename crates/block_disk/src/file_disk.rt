//! A disk in a file.
ghost use Rattle.std.specs.Prelude.{◌≡◌, ◌≤◌, ◌*◌, ◌/◌};
ghost use Rattle.block_disk.specs.Counts.{HasRisen};
ghost use Rattle.block_disk.specs.FileDisk.{untold};

use crate::count_one::count_one;
use crate::{BLOCK, Disk, Failed};
use std::fs::{File, OpenOptions};
use std::io;
use std::os::unix::fs::FileExt;
use std::rt::Files;

/// The most blocks that are used of a file.
const MOST: u64 = u32::MAX as u64;

/// The blocks of a file that was there before. It tells no content.
///
/// It holds the file's exclusive lock (`flock`) until it is dropped or its process ends, so that of
/// all that use the file in this way one does at a time. Its size is the number of whole blocks of
/// the file, at most 2^32 - 1. Where the file couldn't be opened, or another holds its lock, the size
/// is 0 and every call fails. Every call fails also after a sync that failed, since the system may
/// then have dropped what was written, and say no more of it.
#[derive(Drop)]
pub struct FileDisk {
    file: Option<File>,
    blocks: u32,
    reads: u64,
    syncs: u64,
    writes: u64,
    faults: u64,
}

/// Opens a file for reading and writing, takes its lock at once or not at all, and counts its blocks.
fn open<R: Files<File = File>>(rt: &R, path: &str) -> io::Result<(File, u32)> {
    let mut how = OpenOptions::new();
    how.read(true);
    how.write(true);
    let file = how.open(rt, path)?;
    file.try_lock()?;
    let blocks = (file.metadata()?.len() / BLOCK as u64).min(MOST);
    Ok((file, blocks as u32))
}

/// The offset of a block in the file.
fn offset(no: u32) -> u64 {
    BLOCK as u64 * u64::from(no)
}

impl FileDisk {
    /// The disk in an existing file. It doesn't wait for the lock.
    pub fn at<R: Files<File = File>>(rt: &R, path: &str) -> FileDisk
        ensures counts { (result.reads ≡ 0) × (result.syncs ≡ 0) × (result.writes ≡ 0) × (result.faults ≡ 0) }
    {
        let (file, blocks) = match open(rt, path) {
            Ok((file, blocks)) => (Some(file), blocks),
            Err(_) => (None, 0),
        };
        FileDisk {
            file,
            blocks,
            reads: 0,
            syncs: 0,
            writes: 0,
            faults: 0,
        }
    }

    /// Counts a fault.
    fn fault(&mut self) -> Failed
        ensures cause { HasRisen self.old.faults self.new.faults }
        ensures faults { self.old.faults ≤ self.new.faults }
        ensures others { self.new ≡ record self.old { faults = self.new.faults } }
    {
        count_one(&mut self.faults);
        Failed
    }
}

impl Disk for FileDisk {
    ghost view = { λ disk. untold disk.blocks disk.faults disk.reads disk.syncs disk.writes };

    fn blocks(&mut self) -> Result<u32, Failed> {
        if self.file.is_none() {
            return Err(self.fault());
        }
        Ok(self.blocks)
    }

    fn read_block(&mut self, no: u32, out: &mut [u8]) -> Result<(), Failed> {
        count_one(&mut self.reads);
        let Some(file) = &self.file else {
            return Err(self.fault());
        };
        if file.read_exact_at(out, offset(no)).is_err() {
            return Err(self.fault());
        }
        Ok(())
    }

    fn write_block(&mut self, no: u32, from: &[u8]) -> Result<(), Failed> {
        count_one(&mut self.writes);
        let Some(file) = &self.file else {
            return Err(self.fault());
        };
        if file.write_all_at(from, offset(no)).is_err() {
            return Err(self.fault());
        }
        Ok(())
    }

    fn sync(&mut self) -> Result<(), Failed> {
        count_one(&mut self.syncs);
        let Some(file) = &self.file else {
            return Err(self.fault());
        };
        // The file's size never changes, so its data is all that has to reach the medium.
        if file.sync_data().is_err() {
            self.file = None;
            return Err(self.fault());
        }
        Ok(())
    }
}
