//! What stands where no disk is needed.
ghost use Rattle.block_disk.specs.FileDisk.{untold};

use crate::{Disk, Failed};

/// One block that keeps nothing, and tells no content. No call of it fails.
impl Disk for () {
    ghost view = { λ disk. untold 1 0 0 0 0 };

    fn blocks(&mut self) -> Result<u32, Failed> {
        Ok(1)
    }

    fn read_block(&mut self, _no: u32, _out: &mut [u8]) -> Result<(), Failed> {
        Ok(())
    }

    fn write_block(&mut self, _no: u32, _from: &[u8]) -> Result<(), Failed> {
        Ok(())
    }

    fn sync(&mut self) -> Result<(), Failed> {
        Ok(())
    }
}
