//! The calls of pages on a disk.
ghost use Rattle.block_disk.specs.View.{Honest};
ghost use Rattle.gate_pages.specs.GateLaws.{gate_rests, gate_tells};
ghost use Rattle.gate_pages.specs.GatePages.{pages_view};

use crate::batch::Batch;
use crate::errors::DiskFault;
use crate::gate_pages::GatePages;
use crate::journal::redo;
use crate::layout::HOME;
use crate::pages::Pages;
use block_disk::Disk;

impl<D: Disk> Pages for GatePages<D> {
    ghost view = { λ pages. pages_view pages.count pages.sound (D.view pages.disk) };

    ghost told = { λ pages. Honest (D.view pages.disk) };

    ghost under = { λ pages. D.view pages.disk };

    fn count(&self) -> u32 {
        self.count
    }

    fn is_sound(&self) -> bool {
        self.sound
    }

    fn get(&mut self, p: u32, out: &mut [u8]) -> Result<(), DiskFault> {
        self.disk.read_block(HOME + p, out)?;
        Ok(())
    }

    fn commit(&mut self, batch: &Batch) -> Result<(), DiskFault> {
        if batch.len() == 0 {
            return Ok(());
        }
        self.sound = false;
        redo(&mut self.disk, self.buffer.as_mut_slice(), batch)?;
        self.sound = true;
        Ok(())
    }

    ghost rests = { λ pages sound other left. gate_rests pages.count (D.view pages.disk) (pages.at_rest sound) other left };

    ghost tells = { λ pages sound honest. gate_tells pages.count (D.view pages.disk) (pages.at_rest sound).only honest };
}
