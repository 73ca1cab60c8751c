//! The calls of pages in memory.
ghost use Rattle.std.specs.Prelude.{◌≡◌, ◌*◌, ◌≤◌, ◌+◌, length};
ghost use Rattle.block_disk.specs.Blocks.{block_size};
ghost use Rattle.block_disk.specs.MemDisk.{replaced, blocks_of};
ghost use Rattle.gate_pages.specs.Batch.{put_all, AllBelow};
ghost use Rattle.gate_pages.specs.Entries.{entries};
ghost use Rattle.gate_pages.specs.ListPages.{list_view};

use crate::batch::Batch;
use crate::errors::DiskFault;
use crate::list_pages::ListPages;
use crate::pages::Pages;
use block_disk::BLOCK;

/// Puts bytes in place of those from a place on.
fn replace(bytes: &mut [u8], start: usize, from: &[u8])
    requires { start + length from.now ≤ length bytes.old }
    ensures { bytes.new ≡ replaced bytes.old start from.now }
{
    bytes[start..start + from.len()].copy_from_slice(from);
}

/// Puts the pages of a batch in their places.
fn put_pages(bytes: &mut [u8], count: u32, batch: &Batch)
    requires whole { length bytes.old ≡ block_size * count }
    requires below { AllBelow count (entries batch.now) }
    ensures put { blocks_of bytes.new ≡ put_all (entries batch.now) (blocks_of bytes.old) }
{
    for i in 0..batch.len() {
        let page = batch.page(i);
        replace(bytes, BLOCK * page.number as usize, page.bytes.as_slice());
    }
}

impl Pages for ListPages {
    ghost view = { λ pages. list_view pages.count pages.bytes.items };

    ghost told = { λ pages. Unit {0} };

    ghost under = { λ pages. list_view pages.count pages.bytes.items };

    fn count(&self) -> u32 {
        self.count
    }

    fn is_sound(&self) -> bool {
        true
    }

    fn get(&mut self, p: u32, out: &mut [u8]) -> Result<(), DiskFault> {
        let start = BLOCK * p as usize;
        let bytes = self.bytes.as_slice();
        out.copy_from_slice(&bytes[start..start + BLOCK]);
        Ok(())
    }

    fn commit(&mut self, batch: &Batch) -> Result<(), DiskFault> {
        if batch.len() == 0 {
            return Ok(());
        }
        put_pages(self.bytes.as_mut_slice(), self.count, batch);
        Ok(())
    }

    ghost rests = { λ pages fit other left. absurd left };

    ghost tells = { λ pages fit honest. tt };
}
