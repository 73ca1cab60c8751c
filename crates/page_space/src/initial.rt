//! The pages of an empty store.
ghost use Rattle.std.specs.Prelude.{◌≡◌, ℕ, length, IfOk, IfErr};
ghost use Rattle.block_disk.specs.Blocks.{IsBlock};
ghost use Rattle.gate_pages.specs.Batch.{page_in};
ghost use Rattle.gate_pages.specs.Entries.{entries};
ghost use Rattle.page_space.specs.Firsts.{first_pages};
ghost use Rattle.page_space.specs.Layout.{catalog_page};

use crate::errors::SpaceError;
use crate::fields::start;
use crate::layout::{CATALOG, FIRST, SUPERBLOCK};
use crate::superblock::Superblock;
use block_disk::BLOCK;
use gate_pages::Batch;
use std::alloc::Global;

/// Makes a page an empty page of the catalog.
pub(crate) fn write_catalog(page: &mut [u8])
    requires { IsBlock page.old }
    ensures { page.new ≡ catalog_page }
{
    start(page, &CATALOG);
}

/// Page 0 of an empty store of so many pages, and its catalog.
pub(crate) fn first_batch(alloc: Global, count: u32) -> Result<Batch, SpaceError>
    ensures pages { IfOk result (λ batch. (p : ℕ) → page_in (entries batch) p ≡ page_in (first_pages count) p) }
    ensures len { IfOk result (λ batch. length (entries batch) ≡ 17) }
    ensures cause { IfErr result (λ cause. cause ≡ SpaceError.NoMemory) }
{
    let mut batch = Batch::new(alloc)?;
    let mut page = [0; BLOCK];
    Superblock::empty(count).write(&mut page);
    batch.put(SUPERBLOCK, &page);
    write_catalog(&mut page);
    for p in SUPERBLOCK + 1..FIRST {
        batch.put(p, &page);
    }
    Ok(batch)
}
