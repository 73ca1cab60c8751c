//! A transaction.
ghost use Rattle.std.specs.Prelude.{◌≡◌, ℕ, List, Some};
ghost use Rattle.block_disk.specs.Blocks.{IsBlock};
ghost use Rattle.gate_pages.specs.Batch.{page_in, AllBelow};
ghost use Rattle.gate_pages.specs.Entries.{entries};
ghost use Rattle.page_space.specs.Layout.{superblock_page, IsSuperblock};

use crate::superblock::Superblock;
use gate_pages::Batch;

/// Pages to be committed together, page 0 among them: at most 64.
#[derive(Drop)]
pub struct Txn {
    pub(crate) superblock: Superblock,
    pub(crate) batch: Batch,
    ghost rules: { IsSuperblock superblock.total superblock },
    ghost first: { page_in (entries batch) 0 ≡ Some (superblock_page superblock) },
    ghost below: { AllBelow superblock.total (entries batch) },
    ghost whole: { (p : ℕ) (page : List ℕ) → page_in (entries batch) p ≡ Some page → IsBlock page },
}
