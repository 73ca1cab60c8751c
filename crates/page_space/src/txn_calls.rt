//! The calls of a transaction.
ghost use Rattle.std.specs.Prelude.{◌≡◌, ◌≤◌, ◌<◌, ◌+◌, ◌==◌, ℕ, List, Some, None, is_some, length, if◌then◌else◌, IfOk};
ghost use Rattle.block_disk.specs.Blocks.{IsBlock};
ghost use Rattle.block_disk.specs.View.{Image};
ghost use Rattle.page_space.specs.Layout.{superblock_page, IsSuperblock, in_use};
ghost use Rattle.page_space.specs.Spaces.{Stands};
ghost use Rattle.page_space.specs.Transactions.{held, held_page, HasRoom, OnlyFirst};

use crate::layout::SUPERBLOCK;
use crate::superblock::Superblock;
use crate::txn::Txn;
use block_disk::BLOCK;
use gate_pages::Batch;
use std::alloc::{AllocError, Global};

impl Txn {
    /// A transaction that holds page 0 alone, with these numbers.
    pub(crate) fn new(alloc: Global, superblock: Superblock) -> Result<Txn, AllocError>
        requires { IsSuperblock superblock.total superblock }
        ensures superblock { IfOk result (λ txn. txn.superblock ≡ superblock) }
        ensures pages { IfOk result (λ txn. length (held txn) ≡ 1) }
        ensures first { IfOk result (λ txn. (p : ℕ) → held_page txn p ≡ (if p == 0 then Some (superblock_page superblock) else None)) }
    {
        let mut batch = Batch::new(alloc)?;
        let mut page = [0; BLOCK];
        superblock.write(&mut page);
        batch.put(SUPERBLOCK, &page);
        Ok(Txn { superblock, batch })
    }

    /// The pages that it holds, at most 64.
    pub fn len(&self) -> usize
        ensures len { result ≡ length (held self.now) }
        ensures few { (1 ≤ result) × (result ≤ 64) }
    {
        self.batch.len()
    }

    /// The pages in use as it would leave them.
    pub fn used(&self) -> u32
        ensures used { result ≡ in_use self.now.superblock }
        // where the pages stand, page 0 and the catalog, and those behind it that are in use
        ensures counts { (count : ℕ) (image : Image) (taken freed : List ℕ) → Stands count image self.now.superblock taken freed
            → result ≡ 17 + length taken }
    {
        self.superblock.used()
    }

    /// Whether it holds a page of this number.
    pub fn holds(&self, p: u32) -> bool
        ensures { result ≡ is_some (held_page self.now p) }
    {
        self.batch.has(p)
    }

    /// Puts these numbers on its page 0.
    pub(crate) fn settle(&mut self, superblock: Superblock)
        requires rules { IsSuperblock superblock.total superblock }
        requires total { superblock.total ≡ self.old.superblock.total }
        ensures superblock { self.new.superblock ≡ superblock }
        ensures first { OnlyFirst self.old self.new }
    {
        let mut page = [0; BLOCK];
        superblock.write(&mut page);
        self.superblock = superblock;
        self.batch.put(SUPERBLOCK, &page);
    }

    /// Keeps another page than page 0.
    pub(crate) fn put(&mut self, p: u32, bytes: &[u8])
        requires whole { IsBlock bytes.now }
        requires first { 1 ≤ p }
        requires below { p < self.old.superblock.total }
        requires room { HasRoom self.old p }
        ensures superblock { self.new.superblock ≡ self.old.superblock }
        ensures page { (number : ℕ) → held_page self.new number ≡ (if number == p then Some bytes.now else held_page self.old number) }
        ensures len { length (held self.new) ≡ (if is_some (held_page self.old p) then length (held self.old)
            else length (held self.old) + 1) }
    {
        self.batch.put(p, bytes);
    }
}
