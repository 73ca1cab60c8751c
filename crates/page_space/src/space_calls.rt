//! The calls of a space, but those that take a page.
ghost use Rattle.std.specs.Prelude.{◌≡◌, ◌≢◌, ◌≤◌, ◌<◌, ◌+◌, ◌==◌, ◌↔◌, ℕ, List, Some, None, is_some, length, if◌then◌else◌, IfOk, OnOk};
ghost use Rattle.std.specs.Prelude.{OnErr, IsOk, IsTrue, IsFalse};
ghost use Rattle.block_disk.specs.Blocks.{IsBlock};
ghost use Rattle.block_disk.specs.Counts.{HasRisen};
ghost use Rattle.block_disk.specs.View.{Image};
ghost use Rattle.page_space.specs.Changing.{StandsAs, KeepsStanding, KeepsStandingOff, Frees, StandsWith};
ghost use Rattle.page_space.specs.Copies.{renewed};
ghost use Rattle.page_space.specs.Layout.{superblock_page, freed_page, IsGiven, in_use, with_head, with_series};
ghost use Rattle.page_space.specs.Marks.{IsTreePage, IsNoTreePage};
ghost use Rattle.page_space.specs.Shown as shown;
ghost use Rattle.page_space.specs.Spaces.{Stands};
ghost use Rattle.page_space.specs.Transactions.{held, held_page, HasRoom, OnlyFirst};

use crate::freed_page::write_freed;
use crate::layout::FIRST;
use crate::space::Space;
use crate::superblock::Superblock;
use crate::tree_pages::is_tree_page;
use crate::txn::Txn;
use block_disk::BLOCK;
use gate_pages::{DiskFault, Pages};
use std::alloc::{AllocError, Global};

impl<P: Pages> Space<P> {
    /// The number of pages of the store. It never changes.
    pub fn total(&self) -> u32
        ensures total { result ≡ shown.total self.now }
        ensures within { (62 ≤ result) × (result ≤ shown.count self.now) }
    {
        self.superblock.total
    }

    /// How many pages are in use, page 0 and the catalog among them.
    pub fn used(&self) -> u32
        ensures used { result ≡ in_use (shown.numbers self.now) }
        // where the pages stand, page 0 and the catalog, and those behind it that are in use
        ensures counts { (count : ℕ) (image : Image) (taken freed : List ℕ) → Stands count image (shown.numbers self.now) taken freed
            → result ≡ 17 + length taken }
    {
        self.superblock.used()
    }

    /// The first page that was never used.
    pub fn fresh(&self) -> u32
        ensures fresh { result ≡ (shown.numbers self.now).fresh }
        ensures within { (17 ≤ result) × (result ≤ shown.total self.now) }
    {
        self.superblock.fresh
    }

    /// How many series the catalog has.
    pub fn series(&self) -> u32
        ensures series { result ≡ (shown.numbers self.now).series }
        ensures most { result ≤ 512 }
    {
        self.superblock.series
    }

    /// Whether more calls may be made. After a fault in a commit they may not.
    pub fn is_sound(&self) -> bool
        ensures { IsTrue result ↔ shown.IsSound self.now }
    {
        self.pages.is_sound()
    }

    /// Whether a transaction is over a store of as many pages. It is where it was begun over this space.
    pub fn fits(&self, txn: &Txn) -> bool
        ensures { IsTrue result ↔ (txn.now.superblock.total ≡ shown.total self.now) }
    {
        txn.superblock.total == self.superblock.total
    }

    /// The pages.
    pub fn into_pages(self) -> P
        ensures { result ≡ self.pages }
    {
        self.pages
    }

    /// Whether a page is held in memory, where `get` finds it without the disk.
    pub fn holds(&self, p: u32) -> bool
        ensures held { IsTrue result ↔ shown.Holds self.now p }
        // where reads tell the pages, what is held of a page is the page
        ensures same { shown.IsSound self.now → shown.IsTold self.now → IsTrue result
            → shown.copies self.now p ≡ Some (shown.image self.now p) }
    {
        self.cache.holds(p)
    }

    /// Reads a page, and holds it from then on. After `DiskFault`, `out` may hold anything.
    pub fn get(&mut self, p: u32, out: &mut [u8]) -> Result<(), DiskFault>
        requires sound { shown.IsSound self.old }
        requires p_in_total { p < shown.total self.old }
        requires whole { IsBlock out.old }
        ensures page { shown.IsTold self.old → OnOk result (out.new ≡ shown.image self.old p) }
        ensures reads { shown.ReadsOne self.old self.new }
        ensures goes_on { shown.TimeGoesOn self.old self.new }
        ensures superblock { shown.numbers self.new ≡ shown.numbers self.old }
        ensures cause { OnErr result (HasRisen (shown.view self.old).faults (shown.view self.new).faults) }
        ensures quiet { OnOk result ((shown.view self.new).faults ≡ (shown.view self.old).faults) }
        // a page that is held is read without the disk
        ensures hit { shown.Holds self.old p → IsOk result × (self.new ≡ self.old) }
        // a page that was read is held, and the other places hold what they held
        ensures kept { OnOk result (shown.copies self.new p ≡ Some out.new) }
        ensures others { shown.KeepsCopiesOff p self.old self.new }
        ensures none { OnErr result ((q : ℕ) → shown.copies self.new q ≡ shown.copies self.old q) }
    {
        if let Some(page) = self.cache.get(p) {
            out.copy_from_slice(page);
            return Ok(());
        }
        self.pages.get(p, out)?;
        self.cache.keep(p, out);
        Ok(())
    }

    /// Reads a page as `get` does, and tells whether it is a tree page of this page level that keeps its layout. While
    /// the page is held, that is looked for once.
    pub fn get_tree(&mut self, p: u32, level: u8, out: &mut [u8]) -> Result<bool, DiskFault>
        requires sound { shown.IsSound self.old }
        requires p_in_total { p < shown.total self.old }
        requires some { 1 ≤ level }
        requires whole { IsBlock out.old }
        ensures tree { IfOk result (λ is. IsTrue is → IsTreePage level out.new) }
        ensures no_tree { IfOk result (λ is. IsFalse is → IsNoTreePage level out.new) }
        // else as get does
        ensures page { shown.IsTold self.old → OnOk result (out.new ≡ shown.image self.old p) }
        ensures reads { shown.ReadsOne self.old self.new }
        ensures goes_on { shown.TimeGoesOn self.old self.new }
        ensures superblock { shown.numbers self.new ≡ shown.numbers self.old }
        ensures cause { OnErr result (HasRisen (shown.view self.old).faults (shown.view self.new).faults) }
        ensures quiet { OnOk result ((shown.view self.new).faults ≡ (shown.view self.old).faults) }
        ensures hit { shown.Holds self.old p → IsOk result × (shown.pages self.new ≡ shown.pages self.old) }
        ensures kept { OnOk result (shown.copies self.new p ≡ Some out.new) }
        ensures others { shown.KeepsCopiesOff p self.old self.new }
        ensures none { OnErr result ((q : ℕ) → shown.copies self.new q ≡ shown.copies self.old q) }
    {
        self.get(p, out)?;
        if self.cache.is_noted(p, level) {
            return Ok(true);
        }
        if !is_tree_page(out, level) {
            return Ok(false);
        }
        self.cache.note(p, level);
        Ok(true)
    }

    /// A transaction over the pages as they are. It holds page 0 alone.
    pub fn begin(&mut self, alloc: Global) -> Result<Txn, AllocError>
        ensures same { self.new ≡ self.old }
        ensures superblock { IfOk result (λ txn. txn.superblock ≡ shown.numbers self.old) }
        ensures len { IfOk result (λ txn. length (held txn) ≡ 1) }
        ensures pages { IfOk result (λ txn. (p : ℕ)
            → held_page txn p ≡ (if p == 0 then Some (superblock_page (shown.numbers self.old)) else None)) }
        ensures stands { IfOk result (λ txn. StandsAs (shown.numbers self.old) txn) }
        // it would leave the pages as they are
        ensures left { IfOk result (λ txn. shown.IsSound self.old → shown.IsTold self.old → (p : ℕ)
            → shown.left self.old txn p ≡ shown.image self.old p) }
    {
        Txn::new(alloc, self.superblock)
    }

    /// Reads a page as a transaction would leave it. One that it holds is read without the disk, another as by `get`.
    pub fn read(&mut self, txn: &Txn, p: u32, out: &mut [u8]) -> Result<(), DiskFault>
        requires sound { shown.IsSound self.old }
        requires p_in_total { p < shown.total self.old }
        requires whole { IsBlock out.old }
        ensures page { shown.IsTold self.old → OnOk result (out.new ≡ shown.left self.old txn.now p) }
        ensures held { IsTrue (is_some (held_page txn.now p)) → IsOk result
            × ((self.new ≡ self.old) × (held_page txn.now p ≡ Some out.new)) }
        ensures reads { shown.ReadsOne self.old self.new }
        ensures goes_on { shown.TimeGoesOn self.old self.new }
        ensures superblock { shown.numbers self.new ≡ shown.numbers self.old }
        ensures cause { OnErr result (HasRisen (shown.view self.old).faults (shown.view self.new).faults) }
        ensures quiet { OnOk result ((shown.view self.new).faults ≡ (shown.view self.old).faults) }
        // else as get does
        ensures hit { shown.Holds self.old p → IsOk result × (self.new ≡ self.old) }
        ensures kept { held_page txn.now p ≡ None → OnOk result (shown.copies self.new p ≡ Some out.new) }
        ensures others { shown.KeepsCopiesOff p self.old self.new }
        ensures none { OnErr result ((q : ℕ) → shown.copies self.new q ≡ shown.copies self.old q) }
    {
        match txn.batch.get(p) {
            Some(page) => {
                out.copy_from_slice(page);
                Ok(())
            }
            None => self.get(p, out),
        }
    }

    /// Sets how many series the catalog has.
    pub fn set_series(&self, txn: &mut Txn, n: u32)
        requires few { n ≤ 512 }
        ensures superblock { txn.new.superblock ≡ with_series txn.old.superblock n }
        ensures pages { OnlyFirst txn.old txn.new }
        ensures stands { KeepsStanding txn.old txn.new }
    {
        txn.settle(Superblock {
            series: n,
            ..txn.superblock
        });
    }

    /// Gives a page back: it becomes the head of the chain.
    ///
    /// Nothing changes where the page is none of 17 to fresh - 1, or all of them are in the chain.
    pub fn free(&mut self, txn: &mut Txn, p: u32)
        requires room { HasRoom txn.old p }
        ensures same { self.new ≡ self.old }
        ensures nothing { (IsGiven txn.old.superblock.fresh p × (txn.old.superblock.chain + 17 < txn.old.superblock.fresh) → ⊥)
            → txn.new ≡ txn.old }
        ensures superblock { IsGiven txn.old.superblock.fresh p → txn.old.superblock.chain + 17 < txn.old.superblock.fresh
            → txn.new.superblock ≡ with_head txn.old.superblock p }
        ensures same_total { txn.new.superblock.total ≡ txn.old.superblock.total }
        ensures page { IsGiven txn.old.superblock.fresh p → txn.old.superblock.chain + 17 < txn.old.superblock.fresh
            → held_page txn.new p ≡ Some (freed_page txn.old.superblock.head) }
        ensures others { (number : ℕ) → 0 < number → number ≢ p → held_page txn.new number ≡ held_page txn.old number }
        ensures len { length (held txn.new) ≤ (if is_some (held_page txn.old p) then length (held txn.old) else length (held txn.old) + 1) }
        // where the page is in use, it is freed, and the others stay
        ensures stands { Frees p txn.old txn.new }
    {
        let superblock = txn.superblock;
        if p < FIRST || p >= superblock.fresh || superblock.chain >= superblock.fresh - FIRST {
            return;
        }
        let mut page = [0; BLOCK];
        write_freed(&mut page, superblock.head);
        txn.put(p, &page);
        txn.settle(Superblock {
            head: p,
            chain: superblock.chain + 1,
            ..superblock
        });
    }

    /// Replaces a page other than page 0 in a transaction.
    pub fn put(&mut self, txn: &mut Txn, p: u32, bytes: &[u8])
        requires whole { IsBlock bytes.now }
        requires first { 1 ≤ p }
        requires below { p < txn.old.superblock.total }
        requires room { HasRoom txn.old p }
        ensures same { self.new ≡ self.old }
        ensures superblock { txn.new.superblock ≡ txn.old.superblock }
        ensures page { (number : ℕ) → held_page txn.new number ≡ (if number == p then Some bytes.now else held_page txn.old number) }
        ensures len { length (held txn.new) ≡ (if is_some (held_page txn.old p) then length (held txn.old) else length (held txn.old) + 1) }
        // which pages are in use and which are freed stays, where it is none of the freed ones
        ensures stands { KeepsStandingOff p txn.old txn.new }
    {
        txn.put(p, bytes);
    }

    /// Commits a transaction. After `DiskFault` the pages aren't sound, and have to be opened again.
    pub fn commit(&mut self, txn: Txn) -> Result<(), DiskFault>
        requires sound { shown.IsSound self.old }
        requires total { txn.superblock.total ≡ shown.total self.old }
        // whole or absent at every moment
        ensures commits { shown.CommitsAll txn self.old self.new }
        ensures goes_on { shown.TimeGoesOn self.old self.new }
        ensures done { shown.IsTold self.old → OnOk result (shown.image self.new ≡ shown.left self.old txn) }
        ensures superblock { OnOk result (shown.numbers self.new ≡ txn.superblock) }
        ensures stands { shown.IsTold self.old → OnOk result
            (StandsWith (shown.left self.old txn) txn.superblock (shown.image self.new) (shown.numbers self.new)) }
        ensures old_superblock { OnErr result (shown.numbers self.new ≡ shown.numbers self.old) }
        ensures sound { OnOk result (shown.IsSound self.new) }
        ensures unsound { OnErr result (shown.IsSound self.new → ⊥) }
        ensures cause { OnErr result (HasRisen (shown.view self.old).faults (shown.view self.new).faults) }
        ensures quiet { OnOk result ((shown.view self.new).faults ≡ (shown.view self.old).faults) }
        // a page that was held still is, with its new bytes; after a fault with its old ones
        ensures held { OnOk result ((p : ℕ) → shown.copies self.new p ≡ renewed (held txn) (shown.copies self.old) p) }
        ensures old_held { OnErr result ((p : ℕ) → shown.copies self.new p ≡ shown.copies self.old p) }
    {
        self.pages.commit(&txn.batch)?;
        self.superblock = txn.superblock;
        self.cache.renew(&txn.batch);
        Ok(())
    }
}
