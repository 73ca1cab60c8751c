//! The calls of a cache of pages.
ghost use Rattle.std.specs.Prelude.{◌≡◌, ◌≢◌, ◌≤◌, ◌<◌, ◌+◌, ◌*◌, ◌%◌, ℕ, List, None, Some, length, is_some, slice_index_or, IfOk, IfSome};
ghost use Rattle.std.specs.Prelude.{IsTrue};
ghost use Rattle.std.specs.Option.{option_copied};
ghost use Rattle.block_disk.specs.Blocks.{block_size, IsBlock};
ghost use Rattle.block_disk.specs.MemDisk.{blocks_of, put};
ghost use Rattle.gate_pages.specs.Batch.{page_in};
ghost use Rattle.gate_pages.specs.Entries.{entries};
ghost use Rattle.page_space.specs.Copies.{place as place_of, copies_in, with_copy, renewed};
ghost use Rattle.page_space.specs.Marks.{IsTreePage};

use crate::layout::PLACES;
use crate::page_cache::{Kept, PageCache};
use block_disk::BLOCK;
use gate_pages::Batch;
use std::alloc::{AllocError, Global};

/// The place of a page.
fn place(p: u32) -> usize
    ensures place { result ≡ place_of p }
    ensures within { result < 4096 }
{
    p as usize % PLACES
}

/// Puts a block in place of the one at a place.
fn put_block(bytes: &mut [u8], at: usize, block: &[u8])
    requires whole { IsBlock block.now }
    requires within { block_size * at + block_size ≤ length bytes.old }
    ensures put { blocks_of bytes.new ≡ put at block.now (blocks_of bytes.old) }
    ensures len { length bytes.new ≡ length bytes.old }
{
    let start = BLOCK * at;
    bytes[start..start + BLOCK].copy_from_slice(block);
}

impl PageCache {
    /// A cache that holds no page. No other call of it takes memory.
    pub(crate) fn new(alloc: Global) -> Result<PageCache, AllocError>
        ensures { IfOk result (λ cache. (p : ℕ) → copies_in cache p ≡ None) }
    {
        let places = vec![in alloc; None; PLACES]?;
        let bytes = Vec::with_capacity(alloc, BLOCK * PLACES)?;
        Ok(PageCache { places, bytes })
    }

    /// Whether it holds a page.
    pub(crate) fn holds(&self, p: u32) -> bool
        ensures { result ≡ is_some (copies_in self.now p) }
    {
        match self.places[place(p)] {
            Some(kept) => kept.page == p,
            None => false,
        }
    }

    /// The copy of a page, where it holds one.
    pub(crate) fn get(&self, p: u32) -> Option<&[u8]>
        ensures copy { option_copied result ≡ copies_in self.now p }
        ensures whole { IfSome result (λ bytes. IsBlock bytes.now) }
    {
        let kept = self.places[place(p)]?;
        if kept.page != p {
            return None;
        }
        let start = BLOCK * usize::from(kept.copy);
        let bytes = self.bytes.as_slice();
        Some(&bytes[start..start + BLOCK])
    }

    /// Holds a page in its place.
    pub(crate) fn keep(&mut self, p: u32, bytes: &[u8])
        requires { IsBlock bytes.now }
        ensures { (q : ℕ) → copies_in self.new q ≡ with_copy p bytes.now (copies_in self.old) q }
    {
        let at = place(p);
        match self.places[at] {
            Some(kept) => self.keep_over(at, kept.copy, p, bytes),
            None => self.keep_first(at, p, bytes),
        }
    }

    /// Holds a page in a place that holds one: the copy of that is written over.
    fn keep_over(&mut self, at: usize, copy: u16, p: u32, bytes: &[u8])
        requires whole { IsBlock bytes.now }
        requires place { at ≡ place_of p }
        requires kept { (old : Kept) → slice_index_or self.old.places.items at None ≡ Some old → old.copy ≡ copy }
        requires some { IsTrue (is_some (slice_index_or self.old.places.items at None)) }
        ensures { (q : ℕ) → copies_in self.new q ≡ with_copy p bytes.now (copies_in self.old) q }
    {
        put_block(self.bytes.as_mut_slice(), usize::from(copy), bytes);
        self.places[at] = Some(Kept {
            page: p,
            copy,
            level: 0,
        });
    }

    /// Holds a page in a place that holds none: its copy comes behind the others.
    fn keep_first(&mut self, at: usize, p: u32, bytes: &[u8])
        requires whole { IsBlock bytes.now }
        requires place { at ≡ place_of p }
        requires none { slice_index_or self.old.places.items at None ≡ None }
        ensures { (q : ℕ) → copies_in self.new q ≡ with_copy p bytes.now (copies_in self.old) q }
    {
        let copy = (self.bytes.len() / BLOCK) as u16;
        let Ok(()) = self.bytes.extend_from_slice(bytes) else {
            unreachable!()
        };
        self.places[at] = Some(Kept {
            page: p,
            copy,
            level: 0,
        });
    }

    /// Notes that the copy of a page that it holds is a tree page of this page level.
    pub(crate) fn note(&mut self, p: u32, level: u8)
        requires { (bytes : List ℕ) → copies_in self.old p ≡ Some bytes → IsTreePage level bytes }
        ensures { (q : ℕ) → copies_in self.new q ≡ copies_in self.old q }
    {
        let at = place(p);
        let Some(kept) = self.places[at] else {
            return;
        };
        if kept.page != p {
            return;
        }
        self.places[at] = Some(Kept { level, ..kept });
    }

    /// Whether it was noted that the copy of a page is a tree page of this page level.
    pub(crate) fn is_noted(&self, p: u32, level: u8) -> bool
        requires { 1 ≤ level }
        ensures { IsTrue result → (bytes : List ℕ) → copies_in self.now p ≡ Some bytes → IsTreePage level bytes }
    {
        let Some(kept) = self.places[place(p)] else {
            return false;
        };
        kept.page == p && kept.level == level
    }

    /// Gives each page that it holds its new bytes, where the batch has such.
    pub(crate) fn renew(&mut self, batch: &Batch)
        requires { (p : ℕ) (bytes : List ℕ) → page_in (entries batch.now) p ≡ Some bytes → IsBlock bytes }
        ensures { (p : ℕ) → copies_in self.new p ≡ renewed (entries batch.now) (copies_in self.old) p }
    {
        for at in 0..batch.len() {
            self.renew_page(batch.number(at), batch);
        }
    }

    /// The same of one page.
    fn renew_page(&mut self, p: u32, batch: &Batch)
        requires { (q : ℕ) (bytes : List ℕ) → page_in (entries batch.now) q ≡ Some bytes → IsBlock bytes }
        ensures here { copies_in self.new p ≡ renewed (entries batch.now) (copies_in self.old) p }
        ensures others { (q : ℕ) → q ≢ p → copies_in self.new q ≡ copies_in self.old q }
    {
        if !self.holds(p) {
            return;
        }
        let Some(bytes) = batch.get(p) else {
            return;
        };
        self.keep(p, bytes);
    }
}
