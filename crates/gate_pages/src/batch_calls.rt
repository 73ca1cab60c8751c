//! The calls of a batch.
ghost use Rattle.std.specs.Prelude.{◌≡◌, ◌≢◌, ◌≤◌, ◌<◌, ◌+◌, ◌==◌, ◌⊎◌, ◌↔◌, ℕ, [], None, Some, length, is_some, slice_index_or};
ghost use Rattle.std.specs.Prelude.{if◌then◌else◌, IfOk, IsTrue};
ghost use Rattle.std.specs.Option.{option_copied};
ghost use Rattle.block_disk.specs.Blocks.{IsBlock};
ghost use Rattle.gate_pages.specs.Batch.{page_in, AllBelow};
ghost use Rattle.gate_pages.specs.Batches.{entry_of};
ghost use Rattle.gate_pages.specs.Entries.{entries};

use crate::batch::Batch;
use crate::layout::MOST;
use crate::page::Page;
use std::alloc::{AllocError, Global};

/// Room for so many pages.
fn room(alloc: Global) -> Result<Vec<Page>, AllocError>
    ensures { IfOk result (λ pages. length pages.items ≡ 64) }
{
    let mut pages = Vec::new(alloc);
    for _ in 0..MOST {
        let page = Page::new(alloc)?;
        if pages.push(page).is_err() {
            return Err(AllocError);
        }
    }
    Ok(pages)
}

impl Batch {
    /// An empty batch with room for 64 pages. No other call of it takes memory.
    pub fn new(alloc: Global) -> Result<Batch, AllocError>
        ensures { IfOk result (λ batch. entries batch ≡ []) }
    {
        let pages = room(alloc)?;
        Ok(Batch { pages, len: 0 })
    }

    /// How many pages there are.
    pub fn len(&self) -> usize
        ensures len { result ≡ length (entries self.now) }
        ensures most { result ≤ 64 }
    {
        self.len
    }

    /// Where the page of this number stands, or the number of pages.
    pub(crate) fn place(&self, p: u32) -> usize
        ensures within { result ≤ self.now.len }
        ensures found { result < self.now.len → (slice_index_or (entries self.now) result (0, [])).0 ≡ p }
        ensures before { (k : ℕ) → k < result → (slice_index_or (entries self.now) k (0, [])).0 ≢ p }
    {
        let mut at = 0;
        while at < self.len {
            if self.pages[at].number == p {
                return at;
            }
            at += 1;
        }
        at
    }

    /// Replaces the page of this number, or adds it.
    pub fn put(&mut self, p: u32, bytes: &[u8])
        requires whole { IsBlock bytes.now }
        requires room { IsTrue (is_some (page_in (entries self.old) p)) ⊎ (length (entries self.old) < 64) }
        ensures page { (number : ℕ) → page_in (entries self.new) number ≡ (if number == p then Some bytes.now
            else page_in (entries self.old) number) }
        ensures len { length (entries self.new) ≡ (if is_some (page_in (entries self.old) p) then length (entries self.old)
            else length (entries self.old) + 1) }
    {
        let at = self.place(p);
        let page = &mut self.pages[at];
        page.set(p, bytes);
        if at == self.len {
            self.len += 1;
        }
    }

    /// Whether a page of this number is there.
    pub fn has(&self, p: u32) -> bool
        ensures { result ≡ is_some (page_in (entries self.now) p) }
    {
        self.place(p) < self.len
    }

    /// The bytes of the page of this number, where it is there.
    pub fn get(&self, p: u32) -> Option<&[u8]>
        ensures { option_copied result ≡ page_in (entries self.now) p }
    {
        let at = self.place(p);
        if at == self.len {
            return None;
        }
        Some(self.pages[at].bytes.as_slice())
    }

    /// Whether each page's number is below the count.
    pub fn fits(&self, count: u32) -> bool
        ensures { IsTrue result ↔ AllBelow count (entries self.now) }
    {
        for i in 0..self.len {
            if self.pages[i].number >= count {
                return false;
            }
        }
        true
    }

    /// Drops all pages.
    pub fn clear(&mut self)
        ensures { entries self.new ≡ [] }
    {
        self.len = 0;
    }

    /// The page at a place.
    pub(crate) fn page(&self, at: usize) -> &Page
        requires { at < length (entries self.now) }
        ensures { entry_of result.now ≡ slice_index_or (entries self.now) at (0, []) }
    {
        &self.pages[at]
    }

    /// The number of the page at a place.
    pub fn number(&self, at: usize) -> u32
        requires { at < length (entries self.now) }
        ensures { result ≡ (slice_index_or (entries self.now) at (0, [])).0 }
    {
        self.pages[at].number
    }
}
