//! A space is made, and opened.
ghost use Rattle.std.specs.Prelude.{◌≡◌, ◌≢◌, ◌≤◌, ℕ, [], None, IfOk, IfErr, OnOk};
ghost use Rattle.block_disk.specs.Blocks.{IsBlock};
ghost use Rattle.gate_pages.specs.Batch.{put_all};
ghost use Rattle.gate_pages.specs.Pages.{Reads, Commits, GoesOn};
ghost use Rattle.page_space.specs.Causes.{Unopened, Uninitialized, IsOutside};
ghost use Rattle.page_space.specs.Firsts.{first_pages, empty_over};
ghost use Rattle.page_space.specs.Layout.{Keeps, IsSuperblock, empty_of};
ghost use Rattle.page_space.specs.Opened.{pages_in};
ghost use Rattle.page_space.specs.Shown as shown;
ghost use Rattle.page_space.specs.Spaces.{Stands};
ghost use Rattle.page_space.specs.declared.superblock.Superblock.{Superblock};
ghost use Rattle.page_space.specs.declared.errors.SpaceError.{SpaceError};

use crate::errors::SpaceError;
use crate::initial::first_batch;
use crate::layout::SUPERBLOCK;
use crate::page_cache::PageCache;
use crate::space::Space;
use crate::superblock::Superblock;
use crate::superblock_page::superblock_in;
use block_disk::{BLOCK, Back};
use gate_pages::Pages;
use std::alloc::Global;

impl<P: Pages> Space<P> {
    /// Makes the pages an empty store, in one commit: page 0, and 16 empty pages of the catalog. After
    /// `DiskFault` they aren't sound.
    pub fn init(alloc: Global, mut pages: P) -> Result<Space<P>, Back<P, SpaceError>>
        requires sound { (P.view pages).fit }
        requires many { 62 ≤ (P.view pages).size }
        ensures cause { IfErr result (λ back. Uninitialized back.cause (P.view pages) (P.view back.value)) }
        ensures quiet { IfOk result (λ space. (shown.view space).faults ≡ (P.view pages).faults) }
        ensures quiet_err { IfErr result (λ back. back.cause ≢ SpaceError.DiskFault → (P.view back.value).faults ≡ (P.view pages).faults) }
        ensures no_memory { IfErr result (λ back. back.cause ≡ SpaceError.NoMemory → back.value ≡ pages) }
        ensures unsound { IfErr result (λ back. back.cause ≡ SpaceError.DiskFault → (P.view back.value).fit → ⊥) }
        // whole or absent at every moment
        ensures commits { Commits (first_pages (P.view pages).size) (P.told pages) (P.told (pages_in result)) (P.view pages)
            (P.view (pages_in result)) }
        ensures goes_on { GoesOn (P.under pages) (P.under (pages_in result)) }
        ensures done { IfOk result (λ space. P.told pages
            → shown.image space ≡ put_all (first_pages (P.view pages).size) (P.view pages).image) }
        ensures sound { IfOk result (λ space. shown.IsSound space) }
        ensures superblock { IfOk result (λ space. shown.numbers space ≡ empty_of (P.view pages).size) }
        ensures copies { IfOk result (λ space. (p : ℕ) → shown.copies space p ≡ None) }
        // page 0 and the catalog, and behind them the pages from before: no page is in use there, and none is freed
        ensures first { (p : ℕ) → put_all (first_pages (P.view pages).size) (P.view pages).image p ≡ empty_over (P.view pages).size
            (P.view pages).image p }
        ensures empty { Stands (P.view pages).size (put_all (first_pages (P.view pages).size) (P.view pages).image)
            (empty_of (P.view pages).size) [] [] }
        ensures stands { IfOk result (λ space. P.told pages → Stands (P.view pages).size (shown.image space) (shown.numbers space) [] []) }
    {
        let Ok(cache) = PageCache::new(alloc) else {
            return Err(Back {
                value: pages,
                cause: SpaceError::NoMemory,
            });
        };
        match write_first(alloc, &mut pages) {
            Ok(superblock) => Ok(Space {
                pages,
                superblock,
                cache,
            }),
            Err(cause) => Err(Back {
                value: pages,
                cause,
            }),
        }
    }

    /// The store that the pages hold. It reads page 0 and writes nothing.
    ///
    /// `NotAStore` where page 0 lacks the magic, `Damaged` where it has it and breaks its layout else.
    pub fn open(alloc: Global, mut pages: P) -> Result<Space<P>, Back<P, SpaceError>>
        requires sound { (P.view pages).fit }
        requires many { 62 ≤ (P.view pages).size }
        ensures cause { IfErr result (λ back. Unopened back.cause (P.told pages) (P.view pages) (P.view back.value)) }
        ensures quiet { IfOk result (λ space. (shown.view space).faults ≡ (P.view pages).faults) }
        ensures quiet_err { IfErr result (λ back. back.cause ≢ SpaceError.DiskFault → (P.view back.value).faults ≡ (P.view pages).faults) }
        ensures reads { Reads (P.told pages) (P.told (pages_in result)) (P.view pages) (P.view (pages_in result)) }
        ensures goes_on { GoesOn (P.under pages) (P.under (pages_in result)) }
        ensures superblock { IfOk result (λ space. P.told pages
            → Keeps (P.view pages).size (shown.numbers space) ((P.view pages).image 0)) }
        ensures only { IfOk result (λ space. P.told pages → (s : Superblock) → Keeps (P.view pages).size s ((P.view pages).image 0)
            → s ≡ shown.numbers space) }
        ensures copies { IfOk result (λ space. (p : ℕ) → shown.copies space p ≡ None) }
        // where page 0 keeps its layout, the disk and the memory alone may fail
        ensures a_store { P.told pages → (s : Superblock) → Keeps (P.view pages).size s ((P.view pages).image 0)
            → IfErr result (λ back. IsOutside back.cause) }
    {
        let Ok(cache) = PageCache::new(alloc) else {
            return Err(Back {
                value: pages,
                cause: SpaceError::NoMemory,
            });
        };
        match read_first(alloc, &mut pages) {
            Ok(superblock) => Ok(Space {
                pages,
                superblock,
                cache,
            }),
            Err(cause) => Err(Back {
                value: pages,
                cause,
            }),
        }
    }
}

/// Writes the pages of an empty store, and gives the numbers of its page 0.
fn write_first<P: Pages>(alloc: Global, pages: &mut P) -> Result<Superblock, SpaceError>
    requires sound { (P.view pages.old).fit }
    requires many { 62 ≤ (P.view pages.old).size }
    ensures cause { IfErr result (λ cause. Uninitialized cause (P.view pages.old) (P.view pages.new)) }
    ensures quiet { OnOk result ((P.view pages.new).faults ≡ (P.view pages.old).faults) }
    ensures quiet_err { IfErr result (λ cause. cause ≢ SpaceError.DiskFault → (P.view pages.new).faults ≡ (P.view pages.old).faults) }
    ensures no_memory { IfErr result (λ cause. cause ≡ SpaceError.NoMemory → pages.new ≡ pages.old) }
    ensures unsound { IfErr result (λ cause. cause ≡ SpaceError.DiskFault → (P.view pages.new).fit → ⊥) }
    ensures goes_on { GoesOn (P.under pages.old) (P.under pages.new) }
    ensures commits { Commits (first_pages (P.view pages.old).size) (P.told pages.old) (P.told pages.new) (P.view pages.old)
        (P.view pages.new) }
    ensures done { P.told pages.old → OnOk result ((P.view pages.new).image ≡ put_all (first_pages (P.view pages.old).size)
        (P.view pages.old).image) }
    ensures sound { OnOk result (P.view pages.new).fit }
    ensures superblock { IfOk result (λ s. s ≡ empty_of (P.view pages.old).size) }
{
    let batch = first_batch(alloc, pages.count())?;
    pages.commit(&batch)?;
    Ok(Superblock::empty(pages.count()))
}

/// Reads page 0, and gives its numbers.
fn read_first<P: Pages>(alloc: Global, pages: &mut P) -> Result<Superblock, SpaceError>
    requires sound { (P.view pages.old).fit }
    requires many { 62 ≤ (P.view pages.old).size }
    ensures cause { IfErr result (λ cause. Unopened cause (P.told pages.old) (P.view pages.old) (P.view pages.new)) }
    ensures quiet { OnOk result ((P.view pages.new).faults ≡ (P.view pages.old).faults) }
    ensures quiet_err { IfErr result (λ cause. cause ≢ SpaceError.DiskFault → (P.view pages.new).faults ≡ (P.view pages.old).faults) }
    ensures reads { Reads (P.told pages.old) (P.told pages.new) (P.view pages.old) (P.view pages.new) }
    ensures goes_on { GoesOn (P.under pages.old) (P.under pages.new) }
    ensures superblock { IfOk result (λ s. P.told pages.old → Keeps (P.view pages.old).size s ((P.view pages.old).image 0)) }
    ensures only { IfOk result (λ s. P.told pages.old → (t : Superblock) → Keeps (P.view pages.old).size t ((P.view pages.old).image 0)
        → t ≡ s) }
    ensures rules { IfOk result (λ s. IsSuperblock (P.view pages.old).size s) }
{
    let mut page = vec![in alloc; 0; BLOCK]?;
    first_in(pages, page.as_mut_slice())
}

/// Reads page 0 into a buffer, and gives its numbers.
fn first_in<P: Pages>(pages: &mut P, page: &mut [u8]) -> Result<Superblock, SpaceError>
    requires sound { (P.view pages.old).fit }
    requires many { 62 ≤ (P.view pages.old).size }
    requires whole { IsBlock page.old }
    ensures cause { IfErr result (λ cause. Unopened cause (P.told pages.old) (P.view pages.old) (P.view pages.new)) }
    ensures quiet { OnOk result ((P.view pages.new).faults ≡ (P.view pages.old).faults) }
    ensures quiet_err { IfErr result (λ cause. cause ≢ SpaceError.DiskFault → (P.view pages.new).faults ≡ (P.view pages.old).faults) }
    ensures reads { Reads (P.told pages.old) (P.told pages.new) (P.view pages.old) (P.view pages.new) }
    ensures goes_on { GoesOn (P.under pages.old) (P.under pages.new) }
    ensures superblock { IfOk result (λ s. P.told pages.old → Keeps (P.view pages.old).size s ((P.view pages.old).image 0)) }
    ensures only { IfOk result (λ s. P.told pages.old → (t : Superblock) → Keeps (P.view pages.old).size t ((P.view pages.old).image 0)
        → t ≡ s) }
    ensures rules { IfOk result (λ s. IsSuperblock (P.view pages.old).size s) }
{
    pages.get(SUPERBLOCK, page)?;
    superblock_in(page, pages.count())
}
