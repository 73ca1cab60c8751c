//! Page 0, written and read.
ghost use Rattle.std.specs.Prelude.{◌≡◌, ◌≤◌, ◌++◌, ◌↔◌, length, IfOk, IfErr, IfSome, IfNone, IsTrue};
ghost use Rattle.block_disk.specs.Blocks.{IsBlock};
ghost use Rattle.page_space.specs.Causes.{Unreadable};
ghost use Rattle.page_space.specs.declared.superblock.Superblock.{Superblock};
ghost use Rattle.page_space.specs.Layout.{magic, superblock_page, IsSuperblock, IsSmall, Keeps, empty_of, in_use};

use crate::errors::SpaceError;
use crate::fields::{all_zero, put_word, start, word_at};
use crate::layout::{
    CHAIN, FEWEST, FIRST, FRESH, HEAD, MAGIC, MOST_SERIES, SERIES, SUPERBLOCK, TOTAL,
};
use crate::superblock::Superblock;

impl Superblock {
    /// The numbers of an empty store of so many pages.
    pub(crate) fn empty(total: u32) -> Superblock
        ensures { result ≡ empty_of total }
    {
        Superblock {
            total,
            fresh: FIRST,
            head: 0,
            chain: 0,
            series: 0,
        }
    }

    /// How many pages are in use.
    pub(crate) fn used(&self) -> u32
        requires { self.now.chain ≤ self.now.fresh }
        ensures { result ≡ in_use self.now }
    {
        self.fresh - self.chain
    }

    /// Whether the numbers keep their rules, over so many pages.
    pub(crate) fn is_valid(&self, count: u32) -> bool
        ensures { IsTrue result ↔ IsSuperblock count self.now }
    {
        if self.total < FEWEST || self.total > count {
            return false;
        }
        if self.fresh < FIRST || self.fresh > self.total {
            return false;
        }
        if self.chain > self.fresh - FIRST || self.series > MOST_SERIES {
            return false;
        }
        if self.head == 0 {
            return self.chain == 0;
        }
        self.chain != 0 && self.head >= FIRST && self.head < self.fresh
    }

    /// Makes a page the page 0 of these numbers.
    pub(crate) fn write(&self, page: &mut [u8])
        requires { IsBlock page.old }
        ensures { page.new ≡ superblock_page self.now }
    {
        start(page, &MAGIC);
        put_word(page, TOTAL, self.total);
        put_word(page, FRESH, self.fresh);
        put_word(page, HEAD, self.head);
        put_word(page, CHAIN, self.chain);
        put_word(page, SERIES, self.series);
    }

    /// The numbers of a page 0, whatever rules they break, where the bytes behind them are zero.
    fn read(numbers: &[u8]) -> Option<Superblock>
        requires { length numbers.now ≡ 4088 }
        ensures read { IfSome result (λ s. superblock_page s ≡ magic ++ numbers.now) }
        ensures small { IfSome result (λ s. IsSmall s) }
        ensures none { IfNone result ((s : Superblock) → superblock_page s ≡ magic ++ numbers.now → ⊥) }
    {
        let (total, rest) = word_at(numbers);
        let (fresh, rest) = word_at(rest);
        let (head, rest) = word_at(rest);
        let (chain, rest) = word_at(rest);
        let (series, rest) = word_at(rest);
        if !all_zero(rest) {
            return None;
        }
        Some(Superblock {
            total,
            fresh,
            head,
            chain,
            series,
        })
    }
}

/// The numbers of a page 0 that keeps its layout, over so many pages.
pub(crate) fn superblock_in(page: &[u8], count: u32) -> Result<Superblock, SpaceError>
    requires { IsBlock page.now }
    ensures keeps { IfOk result (λ s. Keeps count s page.now) }
    ensures only { IfOk result (λ s. (t : Superblock) → Keeps count t page.now → t ≡ s) }
    ensures cause { IfErr result (λ cause. Unreadable cause count page.now) }
{
    let Some(numbers) = page.strip_prefix(&MAGIC) else {
        return Err(SpaceError::NotAStore);
    };
    let Some(superblock) = Superblock::read(numbers) else {
        return Err(SpaceError::Damaged { page: SUPERBLOCK });
    };
    if !superblock.is_valid(count) {
        return Err(SpaceError::Damaged { page: SUPERBLOCK });
    }
    Ok(superblock)
}
