ghost use Rattle.std.specs.Prelude.{◌≡◌, ℕ, ◌+◌, ◌*◌, ◌^◌, ◌<◌, ◌≤◌, length, is_some};
ghost use Rattle.std.specs.List.{list_any};
ghost use Rattle.series_book.specs.declared.limits.TheConstants.{MOST_SLOTS};
ghost use Rattle.series_book.specs.Pages.{ranges_with_value, page_levels, series_pages, pages_of};

use crate::books::Book;
use crate::limits::{FIXED_PAGES, PAGE_SLOTS};

/// The pages that a book takes: 17, and for each series and each of its page levels j the aligned
/// ranges of 128^j slots that hold a stored value.
pub fn pages(book: &Book) -> u64
    ensures { result ≡ pages_of book.now }
{
    let mut pages = FIXED_PAGES;
    for series in book.as_slice() {
        pages += series_pages(series.slots.as_slice());
    }
    pages
}

/// The pages of a series with these slots.
pub fn series_pages(slots: &[Option<i64>]) -> u64
    requires { length slots.now ≤ MOST_SLOTS }
    ensures pages { result ≡ series_pages slots.now }
    ensures few { result ≤ 5 * length slots.now }
{
    let mut pages = 0;
    let mut size = 1;
    for _ in 0..page_levels(slots.len() as u64) {
        size *= PAGE_SLOTS;
        pages += ranges_with_value(slots, size as usize);
    }
    pages
}

/// The page levels of a series of this many slots: the least number k of at least 1 with
/// 128^k >= slots.
pub fn page_levels(slots: u64) -> u8
    requires { slots ≤ MOST_SLOTS }
    ensures levels { result ≡ page_levels slots }
    ensures above_zero { 1 ≤ result }
    ensures covers { slots ≤ PAGE_SLOTS ^ result }
    ensures few { result ≤ 5 }
    ensures least { (k : ℕ) → 1 ≤ k → slots ≤ PAGE_SLOTS ^ k → result ≤ k }
{
    let mut levels = 1;
    let mut covered = PAGE_SLOTS;
    while covered < slots {
        levels += 1;
        covered *= PAGE_SLOTS;
    }
    levels
}

/// How many aligned ranges of this many slots hold a stored value.
fn ranges_with_value(slots: &[Option<i64>], size: usize) -> u64
    requires { 0 < size }
    ensures ranges { result ≡ ranges_with_value size slots.now }
    ensures few { result ≤ length slots.now }
{
    let mut ranges = 0;
    let mut rest = slots;
    while !rest.is_empty() {
        let (range, after) = rest.split_at(size.min(rest.len()));
        if holds_value(range) {
            ranges += 1;
        }
        rest = after;
    }
    ranges
}

/// Whether a slot holds a stored value.
fn holds_value(slots: &[Option<i64>]) -> bool
    ensures { result ≡ list_any is_some slots.now }
{
    slots.iter().any(|slot| slot.is_some())
}
