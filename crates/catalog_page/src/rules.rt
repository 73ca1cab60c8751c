//! The rules of the fields, each as a test.
ghost use Rattle.std.specs.Prelude.{◌≡◌, ◌<◌, ◌≤◌, ◌↔◌, length, IsTrue};
ghost use Rattle.block_disk.specs.Blocks.{IsBlock};
ghost use Rattle.series_book.specs.declared.limits.TheConstants.{MOST_SLOTS};
ghost use Rattle.catalog_page.specs.Fields.{length_at, slots_at};
ghost use Rattle.catalog_page.specs.Layout.{IsLength, IsName, IsStep, IsStart, IsSlots, HasRoot, IsMin, IsMax, IsLevels, IsClear, HasGaps};
ghost use Rattle.catalog_page.specs.Layout.{IsSpare, IsReserved, IsUnused};

use crate::fields::{bytes_of, long_at, name_of, short_at, value_at};
use crate::layout::{
    END, FIRST, LEVELS, MAX, MIN, NAME, NAME_END, RECORD, RECORDS, ROOT, SLOTS, SPARE, START, STEP,
};
use block_disk::BLOCK;
use node_page::byte_fields::are_zero;
use om3_coeff::page_levels;
use series_book::limits::{GREATEST_START, GREATEST_STEP, MOST_NAME_BYTES, MOST_SLOTS};
use series_book::names::is_name;
use whole_number::limits::GREATEST_VALUE;
use whole_number::slot_times::ends_in_time;

/// Whether the bytes from an offset on and below another are 0.
fn is_clear(bytes: &[u8], from: usize, to: usize) -> bool
    requires ordered { from ≤ to }
    requires within { to ≤ length bytes.now }
    ensures { IsTrue result ↔ IsClear bytes.now from to }
{
    are_zero(&bytes[from..to])
}

/// Whether the bytes of no record are 0.
pub(crate) fn is_reserved(page: &[u8]) -> bool
    requires whole { IsBlock page.now }
    ensures { IsTrue result ↔ IsReserved page.now }
{
    is_clear(page, 1, RECORDS) && is_clear(page, END, BLOCK)
}

/// Whether a record is all 0.
pub(crate) fn is_unused(page: &[u8], number: u8) -> bool
    requires whole { IsBlock page.now }
    requires number { number < 32 }
    ensures { IsTrue result ↔ IsUnused page.now number }
{
    is_clear(bytes_of(page, number), 0, RECORD)
}

/// Whether the length of the name is in range.
pub(crate) fn has_length(bytes: &[u8]) -> bool
    requires whole { length bytes.now ≡ 96 }
    ensures { IsTrue result ↔ IsLength bytes.now }
{
    1 <= bytes[1] && usize::from(bytes[1]) <= MOST_NAME_BYTES
}

/// Whether the name is one and is padded with 0.
pub(crate) fn has_name(bytes: &[u8]) -> bool
    requires whole { length bytes.now ≡ 96 }
    requires named { length_at bytes.now ≤ 31 }
    ensures { IsTrue result ↔ IsName bytes.now }
{
    let behind = NAME + usize::from(bytes[1]);
    is_name(name_of(bytes)) && is_clear(bytes, behind, NAME_END)
}

/// Whether the step is in range.
pub(crate) fn has_step(bytes: &[u8]) -> bool
    requires whole { length bytes.now ≡ 96 }
    ensures { IsTrue result ↔ IsStep bytes.now }
{
    let step = short_at(bytes, STEP);
    1 <= step && step <= GREATEST_STEP
}

/// Whether the start is in range.
pub(crate) fn has_start(bytes: &[u8]) -> bool
    requires whole { length bytes.now ≡ 96 }
    ensures { IsTrue result ↔ IsStart bytes.now }
{
    value_at(bytes, START).unsigned_abs() <= GREATEST_START
}

/// Whether the slots are as many as there may be, and the last one stands at a time.
pub(crate) fn has_slots(bytes: &[u8]) -> bool
    requires whole { length bytes.now ≡ 96 }
    ensures { IsTrue result ↔ IsSlots bytes.now }
{
    let slots = long_at(bytes, SLOTS);
    slots <= MOST_SLOTS && ends_in_time(value_at(bytes, START), short_at(bytes, STEP), slots)
}

/// Whether the root is a page that can be one.
pub(crate) fn has_root(bytes: &[u8], fresh: u32) -> bool
    requires whole { length bytes.now ≡ 96 }
    ensures { IsTrue result ↔ HasRoot fresh bytes.now }
{
    let root = short_at(bytes, ROOT);
    root == 0 || FIRST <= root && root < fresh && long_at(bytes, SLOTS) != 0
}

/// Whether the least value is in range.
pub(crate) fn has_min(bytes: &[u8]) -> bool
    requires whole { length bytes.now ≡ 96 }
    ensures { IsTrue result ↔ IsMin bytes.now }
{
    let min = value_at(bytes, MIN);
    min.unsigned_abs() <= GREATEST_VALUE && (short_at(bytes, ROOT) != 0 || min == 0)
}

/// Whether the greatest value is in range.
pub(crate) fn has_max(bytes: &[u8]) -> bool
    requires whole { length bytes.now ≡ 96 }
    ensures { IsTrue result ↔ IsMax bytes.now }
{
    let max = value_at(bytes, MAX);
    max.unsigned_abs() <= GREATEST_VALUE
        && value_at(bytes, MIN) <= max
        && (short_at(bytes, ROOT) != 0 || max == 0)
}

/// Whether the page levels are those of the slots.
pub(crate) fn has_levels(bytes: &[u8]) -> bool
    requires whole { length bytes.now ≡ 96 }
    requires few { slots_at bytes.now ≤ MOST_SLOTS }
    ensures { IsTrue result ↔ IsLevels bytes.now }
{
    bytes[LEVELS] == page_levels(long_at(bytes, SLOTS))
}

/// Whether the bytes in front of the name and behind it are 0.
fn has_gaps(bytes: &[u8]) -> bool
    requires whole { length bytes.now ≡ 96 }
    ensures { IsTrue result ↔ HasGaps bytes.now }
{
    bytes[3] == 0 && bytes[NAME_END] == 0
}

/// Whether the bytes of no field are 0.
pub(crate) fn is_spare(bytes: &[u8]) -> bool
    requires whole { length bytes.now ≡ 96 }
    ensures { IsTrue result ↔ IsSpare bytes.now }
{
    if !has_gaps(bytes) {
        return false;
    }
    is_clear(bytes, 60, MIN) && is_clear(bytes, SPARE, RECORD)
}
