//! A record of a page, set.
ghost use Rattle.std.specs.Prelude.{◌≡◌, ◌≢◌, ◌≤◌, ◌<◌, ◌+◌, ◌*◌, ◌⊎◌, ◌↔◌, ℕ, length, slice_index, None, Option};
ghost use Rattle.block_disk.specs.Blocks.{IsBlock};
ghost use Rattle.om3_coeff.specs.declared.span.Span.{Span};
ghost use Rattle.series_book.specs.declared.limits.TheConstants.{MOST_SLOTS};
ghost use Rattle.node_page.specs.Fields.{number_at, signed_at};
ghost use Rattle.catalog_page.specs.Fields.{record_bytes, used_at, length_at, scale_at, step_at, start_at, slots_at, root_at, min_at};
ghost use Rattle.catalog_page.specs.Fields.{max_at, levels_at};
ghost use Rattle.catalog_page.specs.Entries.{entry_of, entry_at, IsEntry, least_of, greatest_of};
ghost use Rattle.catalog_page.specs.Layout.{HasRecord, KeepsLayout};
ghost use Rattle.catalog_page.specs.Spelling.{Spells};

use crate::layout::{LEVELS, MAX, MIN, NAME, RECORD, RECORDS, ROOT, SLOTS, START, STEP, USED};
use crate::series_record::Record;
use node_page::byte_fields::put;
use om3_coeff::{Span, page_levels};

/// Sets the number in the four bytes from an offset on.
fn set_short(bytes: &mut [u8], offset: usize, number: u32)
    requires whole { length bytes.old ≡ 96 }
    requires within { offset + 4 ≤ 96 }
    ensures whole { length bytes.new ≡ 96 }
    ensures set { number_at bytes.new 4 offset ≡ number }
    ensures rest { (k : ℕ) → (k < offset) ⊎ (offset + 4 ≤ k) → slice_index bytes.new k ≡ slice_index bytes.old k }
{
    put(bytes, offset, &number.to_be_bytes());
}

/// Sets the number in the eight bytes from an offset on.
fn set_long(bytes: &mut [u8], offset: usize, number: u64)
    requires whole { length bytes.old ≡ 96 }
    requires within { offset + 8 ≤ 96 }
    ensures whole { length bytes.new ≡ 96 }
    ensures set { number_at bytes.new 8 offset ≡ number }
    ensures rest { (k : ℕ) → (k < offset) ⊎ (offset + 8 ≤ k) → slice_index bytes.new k ≡ slice_index bytes.old k }
{
    put(bytes, offset, &number.to_be_bytes());
}

/// Sets the signed number in the eight bytes from an offset on.
fn set_value(bytes: &mut [u8], offset: usize, value: i64)
    requires whole { length bytes.old ≡ 96 }
    requires within { offset + 8 ≤ 96 }
    ensures whole { length bytes.new ≡ 96 }
    ensures set { signed_at bytes.new offset ≡ value }
    ensures rest { (k : ℕ) → (k < offset) ⊎ (offset + 8 ≤ k) → slice_index bytes.new k ≡ slice_index bytes.old k }
{
    put(bytes, offset, &value.cast_unsigned().to_be_bytes());
}

/// Sets the fields of which a record has one number each.
fn set_numbers(bytes: &mut [u8], series: &Record)
    requires whole { length bytes.old ≡ 96 }
    ensures whole { length bytes.new ≡ 96 }
    ensures step { step_at bytes.new ≡ series.now.step }
    ensures start { start_at bytes.new ≡ series.now.start }
    ensures slots { slots_at bytes.new ≡ series.now.slots }
    ensures root { root_at bytes.new ≡ series.now.root }
    ensures rest { (k : ℕ) → (k < 36) ⊎ (60 ≤ k) → slice_index bytes.new k ≡ slice_index bytes.old k }
{
    set_short(bytes, STEP, series.step);
    set_value(bytes, START, series.start);
    set_long(bytes, SLOTS, series.slots);
    set_short(bytes, ROOT, series.root);
}

/// The two ends of a span, 0 where there is none.
fn ends_of(span: Option<Span>) -> (i64, i64)
    ensures least { result.0 ≡ least_of span }
    ensures greatest { result.1 ≡ greatest_of span }
{
    match span {
        None => (0, 0),
        Some(span) => (span.min, span.max),
    }
}

/// Sets the least and the greatest value.
fn set_span(bytes: &mut [u8], span: Option<Span>)
    requires whole { length bytes.old ≡ 96 }
    ensures whole { length bytes.new ≡ 96 }
    ensures min { min_at bytes.new ≡ least_of span }
    ensures max { max_at bytes.new ≡ greatest_of span }
    ensures rest { (k : ℕ) → (k < 64) ⊎ (80 ≤ k) → slice_index bytes.new k ≡ slice_index bytes.old k }
{
    let (min, max) = ends_of(span);
    set_value(bytes, MIN, min);
    set_value(bytes, MAX, max);
}

/// Sets the fields of one byte.
fn set_small(bytes: &mut [u8], len: u8, scale: u8, levels: u8)
    requires whole { length bytes.old ≡ 96 }
    ensures whole { length bytes.new ≡ 96 }
    ensures used { used_at bytes.new ≡ 1 }
    ensures length { length_at bytes.new ≡ len }
    ensures scale { scale_at bytes.new ≡ scale }
    ensures levels { levels_at bytes.new ≡ levels }
    ensures rest { (k : ℕ) → 3 ≤ k → k ≢ 80 → slice_index bytes.new k ≡ slice_index bytes.old k }
{
    bytes[0] = USED;
    bytes[1] = len;
    bytes[2] = scale;
    bytes[LEVELS] = levels;
}

/// The bytes of a record that says this.
fn spelling(series: &Record) -> [u8; 96]
    requires named { length series.now.name.now ≤ 31 }
    requires few { series.now.slots ≤ MOST_SLOTS }
    ensures { Spells (entry_of series.now) result }
{
    let mut bytes = [0; RECORD];
    set_numbers(&mut bytes, series);
    set_span(&mut bytes, series.span);
    set_small(
        &mut bytes,
        series.name.len() as u8,
        series.scale,
        page_levels(series.slots),
    );
    put(&mut bytes, NAME, series.name);
    bytes
}

/// Makes record `number`, 0 to 31, of a page of 4,096 bytes one that says this. All other bytes stay. The
/// name has at most 31 bytes, there are at most 2^35 slots, and there is a span exactly where there is a
/// root; where the rest is in range too, the page keeps its layout, with one more series where it is the
/// first record of none.
pub fn set_record(bytes: &mut [u8], number: u8, series: &Record)
    requires whole { IsBlock bytes.old }
    requires number { number < 32 }
    requires named { length series.now.name.now ≤ 31 }
    requires few { series.now.slots ≤ MOST_SLOTS }
    requires rooted { (series.now.span ≡ None) ↔ (series.now.root ≡ 0) }
    ensures whole { IsBlock bytes.new }
    ensures entry { entry_at bytes.new number ≡ entry_of series.now }
    ensures others { (i : ℕ) → i < 32 → i ≢ number → record_bytes bytes.new i ≡ record_bytes bytes.old i }
    ensures rest { (k : ℕ) → (k < 8 + 96 * number) ⊎ (104 + 96 * number ≤ k) → slice_index bytes.new k ≡ slice_index bytes.old k }
    ensures set { (fresh : ℕ) → IsEntry fresh (entry_of series.now) → HasRecord fresh bytes.new number }
    ensures kept { (count fresh : ℕ) → number < count → count ≤ 32 → IsEntry fresh (entry_of series.now) → KeepsLayout count fresh bytes.old
        → KeepsLayout count fresh bytes.new }
    ensures added { (fresh : ℕ) → IsEntry fresh (entry_of series.now) → KeepsLayout number fresh bytes.old
        → KeepsLayout (number + 1) fresh bytes.new }
{
    put(
        bytes,
        RECORDS + RECORD * usize::from(number),
        &spelling(series),
    );
}
