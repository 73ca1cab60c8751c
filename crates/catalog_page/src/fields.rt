//! The fields of a record, read.
ghost use Rattle.std.specs.Prelude.{◌≡◌, ◌≤◌, ◌<◌, ◌+◌, length};
ghost use Rattle.block_disk.specs.Blocks.{IsBlock};
ghost use Rattle.node_page.specs.Fields.{number_at, signed_at};
ghost use Rattle.catalog_page.specs.Fields.{record_bytes, length_at, name_at};
ghost use Rattle.catalog_page.specs.Entries.{span_in, entry_in, entry_of};

use crate::layout::{MAX, MIN, NAME, RECORD, RECORDS, ROOT, SLOTS, START, STEP};
use crate::series_record::Record;
use byteorder::{BigEndian, ByteOrder};
use om3_coeff::Span;

/// The bytes of a record of a page.
pub(crate) fn bytes_of(page: &[u8], number: u8) -> &[u8]
    requires whole { IsBlock page.now }
    requires number { number < 32 }
    ensures bytes { result.now ≡ record_bytes page.now number }
    ensures whole { length result.now ≡ 96 }
{
    let at = RECORDS + RECORD * usize::from(number);
    &page[at..at + RECORD]
}

/// The name.
pub(crate) fn name_of(bytes: &[u8]) -> &[u8]
    requires whole { length bytes.now ≡ 96 }
    requires named { length_at bytes.now ≤ 31 }
    ensures name { result.now ≡ name_at bytes.now }
    ensures length { length result.now ≡ length_at bytes.now }
{
    &bytes[NAME..NAME + usize::from(bytes[1])]
}

/// The number in the four bytes from an offset on.
pub(crate) fn short_at(bytes: &[u8], offset: usize) -> u32
    requires whole { length bytes.now ≡ 96 }
    requires within { offset + 4 ≤ 96 }
    ensures { result ≡ number_at bytes.now 4 offset }
{
    BigEndian::read_u32(&bytes[offset..])
}

/// The number in the eight bytes from an offset on.
pub(crate) fn long_at(bytes: &[u8], offset: usize) -> u64
    requires whole { length bytes.now ≡ 96 }
    requires within { offset + 8 ≤ 96 }
    ensures { result ≡ number_at bytes.now 8 offset }
{
    BigEndian::read_u64(&bytes[offset..])
}

/// The signed number in the eight bytes from an offset on.
pub(crate) fn value_at(bytes: &[u8], offset: usize) -> i64
    requires whole { length bytes.now ≡ 96 }
    requires within { offset + 8 ≤ 96 }
    ensures { result ≡ signed_at bytes.now offset }
{
    BigEndian::read_i64(&bytes[offset..])
}

/// The span of the stored values.
fn span_of(bytes: &[u8]) -> Option<Span>
    requires whole { length bytes.now ≡ 96 }
    ensures { result ≡ span_in bytes.now }
{
    if short_at(bytes, ROOT) == 0 {
        return None;
    }
    Some(Span {
        min: value_at(bytes, MIN),
        max: value_at(bytes, MAX),
    })
}

/// What the bytes of a record say.
#[tactic(auto, unfolding(crate::specs::Entries::entry_in))]
pub(crate) fn record_of(bytes: &[u8]) -> Record
    requires whole { length bytes.now ≡ 96 }
    requires named { length_at bytes.now ≤ 31 }
    ensures { entry_of result ≡ entry_in bytes.now }
{
    Record {
        name: name_of(bytes),
        scale: bytes[2],
        step: short_at(bytes, STEP),
        start: value_at(bytes, START),
        slots: long_at(bytes, SLOTS),
        root: short_at(bytes, ROOT),
        span: span_of(bytes),
    }
}
