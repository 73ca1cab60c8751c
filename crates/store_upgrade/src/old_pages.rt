//! Pages of version 1, told by their bytes.
ghost use Rattle.std.specs.Prelude.{◌≡◌, ◌<◌, ◌↔◌, length, IsTrue};
ghost use Rattle.block_disk.specs.Blocks.{IsBlock};
ghost use Rattle.catalog_page.specs.Fields.{record_bytes, slots_at};
ghost use Rattle.store_upgrade.specs.OldStores.{has_old_magic, HasOldRecord, KeepsOldRules};

use crate::layout::{
    LEVELS, MOST_OLD_SLOTS, MOST_RECORDS, OLD_KIND, OLD_MAGIC, RECORD, RECORDS, SLOTS,
};
use byteorder::{BigEndian, ByteOrder};

/// Whether page 0 begins with the old magic.
#[tactic(auto, unfolding(crate::specs::OldStores::has_old_magic))]
pub(crate) fn is_old_first(page: &[u8]) -> bool
    ensures { result ≡ has_old_magic page.now }
{
    page.starts_with(&OLD_MAGIC)
}

/// The bytes of a record of a page.
pub(crate) fn record_of(page: &[u8], number: u8) -> &[u8]
    requires whole { IsBlock page.now }
    requires number { number < 32 }
    ensures bytes { result.now ≡ record_bytes page.now number }
    ensures whole { length result.now ≡ 96 }
{
    let at = RECORDS + RECORD * usize::from(number);
    &page[at..at + RECORD]
}

/// The number of slots that a record says.
pub(crate) fn slots_of(bytes: &[u8]) -> u64
    requires { length bytes.now ≡ 96 }
    ensures { result ≡ slots_at bytes.now }
{
    BigEndian::read_u64(&bytes[SLOTS..])
}

/// Whether a record keeps the old rules, where it is in use.
fn is_old_record(page: &[u8], number: u8) -> bool
    requires whole { IsBlock page.now }
    requires number { number < 32 }
    ensures { IsTrue result ↔ HasOldRecord page.now number }
{
    let bytes = record_of(page, number);
    bytes[0] == 0 || bytes[LEVELS] == 0 && slots_of(bytes) <= MOST_OLD_SLOTS
}

/// Whether a page of the catalog keeps the old rules.
pub(crate) fn is_old_page(page: &[u8]) -> bool
    requires { IsBlock page.now }
    ensures { IsTrue result ↔ KeepsOldRules page.now }
{
    if page[0] != OLD_KIND {
        return false;
    }
    for number in 0..MOST_RECORDS {
        if !is_old_record(page, number) {
            return false;
        }
    }
    true
}
