//! What of a page first breaks its rule.
ghost use Rattle.std.specs.Prelude.{◌≡◌, ◌≤◌, ◌<◌, ℕ, length, MatchOption};
ghost use Rattle.block_disk.specs.Blocks.{IsBlock};
ghost use Rattle.catalog_page.specs.Layout.{IsRecord, IsFirstBadField, HasRecord, IsFirstBadRecord, IsUnused, IsFirstUsed};

use crate::errors::BadField;
use crate::fields::bytes_of;
use crate::layout::{MOST_RECORDS, USED};
use crate::rules::{
    has_length, has_levels, has_max, has_min, has_name, has_root, has_slots, has_start, has_step,
    is_spare, is_unused,
};
use series_book::limits::GREATEST_SCALE;

/// The first field of a record that breaks its rule.
pub(crate) fn bad_field(bytes: &[u8], fresh: u32) -> Option<BadField>
    requires whole { length bytes.now ≡ 96 }
    ensures { MatchOption result (IsRecord fresh bytes.now) (λ field. IsFirstBadField field fresh bytes.now) }
{
    if bytes[0] != USED {
        return Some(BadField::Used);
    }
    if !has_length(bytes) {
        return Some(BadField::Length);
    }
    if bytes[2] > GREATEST_SCALE {
        return Some(BadField::Scale);
    }
    if !has_name(bytes) {
        return Some(BadField::Name);
    }
    if !has_step(bytes) {
        return Some(BadField::Step);
    }
    if !has_start(bytes) {
        return Some(BadField::Start);
    }
    if !has_slots(bytes) {
        return Some(BadField::Slots);
    }
    if !has_root(bytes, fresh) {
        return Some(BadField::Root);
    }
    if !has_min(bytes) {
        return Some(BadField::Min);
    }
    if !has_max(bytes) {
        return Some(BadField::Max);
    }
    if !has_levels(bytes) {
        return Some(BadField::Levels);
    }
    if !is_spare(bytes) {
        return Some(BadField::Spare);
    }
    None
}

/// The first record of a series that breaks a rule, with its first field that does.
pub(crate) fn bad_record(page: &[u8], count: u8, fresh: u32) -> Option<(u8, BadField)>
    requires whole { IsBlock page.now }
    requires few { count ≤ 32 }
    ensures { MatchOption result ((i : ℕ) → i < count
        → HasRecord fresh page.now i) (λ bad. IsFirstBadRecord bad.0 bad.1 count fresh page.now) }
{
    for number in 0..count {
        if let Some(field) = bad_field(bytes_of(page, number), fresh) {
            return Some((number, field));
        }
    }
    None
}

/// The first record behind those of the series that isn't all 0.
pub(crate) fn used_record(page: &[u8], count: u8) -> Option<u8>
    requires whole { IsBlock page.now }
    requires few { count ≤ 32 }
    ensures { MatchOption result ((i : ℕ) → count ≤ i → i < 32 → IsUnused page.now i) (λ number. IsFirstUsed number count page.now) }
{
    for number in count..MOST_RECORDS {
        if !is_unused(page, number) {
            return Some(number);
        }
    }
    None
}
