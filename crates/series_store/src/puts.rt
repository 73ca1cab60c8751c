//! How many pages an edit may put into a transaction, before it is staged.
ghost use Rattle.std.specs.Prelude.{◌≡◌, ◌≤◌, ◌<◌, ◌+◌, ◌-◌, ◌/◌, ◌^◌, ◌⊎◌, ℕ, None, false, min, max, length, IfNone, IfSome, IsTrue};
ghost use Rattle.om3_coeff.specs.Keys.{page_levels as levels_of};
ghost use Rattle.path_repair.specs.Costs.{touch};
ghost use Rattle.series_book.specs.Edits.{IsEdit};
ghost use Rattle.series_book.specs.declared.limits.TheConstants.{MOST_CLEARED, MOST_SLOTS, MOST_VALUES};
ghost use Rattle.series_catalog.specs.Catalogs.{place_of as id_of};
ghost use Rattle.series_catalog.specs.Shown.{series_in};
ghost use Rattle.series_store.specs.Staging as stages;
ghost use Rattle.tree_walk.specs.declared.tree.Tree.{Tree};

use om3_coeff::page_levels;
use series_book::checks::place_of;
use series_book::limits::{MOST_CLEARED, MOST_SLOTS, MOST_VALUES};
use series_book::{Axis, Edit, Name, Values};
use series_catalog::Catalog;

/// A transaction has room for 64 pages.
const MOST_HELD: u64 = 64;

/// No edit puts more pages: a clear of 4,096 slots in a tree of five levels puts 33, two of each level above but the last, the
/// root and the page of the record.
const MOST_PUTS: u64 = 41;

/// How many ranges of 2^bits slots lie from that of the first slot to that of the last, but one.
fn spread(first: u64, last: u64, bits: u32) -> u64
    requires order { first ≤ last }
    requires few { bits ≤ 35 }
    ensures between { result ≡ last / 2 ^ bits - first / 2 ^ bits }
    ensures less { result ≤ last }
{
    (last >> bits) - (first >> bits)
}

/// How many pages the change of the slots from a first to a last one puts, in the tree of so many slots and for its record.
fn tree_puts(slots: u64, first: u64, last: u64) -> u64
    requires order { first ≤ last }
    requires within { last < MOST_SLOTS }
    requires few { slots ≤ MOST_SLOTS }
    ensures { 1 + touch first (last + 1) (levels_of slots) (levels_of (max slots (last + 1))) 0 ≤ result }
{
    let levels = page_levels(slots.max(last + 1));
    let new_levels = levels - page_levels(slots);
    let low = spread(first, last, 7) + spread(first, last, 14) + spread(first, last, 21);
    let high = spread(first, last, 28) + spread(first, last, 35);
    1 + u64::from(levels) + u64::from(new_levels) + low + high
}

/// How many pages a change of so many slots of a series puts at most.
fn range_puts(slots: u64, first: u64, count: u64) -> u64
    requires some { 0 < count }
    requires short { (count ≤ MOST_VALUES) ⊎ ((count ≤ MOST_CLEARED) × (first + count ≤ slots)) }
    requires within { first + count ≤ MOST_SLOTS }
    requires few { slots ≤ MOST_SLOTS }
    ensures puts { (tree : Tree) → tree.slots ≡ slots → stages.puts_in tree first (first + count) ≤ result }
    ensures few { result ≤ 41 }
{
    tree_puts(slots, first, first + count - 1).min(MOST_PUTS)
}

/// The same of values that are given to slots; the edit is refused where there are too many.
fn run_puts(axis: Axis, place: u128, values: &Values) -> u64
    requires some { 0 < length values.now }
    requires few { axis.slots ≤ MOST_SLOTS }
    ensures puts { (tree : Tree) → tree.slots ≡ axis.slots → length values.now ≤ MOST_VALUES → place + length values.now ≤ MOST_SLOTS
        → stages.puts_in tree place (place + length values.now) ≤ result }
    ensures few { result ≤ 41 }
{
    let count = values.as_slice().len();
    if count > MOST_VALUES || place > u128::from(MOST_SLOTS) - count as u128 {
        return 1;
    }
    range_puts(axis.slots, place as u64, count as u64)
}

/// The same of a clear; nothing is staged where none of the slots is there.
fn clear_puts(axis: Axis, place: u128, count: u64) -> u64
    requires few { axis.slots ≤ MOST_SLOTS }
    ensures puts { (tree : Tree) → tree.slots ≡ axis.slots → 0 < count → count ≤ MOST_CLEARED → place < axis.slots
        → stages.puts_in tree place (min (place + count) axis.slots) ≤ result }
    ensures few { result ≤ 41 }
{
    if count == 0 || count > MOST_CLEARED || place >= u128::from(axis.slots) {
        return 1;
    }
    let first = place as u64;
    let end = (first + count).min(axis.slots);
    range_puts(axis.slots, first, end - first)
}

/// Where the slots of the series of this name stand in time.
fn axis_of(catalog: &Catalog, name: &Name) -> Option<Axis>
    requires fit { stages.AreInRange (series_in catalog.now) }
    ensures found { IfSome result (λ axis. stages.IsAxisIn (series_in catalog.now) name.now axis) }
    ensures unknown { IfNone result (id_of name.now (series_in catalog.now) ≡ None) }
{
    let Some(id) = catalog.find(name) else {
        return None;
    };
    Some(catalog.series(id).axis())
}

/// The most pages that staging an edit puts into a transaction.
fn most_puts(catalog: &Catalog, edit: &Edit) -> u64
    requires fit { stages.AreInRange (series_in catalog.now) }
    requires is_edit { IsEdit edit.now }
    ensures room { (pages : ℕ) → pages + result ≤ 64 → stages.HasRoomFor pages (series_in catalog.now) edit.now }
    ensures few { result ≤ 41 }
{
    match edit {
        Edit::Create { .. } => 1,
        Edit::Append { name, values } => match axis_of(catalog, name) {
            Some(axis) => run_puts(axis, u128::from(axis.slots), values),
            None => 1,
        },
        Edit::Set { name, time, values } => match axis_of(catalog, name) {
            Some(axis) => run_puts(axis, place_of(axis, *time), values),
            None => 1,
        },
        Edit::Clear { name, time, count } => match axis_of(catalog, name) {
            Some(axis) => clear_puts(axis, place_of(axis, *time), *count),
            None => 1,
        },
    }
}

/// Whether an edit isn't staged behind so many pages, since it might put more than there is room for.
pub(crate) fn is_full(held: usize, catalog: &Catalog, edit: &Edit) -> bool
    requires few { held ≤ 64 }
    requires fit { stages.AreInRange (series_in catalog.now) }
    requires is_edit { IsEdit edit.now }
    ensures full { IsTrue result → 22 < held }
    ensures room { result ≡ false → stages.HasRoomFor held (series_in catalog.now) edit.now }
{
    held as u64 + most_puts(catalog, edit) > MOST_HELD
}
