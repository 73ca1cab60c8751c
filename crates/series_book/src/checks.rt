//! Which refusal of an edit stands before the pages are counted. The clauses speak of every series with
//! this start, this step and so many slots.
ghost use Rattle.std.specs.Prelude.{◌≡◌, ◌+◌, ◌≤◌, max, length, false, IfNone, MatchOption};
ghost use Rattle.std.specs.List.{list_any};
ghost use Rattle.series_book.specs.declared.limits.TheConstants.{MOST_SLOTS, MOST_CLEARED, MOST_VALUES};
ghost use Rattle.whole_number.specs.SlotTimes.{EndsInTime};
ghost use Rattle.series_book.specs.declared.one_series.Series.{Series};
ghost use Rattle.series_book.specs.Edits.{is_too_large, place_of, distance, overwritten, cleared, appended, set_at, cleared_at, IsOnGrid};
ghost use Rattle.series_book.specs.Edits.{RefusesTime};
ghost use Rattle.series_book.specs.Axes.{IsAxisOf, IsRefusalOf};

use crate::axis::Axis;
use crate::limits::{MOST_CLEARED, MOST_SLOTS, MOST_VALUES};
use crate::refusals::Refusal;
use crate::value_list::Values;
use whole_number::limits::GREATEST_VALUE;
use whole_number::slot_times::ends_in_time;

/// The refusal of an append that stands before the pages are counted.
#[tactic(auto, unfolding(crate::specs::Edits::appended))]
pub fn append_refusal(axis: Axis, values: &Values) -> Option<Refusal>
    requires slots { axis.slots ≤ MOST_SLOTS }
    ensures refusal { (series : Series) → IsAxisOf series axis
        → IsRefusalOf (appended series values.now) (overwritten series.slots (length series.slots) values.now) result }
    ensures in_range { IfNone result (list_any is_too_large values.now ≡ false) }
    ensures few { IfNone result (length values.now ≤ MOST_VALUES) }
    ensures room { IfNone result (axis.slots + length values.now ≤ MOST_SLOTS) }
    ensures last { IfNone result (EndsInTime axis.start axis.step (axis.slots + length values.now)) }
{
    if has_too_large(values.as_slice()) {
        return Some(Refusal::ValueTooLarge);
    }
    if values.as_slice().len() > MOST_VALUES {
        return Some(Refusal::RangeTooLong);
    }
    let slots = axis.slots + values.as_slice().len() as u64;
    if slots > MOST_SLOTS {
        return Some(Refusal::SeriesFull);
    }
    if !ends_in_time(axis.start, axis.step, slots) {
        return Some(Refusal::SeriesFull);
    }
    None
}

/// The refusal of a set that stands before the pages are counted.
#[tactic(auto, unfolding(crate::specs::Edits::set_at))]
pub fn set_refusal(axis: Axis, time: i128, values: &Values) -> Option<Refusal>
    requires slots { axis.slots ≤ MOST_SLOTS }
    requires step { 1 ≤ axis.step }
    ensures refusal { (series : Series) → IsAxisOf series axis
        → IsRefusalOf (set_at series time values.now) (overwritten series.slots (place_of series time) values.now) result }
    ensures in_range { IfNone result (list_any is_too_large values.now ≡ false) }
    ensures few { IfNone result (length values.now ≤ MOST_VALUES) }
    ensures room { (series : Series) → IsAxisOf series axis → IfNone result (place_of series time + length values.now ≤ MOST_SLOTS) }
    ensures last { (series : Series) → IsAxisOf series axis
        → IfNone result (EndsInTime axis.start axis.step (max axis.slots (place_of series time + length values.now))) }
{
    if let Some(refusal) = time_refusal(axis, time) {
        return Some(refusal);
    }
    if has_too_large(values.as_slice()) {
        return Some(Refusal::ValueTooLarge);
    }
    let count = values.as_slice().len();
    if count > MOST_VALUES {
        return Some(Refusal::RangeTooLong);
    }
    let place = place_of(axis, time);
    if place > u128::from(MOST_SLOTS) - count as u128 {
        return Some(Refusal::SeriesFull);
    }
    let slots = axis.slots.max(place as u64 + count as u64);
    if !ends_in_time(axis.start, axis.step, slots) {
        return Some(Refusal::SeriesFull);
    }
    None
}

/// The refusal of a clear.
#[tactic(auto, unfolding(crate::specs::Edits::cleared_at))]
pub fn clear_refusal(axis: Axis, time: i128, count: u64) -> Option<Refusal>
    requires { 1 ≤ axis.step }
    ensures refusal { (series : Series) → IsAxisOf series axis
        → IsRefusalOf (cleared_at series time count) (cleared series.slots (place_of series time) count) result }
    ensures few { IfNone result (count ≤ MOST_CLEARED) }
{
    if let Some(refusal) = time_refusal(axis, time) {
        return Some(refusal);
    }
    if count > MOST_CLEARED {
        return Some(Refusal::RangeTooLong);
    }
    None
}

/// The refusal of a time that is no slot's.
fn time_refusal(axis: Axis, time: i128) -> Option<Refusal>
    requires { 1 ≤ axis.step }
    ensures { (series : Series) → IsAxisOf series axis → MatchOption result (IsOnGrid series time) (RefusesTime series time) }
{
    if distance(axis, time) % u128::from(axis.step) != 0 {
        return Some(Refusal::OffGrid);
    }
    if time < i128::from(axis.start) {
        return Some(Refusal::BeforeStart);
    }
    None
}

/// The slot at a time of the grid that isn't before the start.
pub fn place_of(axis: Axis, time: i128) -> u128
    requires { 1 ≤ axis.step }
    ensures { (series : Series) → IsAxisOf series axis → result ≡ place_of series time }
{
    distance(axis, time) / u128::from(axis.step)
}

/// How far a time is from the start.
fn distance(axis: Axis, time: i128) -> u128
    ensures { (series : Series) → IsAxisOf series axis → result ≡ distance series time }
{
    time.abs_diff(i128::from(axis.start))
}

/// Whether a value passes 10^18 in size.
fn has_too_large(values: &[Option<i128>]) -> bool
    ensures { result ≡ list_any is_too_large values.now }
{
    values.iter().any(|value| is_too_large(*value))
}

/// Whether this value passes 10^18 in size.
fn is_too_large(value: Option<i128>) -> bool
    ensures { result ≡ is_too_large value }
{
    match value {
        Some(value) => value.unsigned_abs() > u128::from(GREATEST_VALUE),
        None => false,
    }
}
