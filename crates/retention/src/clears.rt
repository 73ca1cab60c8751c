//! Slots of a series, and clears of them. The clauses speak of every series with this axis.
ghost use Rattle.std.specs.Prelude.{◌≡◌, ◌≤◌, ◌<◌, ◌<ℤ◌, ◌+◌, ◌*◌, ◌+ℤ◌, pos, IfOk};
ghost use Rattle.series_book.specs.declared.one_series.Series.{Series};
ghost use Rattle.series_book.specs.Axes.{IsAxisOf};
ghost use Rattle.series_book.specs.Edits.{IsEdit, distance};
ghost use Rattle.retention.specs.Sweeps.{clear_of, old_slots, slot_time, slots_before};

use crate::rule::Rule;
use series_book::{Axis, Edit, Name};
use std::alloc::AllocError;

/// How far a time is from the start.
fn distance(axis: Axis, time: i128) -> u128
    ensures far { (series : Series) → IsAxisOf series axis → result ≡ distance series time }
    ensures some { axis.start <ℤ time → 0 < result }
{
    time.abs_diff(i128::from(axis.start))
}

/// How many slots of a series stand before a time.
pub fn slots_before(axis: Axis, time: i128) -> u64
    requires step { 1 ≤ axis.step }
    ensures before { (series : Series) → IsAxisOf series axis → result ≡ slots_before series time }
    ensures few { result ≤ axis.slots }
{
    if time <= i128::from(axis.start) {
        return 0;
    }
    let before = distance(axis, time) - 1;
    let last = before / u128::from(axis.step);
    if last >= u128::from(axis.slots) {
        return axis.slots;
    }
    last as u64 + 1
}

/// How many first slots of a series are old by a rule that names it.
pub(crate) fn old_slots(axis: Axis, rule: &Rule) -> u64
    requires step { 1 ≤ axis.step }
    ensures old { (series : Series) → IsAxisOf series axis → result ≡ old_slots rule.now series }
    ensures few { result ≤ axis.slots }
{
    match rule {
        Rule::Before { time, .. } => slots_before(axis, *time),
        Rule::Last { count, .. } => axis.slots.saturating_sub(*count),
        Rule::Free { .. } => 0,
    }
}

/// The time of a slot.
pub(crate) fn slot_time(axis: Axis, slot: u64) -> i128
    ensures time { result ≡ axis.start +ℤ pos (slot * axis.step) }
    ensures of_series { (series : Series) → IsAxisOf series axis → result ≡ slot_time series slot }
{
    i128::from(axis.start) + i128::from(slot) * i128::from(axis.step)
}

/// The clear of the slots of a series from one on and below another.
pub(crate) fn clear_of(name: &Name, axis: Axis, first: u64, end: u64) -> Result<Edit, AllocError>
    requires order { first ≤ end }
    ensures clear { (series : Series) → IsAxisOf series axis → IfOk result (λ clear. clear ≡ clear_of name.now series first end) }
    ensures is_edit { IfOk result IsEdit }
{
    let name = name.copy()?;
    Ok(Edit::Clear {
        name,
        time: slot_time(axis, first),
        count: end - first,
    })
}
