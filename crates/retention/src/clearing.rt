//! The next clear of a rule that names a series.
ghost use Rattle.std.specs.Prelude.{◌≡◌, ◌≤◌, ◌<◌, ◌+◌, ◌/◌, length, IfOk, IfErr, IfSome};
ghost use Rattle.chart_world.specs.Faults.{CountsFault, fault_in};
ghost use Rattle.series_book.specs.declared.limits.TheConstants.{MOST_SLOTS};
ghost use Rattle.series_book.specs.declared.one_series.Series.{Series};
ghost use Rattle.series_book.specs.Axes.{IsAxisOf};
ghost use Rattle.series_book.specs.Edits.{IsEdit};
ghost use Rattle.series_store.specs.Shown as shown;
ghost use Rattle.retention.specs.Damage.{Asks, BlamesSo, IsBadAt, IsBadForLook};
ghost use Rattle.retention.specs.Faults.{sweep_fault};
ghost use Rattle.retention.specs.Moving.{LooksOnly};
ghost use Rattle.retention.specs.Sweeping.{IsFirstOrNone, IsNextOrNone, IsOutside, ReadFails};
ghost use Rattle.retention.specs.Sweeps.{Names, clear_of, old_slots, range_end, range_first};

use crate::asking::{first_stored, selected};
use crate::clears::{clear_of, old_slots};
use crate::rule::Rule;
use crate::sweep_error::SweepError;
use gate_pages::Pages;
use series_book::limits::MOST_CLEARED;
use series_book::{Axis, Edit, Name};
use series_store::Store;
use std::alloc::AllocError;

/// The clear of the old slots of the aligned range that holds a slot.
fn clear_range(name: &Name, axis: Axis, old: u64, slot: u64) -> Result<Edit, AllocError>
    requires low { slot < old }
    requires few { old ≤ MOST_SLOTS }
    ensures clear { (series : Series) → IsAxisOf series axis
        → IfOk result (λ clear. clear ≡ clear_of name.now series (range_first (slot / 4096)) (range_end old (slot / 4096))) }
    ensures is_edit { IfOk result IsEdit }
{
    let range = slot / MOST_CLEARED;
    let end = ((range + 1) * MOST_CLEARED).min(old);
    clear_of(name, axis, range * MOST_CLEARED, end)
}

/// The clear of the first aligned range in which an old slot of the series of this id is stored.
fn next_of<P: Pages>(
    store: &mut Store<P>,
    id: u16,
    name: &Name,
    rule: &Rule,
) -> Result<Option<Edit>, SweepError>
    requires sound { shown.IsSound store.old }
    requires there { id < length (shown.catalog store.old) }
    ensures first { shown.ForSeries store.old id (λ total book series. IfOk result
        (IsFirstOrNone name.now series (old_slots rule.now series))) }
    ensures is_edit { IfOk result (λ next. IfSome next IsEdit) }
    ensures outside { shown.ForSeries store.old id (λ total book series. IfErr result IsOutside) }
    ensures cause { IfErr result (λ e. ReadFails e store.old store.new) }
    ensures blames { IfErr result (λ e. BlamesSo (IsBadAt id) e store.new) }
    ensures faults { CountsFault (fault_in sweep_fault result) (shown.view store.old) (shown.view store.new) }
    ensures reads { (shown.view store.new).reads ≤ (shown.view store.old).reads + 105 }
    ensures looks { LooksOnly store.old store.new }
{
    let axis = selected(store, id);
    let old = old_slots(axis, rule);
    let found = match first_stored(store, old) {
        Ok(found) => found,
        Err(error) => return Err(error),
    };
    let Some((slot, _)) = found else {
        return Ok(None);
    };
    let clear = clear_range(name, axis, old, slot)?;
    Ok(Some(clear))
}

/// The next clear of a rule that names this series; none where it makes none.
pub(crate) fn next_named<P: Pages>(
    store: &mut Store<P>,
    rule: &Rule,
    name: &Name,
) -> Result<Option<Edit>, SweepError>
    requires sound { shown.IsSound store.old }
    requires named { Names rule.now name.now }
    ensures next { shown.ForBook store.old (λ total book. IfOk result (IsNextOrNone total book rule.now)) }
    ensures is_edit { IfOk result (λ next. IfSome next IsEdit) }
    ensures outside { shown.ForBook store.old (λ total book. IfErr result IsOutside) }
    ensures cause { IfErr result (λ e. ReadFails e store.old store.new) }
    ensures blames { IfErr result (λ e. BlamesSo (IsBadForLook (Asks rule.now)) e store.new) }
    ensures faults { CountsFault (fault_in sweep_fault result) (shown.view store.old) (shown.view store.new) }
    ensures reads { (shown.view store.new).reads ≤ (shown.view store.old).reads + 105 }
    ensures looks { LooksOnly store.old store.new }
{
    let Some(info) = store.series(name) else {
        return Ok(None);
    };
    next_of(store, info.id, name, rule)
}
