//! The next clear of a rule that frees pages.
ghost use Rattle.std.specs.Prelude.{◌≡◌, ◌<◌, ◌≤◌, ◌+◌, ◌*◌, ◌/◌, Option, Some, length, IfOk, IfErr, IfSome, ⊤};
ghost use Rattle.chart_world.specs.Faults.{CountsFault, fault_in};
ghost use Rattle.series_book.specs.Edits.{IsEdit};
ghost use Rattle.series_book.specs.declared.limits.TheConstants.{MOST_SERIES};
ghost use Rattle.series_store.specs.Shown as shown;
ghost use Rattle.retention.specs.declared.rule.Rule.TheVariants.{Free};
ghost use Rattle.retention.specs.Drops.{IsOldest};
ghost use Rattle.retention.specs.Damage.{Asks, BlamesSo, IsBadAt, IsBadForLook};
ghost use Rattle.retention.specs.Faults.{sweep_fault};
ghost use Rattle.retention.specs.Moving.{LooksOnly};
ghost use Rattle.retention.specs.Sweeping.{AreKept, IsKept, IsNextOrNone, IsOutside, ReadFails};
ghost use Rattle.retention.specs.Sweeps.{Found, clear_page, found_at, older, oldest};

use crate::asking::{first_stored, selected};
use crate::clears::{clear_of, slot_time};
use crate::oldest::Oldest;
use crate::sweep_error::SweepError;
use gate_pages::Pages;
use series_book::Edit;
use series_book::limits::PAGE_SLOTS;
use series_store::Store;

/// The first stored slot of the series of this id.
fn first_of<P: Pages>(store: &mut Store<P>, id: u16) -> Result<Option<Oldest>, SweepError>
    requires sound { shown.IsSound store.old }
    requires there { id < length (shown.catalog store.old) }
    ensures first { shown.ForSeries store.old id (λ total book series. IfOk result (AreKept (found_at id (Some series)))) }
    ensures outside { shown.ForSeries store.old id (λ total book series. IfErr result IsOutside) }
    ensures cause { IfErr result (λ e. ReadFails e store.old store.new) }
    ensures blames { IfErr result (λ e. BlamesSo (IsBadAt id) e store.new) }
    ensures faults { CountsFault (fault_in sweep_fault result) (shown.view store.old) (shown.view store.new) }
    ensures reads { (shown.view store.new).reads ≤ (shown.view store.old).reads + 105 }
    ensures looks { LooksOnly store.old store.new }
{
    let axis = selected(store, id);
    let found = match first_stored(store, axis.slots) {
        Ok(found) => found,
        Err(error) => return Err(error),
    };
    let Some((slot, _)) = found else {
        return Ok(None);
    };
    Ok(Some(Oldest { id, axis, slot }))
}

/// The older of two, and the first where both have one time.
fn older(one: Option<Oldest>, other: Option<Oldest>) -> Option<Oldest>
    ensures { (first second : Option Found) → AreKept first one → AreKept second other → AreKept (older first second) result }
{
    let Some(first) = one else {
        return other;
    };
    let Some(second) = other else {
        return one;
    };
    if slot_time(second.axis, second.slot) < slot_time(first.axis, first.slot) {
        return other;
    }
    one
}

/// The oldest stored slot of all series.
fn oldest<P: Pages>(store: &mut Store<P>) -> Result<Option<Oldest>, SweepError>
    requires sound { shown.IsSound store.old }
    ensures oldest { shown.ForBook store.old (λ total book. IfOk result (AreKept (oldest book))) }
    ensures outside { shown.ForBook store.old (λ total book. IfErr result IsOutside) }
    ensures cause { IfErr result (λ e. ReadFails e store.old store.new) }
    ensures blames { IfErr result (λ e. BlamesSo (IsBadForLook (λ name. ⊤)) e store.new) }
    ensures faults { CountsFault (fault_in sweep_fault result) (shown.view store.old) (shown.view store.new) }
    ensures reads { (shown.view store.new).reads ≤ (shown.view store.old).reads + 105 * MOST_SERIES }
    ensures looks { LooksOnly store.old store.new }
{
    let count = store.len() as u16;
    let mut best = None;
    for id in 0..count {
        let found = match first_of(store, id) {
            Ok(found) => found,
            Err(error) => return Err(error),
        };
        best = older(best, found);
    }
    Ok(best)
}

/// The clear of the aligned range of 128 slots that holds a stored slot.
fn clear_page<P: Pages>(store: &Store<P>, found: Oldest) -> Result<Option<Edit>, SweepError>
    requires sound { shown.IsSound store.now }
    ensures clear { shown.ForBook store.now (λ total book. (it : Found) → IsOldest book it → IsKept it found
        → IfOk result (λ next. next ≡ Some (clear_page it))) }
    ensures is_edit { IfOk result (λ next. IfSome next IsEdit) }
    ensures err { IfErr result (λ e. e ≡ SweepError.NoMemory) }
{
    let Some(series) = store.series_at(found.id) else {
        return Ok(None);
    };
    let first = found.slot / PAGE_SLOTS * PAGE_SLOTS;
    let end = (first + PAGE_SLOTS).min(found.axis.slots);
    let clear = clear_of(series.name, found.axis, first, end)?;
    Ok(Some(clear))
}

/// The next clear of the rule that frees so many pages; none where it makes none.
pub(crate) fn next_free<P: Pages>(
    store: &mut Store<P>,
    pages: u64,
) -> Result<Option<Edit>, SweepError>
    requires sound { shown.IsSound store.old }
    ensures next { shown.ForBook store.old (λ total book. IfOk result (IsNextOrNone total book (Free pages))) }
    ensures is_edit { IfOk result (λ next. IfSome next IsEdit) }
    ensures outside { shown.ForBook store.old (λ total book. IfErr result IsOutside) }
    ensures cause { IfErr result (λ e. ReadFails e store.old store.new) }
    ensures blames { IfErr result (λ e. BlamesSo (IsBadForLook (Asks (Free pages))) e store.new) }
    ensures faults { CountsFault (fault_in sweep_fault result) (shown.view store.old) (shown.view store.new) }
    ensures reads { (shown.view store.new).reads ≤ (shown.view store.old).reads + 105 * MOST_SERIES }
    ensures looks { LooksOnly store.old store.new }
{
    let free = store.total() - store.used();
    if pages <= u64::from(free) {
        return Ok(None);
    }
    let found = match oldest(store) {
        Ok(found) => found,
        Err(error) => return Err(error),
    };
    let Some(found) = found else {
        return Ok(None);
    };
    clear_page(store, found)
}
