//! The stored values of a window.
ghost use Rattle.std.specs.Prelude.{◌≡◌, ◌≢◌, ◌<◌, ◌≤◌, ◌+◌, length, IfOk, IfErr, OnOk};
ghost use Rattle.chart_frames.specs.Frames.{FitsValues};
ghost use Rattle.series_store.specs.Opening.{IsOutside};
ghost use Rattle.series_store.specs.Shown as shown;
ghost use Rattle.series_store.specs.WindowReading.{IsWindowCause};
ghost use Rattle.whole_number.specs.Range.{IsTime, IsValue};
ghost use Rattle.whole_number.specs.SlotTimes.{EndsInTime};
ghost use Rattle.host_reports.specs.Reports.{time_left, values_of};

use crate::runs::frame_runs;
use chart_frames::{RunList, ValueList, ValuesFrame};
use gate_pages::Pages;
use retention::slots_before;
use series_book::Axis;
use series_store::{Store, StoreError, piece_end};
use std::alloc::Global;
use whole_number::slot_times::{slot_time, slots_stand_in_time};

/// The time from which to ask on, where slots from `end` on are left of those below `to`; else 0.
fn time_left(start: i64, step: u32, slots: u64, end: u64, to: u64) -> i64
    requires near { IsValue start }
    requires last { EndsInTime start step slots }
    requires within { to ≤ slots }
    ensures time { result ≡ time_left start step end to }
    ensures far { IsTime result }
{
    if end >= to {
        return 0;
    }
    slots_stand_in_time();
    slot_time(start, step, end)
}

/// The first piece of the stored values of the series of this id from the time `t0` on and before `t1`.
pub fn values_frame<P: Pages>(
    alloc: Global,
    store: &mut Store<P>,
    id: u16,
    t0: i128,
    t1: i128,
) -> Result<ValuesFrame, StoreError>
    requires sound { shown.IsSound store.old }
    requires there { id < length (shown.catalog store.old) }
    ensures frame { shown.ForSeries store.old id (λ total book series. IfOk result (λ frame. frame ≡ values_of id series t0 t1)) }
    ensures stands { shown.ForSeries store.old id (λ total book series. IfErr result IsOutside) }
    // whatever the pages are
    ensures fits { IfOk result FitsValues }
    ensures reads { (shown.view store.new).reads ≤ (shown.view store.old).reads + 36 }
    ensures cause { IfErr result (λ e. IsWindowCause e (shown.IsTold store.old) (shown.numbers store.old) id (shown.view store.old)
        (shown.view store.new)) }
    ensures quiet { OnOk result ((shown.view store.new).faults ≡ (shown.view store.old).faults) }
    ensures quiet_err { IfErr result (λ e. e ≢ StoreError.DiskFault → (shown.view store.new).faults ≡ (shown.view store.old).faults) }
    ensures looks { shown.OnlyLooks store.old store.new }
    ensures catalog { shown.SameCatalog store.old store.new }
    ensures selected { shown.SelectsSame store.old store.new }
{
    let info = store.info(id);
    let axis = Axis {
        start: info.start,
        step: info.step,
        slots: info.slots,
    };
    let from = slots_before(axis, t0);
    let to = slots_before(axis, t1);
    let end = piece_end(from, to);
    let values = store.values(id, from, end)?;
    let Ok(runs) = frame_runs(alloc, &values.runs) else {
        return Err(StoreError::NoMemory);
    };
    Ok(ValuesFrame {
        series: id,
        more: end < to,
        next: time_left(info.start, info.step, info.slots, end, to),
        runs: RunList::from_vec(runs),
        values: ValueList::from_vec(values.stored),
    })
}
