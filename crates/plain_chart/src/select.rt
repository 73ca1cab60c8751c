ghost use Rattle.std.specs.Prelude.{◌≡◌, ◌<◌, IfSome};
ghost use Rattle.chart_grid.specs.Projection.{InWindow};
ghost use Rattle.plain_chart.specs.Samples.{kept_at, in_window, IsSeries};
ghost use Rattle.chart_grid.specs.Slots.{slot_time};

use crate::Sample;
use chart_grid::{Axis, Grid};
use whole_number::slot_times::{slot_time, slots_stand_in_time};

/// The sample of a slot, where it holds a value and its time lies in the window.
pub fn sample_at(grid: Grid, axis: Axis, slot: usize, stored: Option<i64>) -> Option<Sample>
    requires series { IsSeries axis }
    requires slot { slot < axis.slots }
    ensures value { result ≡ kept_at grid axis (slot, stored) }
    ensures window { IfSome result (λ sample. InWindow grid sample.time) }
{
    match stored {
        None => None,
        Some(value) => {
            let time = time_of(axis, slot);
            if is_in_window(grid, time) {
                Some(Sample { time, value })
            } else {
                None
            }
        }
    }
}

/// The time of a slot: `start + slot * step`.
pub fn time_of(axis: Axis, slot: usize) -> i64
    requires series { IsSeries axis }
    requires slot { slot < axis.slots }
    ensures { result ≡ slot_time axis slot }
{
    slots_stand_in_time();
    slot_time(axis.start, axis.step, slot as u64)
}

/// Whether the time lies in the window.
fn is_in_window(grid: Grid, time: i64) -> bool
    ensures { result ≡ in_window grid time }
{
    grid.t0() <= time && time < grid.t1()
}
