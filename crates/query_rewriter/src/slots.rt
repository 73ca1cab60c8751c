ghost use Rattle.std.specs.Prelude.{◌≡◌, ◌<◌, ◌≤◌, ◌≤ℤ◌};
ghost use Rattle.chart_grid.specs.Projection.{InWindow};
ghost use Rattle.chart_grid.specs.Slots.{slot_time, AreSlotsBefore};
ghost use Rattle.value_filter.specs.Steps.{expression_of};
ghost use Rattle.query_rewriter.specs.Scans.{AreShown, Says};

use chart_grid::laws::borders_part_columns;
use chart_grid::{Axis, Grid, later};
use value_filter::laws::answers_hold_everywhere;
use value_filter::{BoxAnswer, Filter};

/// The slots that a window shows: the first of them, and the slot behind the last. Both are equal where
/// it shows none.
pub(crate) fn window_slots(axis: Axis, grid: Grid) -> (u64, u64)
    requires { 0 < axis.step }
    ensures from { AreSlotsBefore axis grid.t0 result.0 }
    ensures end { AreSlotsBefore axis grid.t1 result.1 }
    ensures order { result.0 ≤ result.1 }
{
    borders_part_columns();
    let (from, _) = grid.slot_range(axis, 0);
    let (_, end) = grid.slot_range(axis, grid.w() - 1);
    (from, end)
}

/// The time of a slot that a window shows.
pub fn time_of(axis: Axis, grid: Grid, slot: u64) -> i64
    requires { InWindow grid (slot_time axis slot) }
    ensures { result ≡ slot_time axis slot }
{
    let _window = grid.t1();
    later(axis.start, slot * u64::from(axis.step))
}

/// What a filter says of all points at these slots, of which there is one, with these values: the slots
/// from the first number on and below the second one, all of them in the window, and the values from
/// the first number to the second one. `All` and `Nothing` say that it holds of all of them, or of
/// none.
pub fn on_slots(
    filter: &Filter,
    axis: Axis,
    grid: Grid,
    slots: (u64, u64),
    values: (i64, i64),
) -> BoxAnswer
    requires step { 0 < axis.step }
    requires some { slots.0 < slots.1 }
    requires shown { AreShown axis grid slots.0 slots.1 }
    requires values { values.0 ≤ℤ values.1 }
    ensures { Says (expression_of filter.now) axis slots values result }
{
    answers_hold_everywhere();
    let from = time_of(axis, grid, slots.0);
    let to = time_of(axis, grid, slots.1 - 1);
    filter.on_box((from, to), values)
}
