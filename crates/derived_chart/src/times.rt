//! Slots, times and values in the range of a series.
ghost use Rattle.std.specs.Prelude.{◌≡◌, ◌<◌, ◌≤◌, ◌*◌, ◌^◌, pos, neg_ℤ, unsigned_abs};
ghost use Rattle.chart_grid.specs.Slots.{AreSlotsBefore, slot_time};
ghost use Rattle.whole_number.specs.Range.{IsTime, IsValue};

use chart_grid::laws::borders_part_columns;
use chart_grid::{Axis, Grid};

const GREATEST_VALUE: u64 = 1_000_000_000_000_000_000;

const GREATEST_TIME: u64 = 2_000_000_000_000_000_000;

/// The slots of a window: from the first on and below the second.
pub(crate) fn window_slots(grid: Grid, axis: Axis) -> (u64, u64)
    requires { 0 < axis.step }
    ensures from { AreSlotsBefore axis grid.t0 result.0 }
    ensures to { AreSlotsBefore axis grid.t1 result.1 }
    ensures order { result.0 ≤ result.1 }
    ensures within { result.1 ≤ axis.slots }
{
    borders_part_columns();
    let (from, _) = grid.slot_range(axis, 0);
    let (_, to) = grid.slot_range(axis, grid.w() - 1);
    (from, to)
}

/// The time of a slot, which is one that a window can have.
pub(crate) fn time_of(axis: Axis, slot: u64) -> i64
    ensures { IsTime (slot_time axis slot) → result ≡ slot_time axis slot }
{
    let time = far_time(axis, slot);
    near(&time, GREATEST_TIME)
}

/// The time of a slot, however far it is.
fn far_time(axis: Axis, slot: u64) -> i128
    ensures { result ≡ slot_time axis slot }
{
    i128::from(axis.start) + i128::from(slot) * i128::from(axis.step)
}

/// A sum that a series could hold.
pub(crate) fn value_of(sum: &i128) -> i64
    ensures same { IsValue sum.now → result ≡ sum.now }
    ensures value { IsValue result }
{
    near(sum, GREATEST_VALUE)
}

/// The number, or the nearest one that is at most this in size.
fn near(number: &i128, most: u64) -> i64
    requires { most ≤ 2 * 10 ^ 18 }
    ensures same { unsigned_abs number.now ≤ most → result ≡ number.now }
    ensures size { unsigned_abs result ≤ most }
{
    let number = *number;
    if number.unsigned_abs() <= u128::from(most) {
        return short(number);
    }
    if number < 0 { below(most) } else { above(most) }
}

fn short(number: i128) -> i64
    requires { unsigned_abs number ≤ 2 * 10 ^ 18 }
    ensures { result ≡ number }
{
    number as i64
}

/// The number n.
pub(crate) fn above(n: u64) -> i64
    requires { n ≤ 2 * 10 ^ 18 }
    ensures { result ≡ pos n }
{
    n as i64
}

/// The number -n.
pub(crate) fn below(n: u64) -> i64
    requires { n ≤ 2 * 10 ^ 18 }
    ensures { result ≡ neg_ℤ (pos n) }
{
    -above(n)
}
