//! Two series on one grid.
ghost use Rattle.std.specs.Prelude.{ℤ, ◌*◌, ◌<◌, ◌≤◌, ◌^◌, IfSome, IfNone, unsigned_abs};
ghost use Rattle.derived_chart.specs.Points.{IsShift};
ghost use Rattle.whole_number.specs.Range.{IsValue};

use crate::times::{above, below};
use chart_grid::Axis;

/// How many slots the second series began before the first one: slot i of x has the time of slot i + d of y. Nothing
/// exactly where they are on no common grid: the steps differ, or the starts differ by no multiple of the step.
pub fn shift_between(x: Axis, y: Axis) -> Option<i64>
    requires step { 0 < x.step }
    requires first { IsValue x.start }
    requires second { IsValue y.start }
    ensures shift { IfSome result (IsShift x y) }
    ensures small { IfSome result (λ d. unsigned_abs d ≤ 2 * 10 ^ 18) }
    ensures none { IfNone result ((d : ℤ) → IsShift x y d → ⊥) }
{
    let gap = y.start.abs_diff(x.start);
    let step = u64::from(x.step);
    if y.step != x.step {
        return None;
    }
    if gap % step != 0 {
        return None;
    }
    let slots = gap / step;
    if x.start < y.start {
        Some(below(slots))
    } else {
        Some(above(slots))
    }
}
