ghost use Rattle.std.specs.Prelude.{◌<◌, ◌≤◌, IsTrue};
ghost use Rattle.value_filter.specs.Steps.{expression_of};
ghost use Rattle.query_rewriter.specs.Scans.{AreShown, KeepsNone, KeepsAll};

use crate::slots::on_slots;
use chart_grid::{Axis, Grid};
use value_filter::{BoxAnswer, Filter};
use whole_number::limits::GREATEST_VALUE;

const GREATEST: i64 = GREATEST_VALUE as i64;

/// The values that a slot can hold: at most 10^18 in size.
pub(crate) const VALUES: (i64, i64) = (-GREATEST, GREATEST);

/// The slots without those at both ends at which the filter holds of no value.
pub(crate) fn trimmed(filter: &Filter, axis: Axis, grid: Grid, slots: (u64, u64)) -> (u64, u64)
    requires step { 0 < axis.step }
    requires order { slots.0 ≤ slots.1 }
    requires shown { AreShown axis grid slots.0 slots.1 }
    ensures order { result.0 ≤ result.1 }
    ensures from { slots.0 ≤ result.0 }
    ensures end { result.1 ≤ slots.1 }
    ensures front { KeepsNone (expression_of filter.now) axis slots.0 result.0 }
    ensures back { KeepsNone (expression_of filter.now) axis result.1 slots.1 }
{
    let from = past_front(filter, axis, grid, slots);
    let end = before_back(filter, axis, grid, (from, slots.1));
    (from, end)
}

/// Where the slots begin once those are passed at the front at which the filter holds of no value.
/// Blocks of slots are passed, each half as long as the one that was tried before it.
fn past_front(filter: &Filter, axis: Axis, grid: Grid, slots: (u64, u64)) -> u64
    requires step { 0 < axis.step }
    requires order { slots.0 ≤ slots.1 }
    requires shown { AreShown axis grid slots.0 slots.1 }
    ensures from { slots.0 ≤ result }
    ensures end { result ≤ slots.1 }
    ensures none { KeepsNone (expression_of filter.now) axis slots.0 result }
{
    let mut from = slots.0;
    for halvings in 0..64u32 {
        let block = (1u64 << 63) >> halvings;
        if block <= slots.1 - from && holds_nowhere(filter, axis, grid, (from, from + block)) {
            from += block;
        }
    }
    from
}

/// Where the slots end once those are passed at the back.
fn before_back(filter: &Filter, axis: Axis, grid: Grid, slots: (u64, u64)) -> u64
    requires step { 0 < axis.step }
    requires order { slots.0 ≤ slots.1 }
    requires shown { AreShown axis grid slots.0 slots.1 }
    ensures from { slots.0 ≤ result }
    ensures end { result ≤ slots.1 }
    ensures none { KeepsNone (expression_of filter.now) axis result slots.1 }
{
    let mut end = slots.1;
    for halvings in 0..64u32 {
        let block = (1u64 << 63) >> halvings;
        if block <= end - slots.0 && holds_nowhere(filter, axis, grid, (end - block, end)) {
            end -= block;
        }
    }
    end
}

/// Whether the filter holds of no value at any of these slots, as far as its answer on their box says.
fn holds_nowhere(filter: &Filter, axis: Axis, grid: Grid, slots: (u64, u64)) -> bool
    requires step { 0 < axis.step }
    requires shown { AreShown axis grid slots.0 slots.1 }
    ensures { IsTrue result → KeepsNone (expression_of filter.now) axis slots.0 slots.1 }
{
    slots.0 < slots.1 && on_slots(filter, axis, grid, slots, VALUES) == BoxAnswer::Nothing
}

/// Whether the filter holds of every value at each of these slots, as far as its answer says.
pub(crate) fn holds_everywhere(filter: &Filter, axis: Axis, grid: Grid, slots: (u64, u64)) -> bool
    requires step { 0 < axis.step }
    requires shown { AreShown axis grid slots.0 slots.1 }
    ensures { IsTrue result → KeepsAll (expression_of filter.now) axis slots.0 slots.1 }
{
    slots.1 <= slots.0 || on_slots(filter, axis, grid, slots, VALUES) == BoxAnswer::All
}
