//! The first wanted key whose coefficient a client lacks or can't use.
//!
//! Such a key lies above the first or the last slot of some column that isn't known to hold nothing,
//! and what lies above those slots and isn't flat is all that the view wants within the column.

ghost use Rattle.std.specs.Prelude.{◌≡◌, ◌<◌, ◌≤ℤ◌};
ghost use Rattle.view_keys.specs.Wanted.{IsWanted};
ghost use Rattle.chart_client.specs.HeldNodes.{told_view, seen_of};
ghost use Rattle.chart_client.specs.Searching.{IsWantedIn, IsFirstOf, IsEarlier};

use crate::failure::Failure;
use crate::held_nodes::HeldNodes;
use crate::search::{Half, Scope, Side, failure_of, search};
use chart_grid::{Axis, Grid};
use om3_coeff::top_key;
use plain_chart::ValueRange;
use view_keys::comes_before;
use view_keys::laws::flat_keys_hold_flat_keys;

/// The first wanted key, from the top level down and then from left to right, whose coefficient can't
/// be used. It is `None` where there is none.
pub(crate) fn first_failing(
    nodes: &HeldNodes,
    axis: Axis,
    grid: Grid,
    range: ValueRange,
) -> Option<Failure>
    requires fit { (told_view nodes.now).fit }
    requires slots { axis.slots ≡ nodes.now.slots }
    requires step { 0 < axis.step }
    requires order { range.lo ≤ℤ range.hi }
    ensures { IsFirstOf (seen_of nodes.now) nodes.now.slots (IsWanted (seen_of nodes.now) axis grid range.lo range.hi) result }
{
    let mut least = None;
    for column in 0..grid.w() {
        least = earlier(least, first_in_column(nodes, axis, grid, range, column));
    }
    least
}

// The same of the keys that are wanted for one column.
fn first_in_column(
    nodes: &HeldNodes,
    axis: Axis,
    grid: Grid,
    range: ValueRange,
    column: u16,
) -> Option<Failure>
    requires fit { (told_view nodes.now).fit }
    requires slots { axis.slots ≡ nodes.now.slots }
    requires step { 0 < axis.step }
    requires order { range.lo ≤ℤ range.hi }
    requires column { column < grid.w }
    ensures { IsFirstOf (seen_of nodes.now) nodes.now.slots (IsWantedIn (seen_of nodes.now) axis grid range.lo range.hi column) result }
{
    let (from, to) = grid.slot_range(axis, column);
    if from >= to {
        return None;
    }
    flat_keys_hold_flat_keys();
    let scope = Scope {
        from,
        to,
        grid,
        range,
    };
    let top = Half {
        key: top_key(nodes.slots),
        span: nodes.root,
    };
    let first = search(nodes, Side::First, top, scope);
    let last = search(nodes, Side::Last, top, scope);
    earlier(failure_of(first), failure_of(last))
}

// The failure that comes first.
fn earlier(failure: Option<Failure>, other: Option<Failure>) -> Option<Failure>
    ensures { IsEarlier failure other result }
{
    match (failure, other) {
        (None, other) => other,
        (Some(failure), None) => Some(failure),
        (Some(failure), Some(other)) => {
            if comes_before(other.key, failure.key) {
                Some(other)
            } else {
                Some(failure)
            }
        }
    }
}
