//! The search for the first slot, from a side, that isn't known to hold nothing.

ghost use Rattle.std.specs.Prelude.{◌≡◌, ◌<◌, ◌≤◌, ◌≤ℤ◌, ◌^◌, ◌↔◌, IsTrue};
ghost use Rattle.om3_coeff.specs.Keys.{left_of, right_of, first_slot, end_slot};
ghost use Rattle.om3_coeff.specs.Walks.{IsReached};
ghost use Rattle.view_keys.specs.Flat.{IsFlat};
ghost use Rattle.chart_client.specs.HeldNodes.{told_view, seen_of};
ghost use Rattle.chart_client.specs.Searching.{IsBetween, IsAmong, Finds, failure_of, near_of, far_of};

use crate::failure::Failure;
use crate::held_nodes::HeldNodes;
use chart_grid::Grid;
use om3_coeff::{Key, Span};
use plain_chart::ValueRange;
use view_keys::is_flat;
use view_keys::laws::seen_keys_have_an_open_slot;

/// The side from which a search begins.
#[derive(Clone, Copy)]
pub(crate) enum Side {
    First,
    Last,
}

/// The end of a search for a slot that isn't known to hold nothing.
#[derive(Clone, Copy)]
pub(crate) enum End {
    /// All slots are known to hold nothing.
    Nowhere,
    /// The slot is known to hold a value, or lies in a range of values of one height.
    Value,
    /// What the slot holds isn't known, since the coefficient of a key above it can't be used.
    Stuck(Failure),
}

/// The slots from `from` on and below `to`, and the scale on which their values are drawn.
#[derive(Clone, Copy)]
pub(crate) struct Scope {
    pub(crate) from: u64,
    pub(crate) to: u64,
    pub(crate) grid: Grid,
    pub(crate) range: ValueRange,
}

/// A key and its span, if it has any.
#[derive(Clone, Copy)]
pub(crate) struct Half {
    pub(crate) key: Key,
    pub(crate) span: Option<Span>,
}

/// The failure at which a search got stuck.
pub(crate) fn failure_of(end: End) -> Option<Failure>
    ensures { result ≡ failure_of end }
{
    match end {
        End::Nowhere | End::Value => None,
        End::Stuck(failure) => Some(failure),
    }
}

/// The end of a search over those slots of the scope that lie in the range of a key with this span.
pub(crate) fn search(nodes: &HeldNodes, side: Side, half: Half, scope: Scope) -> End
    requires fit { (told_view nodes.now).fit }
    requires reached { IsReached (told_view nodes.now) half.key half.span }
    requires some { scope.from < scope.to }
    requires order { scope.range.lo ≤ℤ scope.range.hi }
    ensures { Finds (seen_of nodes.now) nodes.now.slots (IsFlat scope.range.lo scope.range.hi scope.grid.h) (IsBetween scope.from scope.to)
        (IsAmong half.key scope.from scope.to) side result }
{
    let key = half.key;
    let Some(span) = half.span else {
        return End::Nowhere;
    };
    if key.end() <= scope.from || scope.to <= key.first() {
        return End::Nowhere;
    }
    if key.level == 0 {
        return End::Value;
    }
    if is_settled(key, span, scope) {
        seen_keys_have_an_open_slot();
        return End::Value;
    }
    let (left, right) = match nodes.halves(key, span) {
        Ok(halves) => halves,
        Err(failure) => return End::Stuck(failure),
    };
    let (near, far) = halves_from(side, key, left, right);
    match search(nodes, side, near, scope) {
        End::Nowhere => search(nodes, side, far, scope),
        end => end,
    }
}

/// Whether all slots of a key's range are in the scope, and their values have one height.
fn is_settled(key: Key, span: Span, scope: Scope) -> bool
    requires fits { end_slot key < 2 ^ 63 }
    requires order { scope.range.lo ≤ℤ scope.range.hi }
    ensures { IsTrue result ↔ ((scope.from ≤ first_slot key) × (end_slot key ≤ scope.to)
        × IsFlat scope.range.lo scope.range.hi scope.grid.h span) }
{
    if key.first() < scope.from || scope.to < key.end() {
        return false;
    }
    is_flat(span, scope.range.lo, scope.range.hi, scope.grid.h())
}

/// The two halves of a key's range, that to which a search from this side comes first before the other.
fn halves_from(side: Side, key: Key, left: Option<Span>, right: Option<Span>) -> (Half, Half)
    requires low { 1 ≤ key.level }
    requires fits { end_slot key < 2 ^ 63 }
    ensures near { result.0 ≡ near_of side (record { key = left_of key; span = left }) (record { key = right_of key; span = right }) }
    ensures far { result.1 ≡ far_of side (record { key = left_of key; span = left }) (record { key = right_of key; span = right }) }
{
    let left = Half {
        key: key.left(),
        span: left,
    };
    let right = Half {
        key: key.right(),
        span: right,
    };
    match side {
        Side::First => (left, right),
        Side::Last => (right, left),
    }
}
