ghost use Rattle.std.specs.Prelude.{◌≡◌, ℤ, ◌+◌, ◌<◌, ◌≤◌, ◌^◌, List, Option, IfOk, IfErr, OnOk, IsSome, Some, ◌≢◌};
ghost use Rattle.om3_coeff.specs.Keys.{first_slot, end_slot};
ghost use Rattle.om3_coeff.specs.Spans.{hull};
ghost use Rattle.om3_coeff.specs.View.{Agrees, HasCause, MayAsk};
ghost use Rattle.om3_coeff.specs.Walks.{IsReached, StaysBelow};
ghost use Rattle.filter_scan.specs.Ends.{IsEndHalf, IsEndValue, IsAmong};

use om3_coeff::{Key, NodeError, Nodes, Span, ask};

/// An end of a range: the first or the last stored slot.
#[derive(Clone, Copy)]
pub(crate) enum Side {
    First,
    Last,
}

/// The value at an end of the range of a key with this span. It reads as many blocks as the
/// key's level at most.
pub(crate) fn end_value<N: Nodes>(
    nodes: &mut N,
    side: Side,
    key: Key,
    span: Span,
) -> Result<i64, NodeError>
    requires fit { (N.view nodes.old).fit }
    requires reached { IsReached (N.view nodes.old) key (Some span) }
    requires follows { MayAsk (N.view nodes.old) key }

    ensures list { (list : List (Option ℤ)) → Agrees (N.view nodes.old) list
        → IfOk result (IsEndValue side list (first_slot key) (end_slot key)) }
    ensures among { IfOk result (IsAmong span) }
    ensures fit { (N.view nodes.new).fit }
    ensures kept { N.keeps nodes.old nodes.new }
    ensures below { OnOk result (StaysBelow key (N.view nodes.old).asked (N.view nodes.new).asked) }
    ensures reads { (N.view nodes.new).reads ≤ (N.view nodes.old).reads + key.level }
    ensures faults { (N.view nodes.old).faults ≤ (N.view nodes.new).faults }
    ensures cause { IfErr result (HasCause (N.view nodes.old) (N.view nodes.new)) }
    ensures quiet { OnOk result ((N.view nodes.new).faults ≡ (N.view nodes.old).faults) }
    ensures quiet_err { IfErr result (λ e. e ≢ NodeError.DiskFault → (N.view nodes.new).faults ≡ (N.view nodes.old).faults) }
{
    if key.level == 0 {
        return Ok(span.min);
    }
    let (left, right) = ask(nodes, key, span)?;
    let (half, inner) = end_half(side, key, left, right);
    end_value(nodes, side, half, inner)
}

/// The half of a range with a stored value that has the range's end, and that half's span.
fn end_half(side: Side, key: Key, left: Option<Span>, right: Option<Span>) -> (Key, Span)
    requires low { 1 ≤ key.level }
    requires fits { end_slot key < 2 ^ 63 }
    requires some { IsSome (hull left right) }
    ensures half { IsEndHalf side key left right result }
    ensures lower { result.0.level + 1 ≡ key.level }
{
    match (left, right) {
        (Some(first), Some(second)) => match side {
            Side::First => (key.left(), first),
            Side::Last => (key.right(), second),
        },
        (Some(first), None) => (key.left(), first),
        (None, Some(second)) => (key.right(), second),
        (None, None) => unreachable!(),
    }
}
