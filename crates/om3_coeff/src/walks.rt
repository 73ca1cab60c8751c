ghost use Rattle.std.specs.Prelude.{◌≡◌, ◌≢◌, ℤ, ◌+◌, ◌*◌, ◌<◌, ◌≤◌, min, max, List, Option, Some, IfOk, IfErr, IfSome, OnOk, slice_get};
ghost use Rattle.om3_coeff.specs.Keys.{first_slot, end_slot, height};
ghost use Rattle.om3_coeff.specs.Spans.{IsProperIfAny, span_of_slot, span_over};
ghost use Rattle.whole_number.specs.Range.{IsValue};
ghost use Rattle.om3_coeff.specs.View.{Agrees, HasCause, MayAsk};
ghost use Rattle.om3_coeff.specs.Walks.{IsReached, StaysBelow, most_cut};

use crate::asking::ask;
use crate::errors::NodeError;
use crate::heights::top_key;
use crate::joining::hull;
use crate::key::Key;
use crate::nodes::Nodes;
use crate::places::{Place, place_of};
use crate::span::Span;

/// The value of a slot, or nothing where it is missing. It asks the keys above the slot, as many as
/// the tree has levels at most.
pub fn value_at<N: Nodes>(nodes: &mut N, slot: u64) -> Result<Option<i64>, NodeError>
    requires fit { (N.view nodes.old).fit }
    requires within { slot < (N.view nodes.old).slots }

    ensures list { (list : List (Option ℤ)) → Agrees (N.view nodes.old) list → IfOk result (λ value. slice_get list slot ≡ Some value) }
    ensures value { IfOk result (λ value. IfSome value IsValue) }
    ensures fit { (N.view nodes.new).fit }
    ensures kept { N.keeps nodes.old nodes.new }
    ensures reads { (N.view nodes.new).reads ≤ (N.view nodes.old).reads + height (N.view nodes.old).slots }
    ensures faults { (N.view nodes.old).faults ≤ (N.view nodes.new).faults }
    ensures cause { IfErr result (HasCause (N.view nodes.old) (N.view nodes.new)) }
    ensures quiet { OnOk result ((N.view nodes.new).faults ≡ (N.view nodes.old).faults) }
    ensures quiet_err { IfErr result (λ e. e ≢ NodeError.DiskFault → (N.view nodes.new).faults ≡ (N.view nodes.old).faults) }
{
    let root = nodes.root();
    let top = top_key(nodes.slots());
    value_below(nodes, top, root, slot)
}

// The value of a slot in the range of a key with this span.
fn value_below<N: Nodes>(
    nodes: &mut N,
    key: Key,
    span: Option<Span>,
    slot: u64,
) -> Result<Option<i64>, NodeError>
    requires fit { (N.view nodes.old).fit }
    requires reached { IsReached (N.view nodes.old) key span }
    requires follows { MayAsk (N.view nodes.old) key }
    requires from { first_slot key ≤ slot }
    requires to { slot < end_slot key }

    ensures list { (list : List (Option ℤ)) → Agrees (N.view nodes.old) list
        → IfOk result (λ value. span_of_slot value ≡ span_over list slot (slot + 1)) }
    ensures value { IfOk result (λ value. IfSome value IsValue) }
    ensures fit { (N.view nodes.new).fit }
    ensures kept { N.keeps nodes.old nodes.new }
    ensures reads { (N.view nodes.new).reads ≤ (N.view nodes.old).reads + key.level }
    ensures faults { (N.view nodes.old).faults ≤ (N.view nodes.new).faults }
    ensures cause { IfErr result (HasCause (N.view nodes.old) (N.view nodes.new)) }
    ensures quiet { OnOk result ((N.view nodes.new).faults ≡ (N.view nodes.old).faults) }
    ensures quiet_err { IfErr result (λ e. e ≢ NodeError.DiskFault → (N.view nodes.new).faults ≡ (N.view nodes.old).faults) }
{
    let Some(span) = span else {
        return Ok(None);
    };
    if key.level == 0 {
        return Ok(Some(span.min));
    }
    let (left, right) = ask(nodes, key, span)?;
    let second = key.right();
    if slot < second.first() {
        value_below(nodes, key.left(), left, slot)
    } else {
        value_below(nodes, second, right, slot)
    }
}

/// The least and the greatest stored value of the slots from `a` on and below `b`, or nothing where
/// none is stored. It asks two keys a level of the tree at most.
pub fn range_span<N: Nodes>(nodes: &mut N, a: u64, b: u64) -> Result<Option<Span>, NodeError>
    requires fit { (N.view nodes.old).fit }
    requires order { a ≤ b }
    requires within { b ≤ (N.view nodes.old).slots }

    ensures list { (list : List (Option ℤ)) → Agrees (N.view nodes.old) list → IfOk result (λ span. span ≡ span_over list a b) }
    ensures proper { IfOk result IsProperIfAny }
    ensures fit { (N.view nodes.new).fit }
    ensures kept { N.keeps nodes.old nodes.new }
    ensures reads { (N.view nodes.new).reads ≤ (N.view nodes.old).reads + 2 * height (N.view nodes.old).slots }
    ensures faults { (N.view nodes.old).faults ≤ (N.view nodes.new).faults }
    ensures cause { IfErr result (HasCause (N.view nodes.old) (N.view nodes.new)) }
    ensures quiet { OnOk result ((N.view nodes.new).faults ≡ (N.view nodes.old).faults) }
    ensures quiet_err { IfErr result (λ e. e ≢ NodeError.DiskFault → (N.view nodes.new).faults ≡ (N.view nodes.old).faults) }
{
    let root = nodes.root();
    let top = top_key(nodes.slots());
    span_below(nodes, top, root, a, b)
}

// The span of those slots from a on and below b that lie in the range of a key with this span.
fn span_below<N: Nodes>(
    nodes: &mut N,
    key: Key,
    span: Option<Span>,
    a: u64,
    b: u64,
) -> Result<Option<Span>, NodeError>
    requires fit { (N.view nodes.old).fit }
    requires reached { IsReached (N.view nodes.old) key span }
    requires follows { MayAsk (N.view nodes.old) key }

    ensures list { (list : List (Option ℤ)) → Agrees (N.view nodes.old) list
        → IfOk result (λ span. span ≡ span_over list (max a (first_slot key)) (min b (end_slot key))) }
    ensures proper { IfOk result IsProperIfAny }
    ensures fit { (N.view nodes.new).fit }
    ensures kept { N.keeps nodes.old nodes.new }
    ensures below { OnOk result (StaysBelow key (N.view nodes.old).asked (N.view nodes.new).asked) }
    ensures reads { (N.view nodes.new).reads ≤ (N.view nodes.old).reads + most_cut a b key }
    ensures faults { (N.view nodes.old).faults ≤ (N.view nodes.new).faults }
    ensures cause { IfErr result (HasCause (N.view nodes.old) (N.view nodes.new)) }
    ensures quiet { OnOk result ((N.view nodes.new).faults ≡ (N.view nodes.old).faults) }
    ensures quiet_err { IfErr result (λ e. e ≢ NodeError.DiskFault → (N.view nodes.new).faults ≡ (N.view nodes.old).faults) }
{
    let Some(span) = span else {
        return Ok(None);
    };
    match place_of(key, a, b) {
        Place::Outside => Ok(None),
        Place::Within => Ok(Some(span)),
        Place::Cut => {
            let (left, right) = ask(nodes, key, span)?;
            let first = span_below(nodes, key.left(), left, a, b)?;
            let second = span_below(nodes, key.right(), right, a, b)?;
            Ok(hull(first, second))
        }
    }
}
