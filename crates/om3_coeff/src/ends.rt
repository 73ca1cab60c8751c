ghost use Rattle.std.specs.Prelude.{◌≡◌, ◌≢◌, ℤ, ◌+◌, ◌*◌, ◌≤◌, min, max, List, Option, IfOk, IfErr, IfSome, IfNone, IsSome, OnOk};
ghost use Rattle.om3_coeff.specs.Keys.{first_slot, end_slot, height};
ghost use Rattle.om3_coeff.specs.View.{Agrees, HasCause, MayAsk};
ghost use Rattle.om3_coeff.specs.Walks.{IsReached, IsFirstStored, IsLastStored, IsSlotIn, StaysBelow, most_cut};

use crate::asking::ask;
use crate::errors::NodeError;
use crate::heights::top_key;
use crate::key::Key;
use crate::nodes::Nodes;
use crate::places::{Place, place_of};
use crate::span::Span;

/// The first stored slot from `a` on and below `b` with its value, or nothing where none is stored. It
/// asks three keys a level of the tree at most.
pub fn first_in<N: Nodes>(nodes: &mut N, a: u64, b: u64) -> Result<Option<(u64, i64)>, NodeError>
    requires fit { (N.view nodes.old).fit }
    requires order { a ≤ b }
    requires within { b ≤ (N.view nodes.old).slots }

    ensures list { (list : List (Option ℤ)) → Agrees (N.view nodes.old) list → IfOk result (IsFirstStored list a b) }
    ensures slot { IfOk result (λ found. IfSome found (IsSlotIn a b)) }
    ensures fit { (N.view nodes.new).fit }
    ensures kept { N.keeps nodes.old nodes.new }
    ensures reads { (N.view nodes.new).reads ≤ (N.view nodes.old).reads + 3 * height (N.view nodes.old).slots }
    ensures faults { (N.view nodes.old).faults ≤ (N.view nodes.new).faults }
    ensures cause { IfErr result (HasCause (N.view nodes.old) (N.view nodes.new)) }
    ensures quiet { OnOk result ((N.view nodes.new).faults ≡ (N.view nodes.old).faults) }
    ensures quiet_err { IfErr result (λ e. e ≢ NodeError.DiskFault → (N.view nodes.new).faults ≡ (N.view nodes.old).faults) }
{
    let root = nodes.root();
    let top = top_key(nodes.slots());
    first_below(nodes, top, root, a, b)
}

// The first stored one of those slots from a on and below b that lie in the range of a key with this
// span.
fn first_below<N: Nodes>(
    nodes: &mut N,
    key: Key,
    span: Option<Span>,
    a: u64,
    b: u64,
) -> Result<Option<(u64, i64)>, NodeError>
    requires fit { (N.view nodes.old).fit }
    requires reached { IsReached (N.view nodes.old) key span }
    requires follows { MayAsk (N.view nodes.old) key }

    ensures list { (list : List (Option ℤ)) → Agrees (N.view nodes.old) list
        → IfOk result (IsFirstStored list (max a (first_slot key)) (min b (end_slot key))) }
    ensures slot { IfOk result (λ found. IfSome found (IsSlotIn (max a (first_slot key)) (min b (end_slot key)))) }
    ensures fit { (N.view nodes.new).fit }
    ensures kept { N.keeps nodes.old nodes.new }
    ensures below { OnOk result (StaysBelow key (N.view nodes.old).asked (N.view nodes.new).asked) }
    ensures reads { (N.view nodes.new).reads ≤ (N.view nodes.old).reads + (most_cut a b key + key.level) }
    ensures none { IfOk result (λ found. IfNone found ((N.view nodes.new).reads ≤ (N.view nodes.old).reads + most_cut a b key)) }
    ensures some { IfOk result (λ found. IsSome span → a ≤ first_slot key → end_slot key ≤ b → IsSome found) }
    ensures faults { (N.view nodes.old).faults ≤ (N.view nodes.new).faults }
    ensures cause { IfErr result (HasCause (N.view nodes.old) (N.view nodes.new)) }
    ensures quiet { OnOk result ((N.view nodes.new).faults ≡ (N.view nodes.old).faults) }
    ensures quiet_err { IfErr result (λ e. e ≢ NodeError.DiskFault → (N.view nodes.new).faults ≡ (N.view nodes.old).faults) }
{
    let Some(span) = span else {
        return Ok(None);
    };
    if let Place::Outside = place_of(key, a, b) {
        return Ok(None);
    }
    if key.level == 0 {
        return Ok(Some((key.index, span.min)));
    }
    let (left, right) = ask(nodes, key, span)?;
    match first_below(nodes, key.left(), left, a, b)? {
        Some(found) => Ok(Some(found)),
        None => first_below(nodes, key.right(), right, a, b),
    }
}

/// The last stored slot from `a` on and below `b` with its value, or nothing where none is stored. It
/// asks three keys a level of the tree at most.
pub fn last_in<N: Nodes>(nodes: &mut N, a: u64, b: u64) -> Result<Option<(u64, i64)>, NodeError>
    requires fit { (N.view nodes.old).fit }
    requires order { a ≤ b }
    requires within { b ≤ (N.view nodes.old).slots }

    ensures list { (list : List (Option ℤ)) → Agrees (N.view nodes.old) list → IfOk result (IsLastStored list a b) }
    ensures slot { IfOk result (λ found. IfSome found (IsSlotIn a b)) }
    ensures fit { (N.view nodes.new).fit }
    ensures kept { N.keeps nodes.old nodes.new }
    ensures reads { (N.view nodes.new).reads ≤ (N.view nodes.old).reads + 3 * height (N.view nodes.old).slots }
    ensures faults { (N.view nodes.old).faults ≤ (N.view nodes.new).faults }
    ensures cause { IfErr result (HasCause (N.view nodes.old) (N.view nodes.new)) }
    ensures quiet { OnOk result ((N.view nodes.new).faults ≡ (N.view nodes.old).faults) }
    ensures quiet_err { IfErr result (λ e. e ≢ NodeError.DiskFault → (N.view nodes.new).faults ≡ (N.view nodes.old).faults) }
{
    let root = nodes.root();
    let top = top_key(nodes.slots());
    last_below(nodes, top, root, a, b)
}

// The last stored one of those slots from a on and below b that lie in the range of a key with this
// span.
fn last_below<N: Nodes>(
    nodes: &mut N,
    key: Key,
    span: Option<Span>,
    a: u64,
    b: u64,
) -> Result<Option<(u64, i64)>, NodeError>
    requires fit { (N.view nodes.old).fit }
    requires reached { IsReached (N.view nodes.old) key span }
    requires follows { MayAsk (N.view nodes.old) key }

    ensures list { (list : List (Option ℤ)) → Agrees (N.view nodes.old) list
        → IfOk result (IsLastStored list (max a (first_slot key)) (min b (end_slot key))) }
    ensures slot { IfOk result (λ found. IfSome found (IsSlotIn (max a (first_slot key)) (min b (end_slot key)))) }
    ensures fit { (N.view nodes.new).fit }
    ensures kept { N.keeps nodes.old nodes.new }
    ensures below { OnOk result (StaysBelow key (N.view nodes.old).asked (N.view nodes.new).asked) }
    ensures reads { (N.view nodes.new).reads ≤ (N.view nodes.old).reads + (most_cut a b key + key.level) }
    ensures none { IfOk result (λ found. IfNone found ((N.view nodes.new).reads ≤ (N.view nodes.old).reads + most_cut a b key)) }
    ensures some { IfOk result (λ found. IsSome span → a ≤ first_slot key → end_slot key ≤ b → IsSome found) }
    ensures faults { (N.view nodes.old).faults ≤ (N.view nodes.new).faults }
    ensures cause { IfErr result (HasCause (N.view nodes.old) (N.view nodes.new)) }
    ensures quiet { OnOk result ((N.view nodes.new).faults ≡ (N.view nodes.old).faults) }
    ensures quiet_err { IfErr result (λ e. e ≢ NodeError.DiskFault → (N.view nodes.new).faults ≡ (N.view nodes.old).faults) }
{
    let Some(span) = span else {
        return Ok(None);
    };
    if let Place::Outside = place_of(key, a, b) {
        return Ok(None);
    }
    if key.level == 0 {
        return Ok(Some((key.index, span.min)));
    }
    let (left, right) = ask(nodes, key, span)?;
    match last_below(nodes, key.right(), right, a, b)? {
        Some(found) => Ok(Some(found)),
        None => last_below(nodes, key.left(), left, a, b),
    }
}
