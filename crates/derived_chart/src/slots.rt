//! The values of a few slots in a row, read by one walk.
ghost use Rattle.std.specs.Prelude.{◌≡◌, ◌≢◌, ℤ, true, false, ◌+◌, ◌^◌, ◌*◌, ◌<◌, ◌≤◌, ◌≤ℤ◌, ◌<ℤ◌, ◌+ℤ◌, pos, List, Option, Some, IfErr};
ghost use Rattle.std.specs.Prelude.{OnOk, ℕ, length, unsigned_abs};
ghost use Rattle.om3_coeff.specs.Keys.{end_slot, height};
ghost use Rattle.om3_coeff.specs.View.{Agrees, HasCause, MayAsk};
ghost use Rattle.om3_coeff.specs.Walks.{IsReached, StaysBelow};
ghost use Rattle.derived_chart.specs.Reads.{StartsAt, slots_in};
ghost use Rattle.derived_chart.specs.Slots.{AreRead, AreReadBefore, AreReadThrough, HasValues, IsApart, IsEmpty, IsPut, Meets};
ghost use Rattle.derived_chart.specs.Sums.{one_of};

use crate::trees::TwoTrees;
use om3_coeff::{Key, NodeError, Nodes, Span, ask, top_key};

/// Whether a key's range has none of the `count` slots from `base` on.
fn is_apart(key: Key, base: &i128, count: u64) -> bool
    requires small { end_slot key < 2 ^ 63 }
    requires base { unsigned_abs base.now ≤ 5 * 10 ^ 18 }
    requires few { count ≤ 128 }
    ensures yes { result ≡ true → IsApart key base.now count }
    ensures no { result ≡ false → Meets key base.now count }
{
    i128::from(key.end()) <= *base || *base + i128::from(count) <= i128::from(key.first())
}

/// The place of a slot in an array that begins at `base`.
fn place_in(slot: u64, base: &i128, count: u64) -> usize
    requires few { count ≤ 128 }
    requires low { base.now ≤ℤ pos slot }
    requires high { pos slot <ℤ (base.now +ℤ pos count) }
    requires base { unsigned_abs base.now ≤ 5 * 10 ^ 18 }
    ensures here { pos slot ≡ base.now +ℤ pos result }
    ensures within { result < count }
{
    (i128::from(slot) - *base) as usize
}

/// Puts the value of a slot to its place.
fn put(slots: &mut [Option<i64>], base: &i128, count: u64, slot: u64, value: i64)
    requires few { count ≤ 128 }
    requires low { base.now ≤ℤ pos slot }
    requires high { pos slot <ℤ (base.now +ℤ pos count) }
    requires base { unsigned_abs base.now ≤ 5 * 10 ^ 18 }
    requires room { count ≤ length slots.old }
    ensures put { IsPut base.now slot value slots.old slots.new }
    ensures room { length slots.new ≡ length slots.old }
{
    let place = place_in(slot, base, count);
    slots[place] = Some(value);
}

/// Reads those of the `count` slots from `base` on that lie in the range of a key with this span.
fn read_below<N: Nodes>(
    nodes: &mut N,
    key: Key,
    span: Option<Span>,
    base: &i128,
    count: u64,
    slots: &mut [Option<i64>],
) -> Result<(), NodeError>
    requires fit { (N.view nodes.old).fit }
    requires reached { IsReached (N.view nodes.old) key span }
    requires follows { MayAsk (N.view nodes.old) key }
    requires some { 0 < count }
    requires few { count ≤ 128 }
    requires base { unsigned_abs base.now ≤ 5 * 10 ^ 18 }
    requires room { count ≤ length slots.old }
    ensures list { (list : List (Option ℤ)) → Agrees (N.view nodes.old) list → AreReadBefore list base.now count key slots.old
        → OnOk result (AreReadThrough list base.now count key slots.new) }
    ensures values { HasValues slots.old → HasValues slots.new }
    ensures room { length slots.new ≡ length slots.old }
    ensures fit { (N.view nodes.new).fit }
    ensures kept { N.keeps nodes.old nodes.new }
    ensures below { OnOk result (StaysBelow key (N.view nodes.old).asked (N.view nodes.new).asked) }
    ensures reads { (from : ℕ) → StartsAt base.now from
        → (N.view nodes.new).reads ≤ (N.view nodes.old).reads + key.level * slots_in from count key }
    ensures faults { (N.view nodes.old).faults ≤ (N.view nodes.new).faults }
    ensures cause { IfErr result (HasCause (N.view nodes.old) (N.view nodes.new)) }
    ensures quiet { OnOk result ((N.view nodes.new).faults ≡ (N.view nodes.old).faults) }
    ensures quiet_err { IfErr result (λ e. e ≢ NodeError.DiskFault → (N.view nodes.new).faults ≡ (N.view nodes.old).faults) }
{
    let Some(span) = span else {
        return Ok(());
    };
    if is_apart(key, base, count) {
        return Ok(());
    }
    if key.level == 0 {
        put(slots, base, count, key.index, span.min);
        return Ok(());
    }
    let (left, right) = ask(nodes, key, span)?;
    read_below(nodes, key.left(), left, base, count, slots)?;
    read_below(nodes, key.right(), right, base, count, slots)
}

/// Reads the `count` slots from `base` on of one of the trees into an empty array. Those outside the series hold nothing.
/// Each coefficient is asked once at most.
pub(crate) fn read_slots<T: TwoTrees>(
    trees: &mut T,
    second: bool,
    base: &i128,
    count: u64,
    slots: &mut [Option<i64>],
) -> Result<(), NodeError>
    requires fit { (T.view trees.old).fit }
    requires some { 0 < count }
    requires few { count ≤ 128 }
    requires base { unsigned_abs base.now ≤ 5 * 10 ^ 18 }
    requires room { count ≤ length slots.old }
    requires empty { IsEmpty slots.old }
    ensures list { (xs ys : List (Option ℤ)) → T.are trees.old xs ys
        → OnOk result (AreRead (one_of second xs ys) base.now count slots.new) }
    ensures values { HasValues slots.new }
    ensures room { length slots.new ≡ length slots.old }
    ensures fit { (T.view trees.new).fit }
    ensures goes { T.goes trees.old trees.new }
    ensures reads { (T.view trees.new).reads ≤ (T.view trees.old).reads + count * height (T.count second trees.old) }
    ensures cause { IfErr result (T.causes trees.old trees.new) }
    ensures quiet { OnOk result ((T.view trees.new).faults ≡ (T.view trees.old).faults) }
    ensures quiet_err { IfErr result (λ e. e ≢ NodeError.DiskFault → (T.view trees.new).faults ≡ (T.view trees.old).faults) }
{
    trees.turn(second);
    let root = trees.root();
    let top = top_key(trees.slots());
    read_below(trees, top, root, base, count, slots)
}
