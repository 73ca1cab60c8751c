//! Between which numbers the sums of a range lie.
ghost use Rattle.std.specs.Prelude.{◌≡◌, ◌≢◌, ℤ, true, false, ◌+◌, ◌*◌, ◌^◌, ◌≤◌, List, length, Option, IfOk, IfErr, OnOk};
ghost use Rattle.om3_coeff.specs.Keys.{height};
ghost use Rattle.om3_coeff.specs.Spans.{IsProperIfAny, span_over};
ghost use Rattle.derived_chart.specs.Bounds.{AreBetween, IsValueOf};
ghost use Rattle.derived_chart.specs.Reads.{bounds_reads, levels};
ghost use Rattle.derived_chart.specs.Sums.{AreSums, IsSmall, one_of};

use crate::beside::beside;
use crate::products::{both, products};
use crate::sum::Sum;
use crate::trees::TwoTrees;
use om3_coeff::{NodeError, Span, range_span};

/// The least and the greatest stored value of the slots from `a` on and below `b` of one of the trees.
fn span_in<T: TwoTrees>(
    trees: &mut T,
    second: bool,
    a: u64,
    b: u64,
) -> Result<Option<Span>, NodeError>
    requires fit { (T.view trees.old).fit }
    requires order { a ≤ b }
    requires within { b ≤ T.count second trees.old }
    ensures list { (xs ys : List (Option ℤ)) → T.are trees.old xs ys → IfOk result (λ span. span ≡ span_over (one_of second xs ys) a b) }
    ensures proper { IfOk result IsProperIfAny }
    ensures fit { (T.view trees.new).fit }
    ensures goes { T.goes trees.old trees.new }
    ensures reads { (T.view trees.new).reads ≤ (T.view trees.old).reads + 2 * height (T.count second trees.old) }
    ensures cause { IfErr result (T.causes trees.old trees.new) }
    ensures quiet { OnOk result ((T.view trees.new).faults ≡ (T.view trees.old).faults) }
    ensures quiet_err { IfErr result (λ e. e ≢ NodeError.DiskFault → (T.view trees.new).faults ≡ (T.view trees.old).faults) }
{
    trees.turn(second);
    range_span(trees, a, b)
}

/// Between which numbers the sums of the slots from `p` on and below `q` lie, or nothing where none stands there.
pub(crate) fn bounds<T: TwoTrees>(
    trees: &mut T,
    sum: Sum,
    p: u64,
    q: u64,
) -> Result<Option<(i128, i128)>, NodeError>
    requires fit { (T.view trees.old).fit }
    requires order { p ≤ q }
    requires within { q ≤ T.count false trees.old }
    requires few { q ≤ 2 ^ 35 }
    requires small { IsSmall sum }
    ensures between { (xs ys sums : List (Option ℤ)) → T.are trees.old xs ys → AreSums sum xs ys sums → IfOk result (AreBetween sums p q) }
    ensures one { (xs ys sums : List (Option ℤ)) → T.are trees.old xs ys → AreSums sum xs ys sums → q ≡ p + 1
        → IfOk result (IsValueOf sums p) }
    ensures fit { (T.view trees.new).fit }
    ensures goes { T.goes trees.old trees.new }
    ensures reads { (T.view trees.new).reads ≤ (T.view trees.old).reads + bounds_reads
        (levels (T.count false trees.old) (T.count true trees.old)) }
    ensures cause { IfErr result (T.causes trees.old trees.new) }
    ensures quiet { OnOk result ((T.view trees.new).faults ≡ (T.view trees.old).faults) }
    ensures quiet_err { IfErr result (λ e. e ≢ NodeError.DiskFault → (T.view trees.new).faults ≡ (T.view trees.old).faults) }
{
    let Some(x) = span_in(trees, false, p, q)? else {
        return Ok(None);
    };
    let count = slots_of_second(trees);
    let (from, to) = beside(sum.shift, count, p, q);
    let Some(y) = span_in(trees, true, from, to)? else {
        return Ok(None);
    };
    let first = products(sum.a, x);
    let second = products(sum.b, y);
    Ok(Some(both(&first, &second)))
}

/// How many slots the second tree has.
fn slots_of_second<T: TwoTrees>(trees: &mut T) -> u64
    requires fit { (T.view trees.old).fit }
    ensures count { result ≡ T.count true trees.old }
    ensures few { result ≤ 2 ^ 35 }
    ensures length { (xs ys : List (Option ℤ)) → T.are trees.old xs ys → result ≡ length ys }
    ensures fit { (T.view trees.new).fit }
    ensures goes { T.goes trees.old trees.new }
    ensures reads { (T.view trees.new).reads ≡ (T.view trees.old).reads }
    ensures quiet { (T.view trees.new).faults ≡ (T.view trees.old).faults }
{
    trees.turn(true);
    trees.slots()
}
