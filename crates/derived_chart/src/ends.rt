//! The ends of the sums of a range.
ghost use Rattle.std.specs.Prelude.{◌≡◌, ◌≢◌, ℤ, true, false, ◌+◌, ◌-◌, ◌<◌, ◌^◌, ◌≤◌, List, Option, IfOk, IfErr, OnOk, unsigned_abs};
ghost use Rattle.derived_chart.specs.Bounds.{AreInLimits};
ghost use Rattle.om3_coeff.specs.Walks.{IsFirstStored, IsLastStored};
ghost use Rattle.derived_chart.specs.Reads.{end_reads, levels};
ghost use Rattle.derived_chart.specs.Searches.{AreHalves, AreShorter, IsEndOf, IsFirstLarge, IsOneFound};
ghost use Rattle.derived_chart.specs.Sums.{AreSums, IsSmall};

use crate::bounds::bounds;
use crate::sum::Sum;
use crate::trees::TwoTrees;
use om3_coeff::NodeError;

/// The greatest size of a value that a series can hold.
const LIMIT: u128 = 1_000_000_000_000_000_000;

/// An end of a range.
#[derive(Clone, Copy)]
pub(crate) enum Side {
    First,
    Last,
}

/// Whether all numbers between these two are values that a series can hold.
fn are_in_limits(range: &(i128, i128)) -> bool
    ensures yes { result ≡ true → AreInLimits range.now }
{
    range.0.unsigned_abs() <= LIMIT && range.1.unsigned_abs() <= LIMIT
}

/// What a single slot gives: its sum, unless only large ones are looked for and it isn't one.
fn one_found(p: u64, range: &(i128, i128), large: bool) -> Option<(u64, i128)>
    ensures { IsOneFound large p range.now result }
{
    if large && range.0.unsigned_abs() <= LIMIT {
        return None;
    }
    Some((p, range.0))
}

/// The halves of a range, first the one at this end.
fn halves(p: u64, q: u64, side: Side) -> ((u64, u64), (u64, u64))
    requires { p + 1 < q }
    ensures halves { AreHalves side p q result }
    ensures shorter { AreShorter p q result }
{
    let middle = p + (q - p) / 2;
    match side {
        Side::First => ((p, middle), (middle, q)),
        Side::Last => ((middle, q), (p, middle)),
    }
}

/// The first or the last slot from `p` on and below `q` at which a sum stands, with the sum; or one that no series
/// could hold, where large ones are looked for. Below a range that can have none nothing is read.
pub(crate) fn end_from<T: TwoTrees>(
    trees: &mut T,
    sum: Sum,
    p: u64,
    q: u64,
    side: Side,
    large: bool,
) -> Result<Option<(u64, i128)>, NodeError>
    requires fit { (T.view trees.old).fit }
    requires order { p ≤ q }
    requires within { q ≤ T.count false trees.old }
    requires few { q ≤ 2 ^ 35 }
    requires small { IsSmall sum }
    ensures end { (xs ys sums : List (Option ℤ)) → T.are trees.old xs ys → AreSums sum xs ys sums
        → IfOk result (IsEndOf side large sums p q) }
    ensures fit { (T.view trees.new).fit }
    ensures goes { T.goes trees.old trees.new }
    ensures reads { (T.view trees.new).reads ≤ (T.view trees.old).reads + end_reads (q - p)
        (levels (T.count false trees.old) (T.count true trees.old)) }
    ensures cause { IfErr result (T.causes trees.old trees.new) }
    ensures quiet { OnOk result ((T.view trees.new).faults ≡ (T.view trees.old).faults) }
    ensures quiet_err { IfErr result (λ e. e ≢ NodeError.DiskFault → (T.view trees.new).faults ≡ (T.view trees.old).faults) }
{
    if p == q {
        return Ok(None);
    }
    let Some(range) = bounds(trees, sum, p, q)? else {
        return Ok(None);
    };
    if large && are_in_limits(&range) {
        return Ok(None);
    }
    if q - p == 1 {
        return Ok(one_found(p, &range, large));
    }
    let (near, far) = halves(p, q, side);
    match end_from(trees, sum, near.0, near.1, side, large)? {
        Some(found) => Ok(Some(found)),
        None => end_from(trees, sum, far.0, far.1, side, large),
    }
}

/// The first slot from `p` on and below `q` of the first series at which a sum stands, with the sum.
pub fn first_sum<T: TwoTrees>(
    trees: &mut T,
    sum: Sum,
    p: u64,
    q: u64,
) -> Result<Option<(u64, i128)>, NodeError>
    requires fit { (T.view trees.old).fit }
    requires order { p ≤ q }
    requires within { q ≤ T.count false trees.old }
    requires few { q ≤ 2 ^ 35 }
    requires small { IsSmall sum }
    ensures first { (xs ys sums : List (Option ℤ)) → T.are trees.old xs ys → AreSums sum xs ys sums → IfOk result (IsFirstStored sums p q) }
    ensures fit { (T.view trees.new).fit }
    ensures goes { T.goes trees.old trees.new }
    ensures reads { (T.view trees.new).reads ≤ (T.view trees.old).reads + end_reads (q - p)
        (levels (T.count false trees.old) (T.count true trees.old)) }
    ensures cause { IfErr result (T.causes trees.old trees.new) }
    ensures quiet { OnOk result ((T.view trees.new).faults ≡ (T.view trees.old).faults) }
    ensures quiet_err { IfErr result (λ e. e ≢ NodeError.DiskFault → (T.view trees.new).faults ≡ (T.view trees.old).faults) }
{
    end_from(trees, sum, p, q, Side::First, false)
}

/// The last one likewise.
pub fn last_sum<T: TwoTrees>(
    trees: &mut T,
    sum: Sum,
    p: u64,
    q: u64,
) -> Result<Option<(u64, i128)>, NodeError>
    requires fit { (T.view trees.old).fit }
    requires order { p ≤ q }
    requires within { q ≤ T.count false trees.old }
    requires few { q ≤ 2 ^ 35 }
    requires small { IsSmall sum }
    ensures last { (xs ys sums : List (Option ℤ)) → T.are trees.old xs ys → AreSums sum xs ys sums → IfOk result (IsLastStored sums p q) }
    ensures fit { (T.view trees.new).fit }
    ensures goes { T.goes trees.old trees.new }
    ensures reads { (T.view trees.new).reads ≤ (T.view trees.old).reads + end_reads (q - p)
        (levels (T.count false trees.old) (T.count true trees.old)) }
    ensures cause { IfErr result (T.causes trees.old trees.new) }
    ensures quiet { OnOk result ((T.view trees.new).faults ≡ (T.view trees.old).faults) }
    ensures quiet_err { IfErr result (λ e. e ≢ NodeError.DiskFault → (T.view trees.new).faults ≡ (T.view trees.old).faults) }
{
    end_from(trees, sum, p, q, Side::Last, false)
}

/// The first slot from `p` on and below `q` of the first series at which a sum of more than 10^18 in size stands, with
/// the sum. A range whose sums can't be so large is passed over.
pub fn first_large_sum<T: TwoTrees>(
    trees: &mut T,
    sum: Sum,
    p: u64,
    q: u64,
) -> Result<Option<(u64, i128)>, NodeError>
    requires fit { (T.view trees.old).fit }
    requires order { p ≤ q }
    requires within { q ≤ T.count false trees.old }
    requires few { q ≤ 2 ^ 35 }
    requires small { IsSmall sum }
    ensures large { (xs ys sums : List (Option ℤ)) → T.are trees.old xs ys → AreSums sum xs ys sums → IfOk result (IsFirstLarge sums p q) }
    ensures fit { (T.view trees.new).fit }
    ensures goes { T.goes trees.old trees.new }
    ensures reads { (T.view trees.new).reads ≤ (T.view trees.old).reads + end_reads (q - p)
        (levels (T.count false trees.old) (T.count true trees.old)) }
    ensures cause { IfErr result (T.causes trees.old trees.new) }
    ensures quiet { OnOk result ((T.view trees.new).faults ≡ (T.view trees.old).faults) }
    ensures quiet_err { IfErr result (λ e. e ≢ NodeError.DiskFault → (T.view trees.new).faults ≡ (T.view trees.old).faults) }
{
    end_from(trees, sum, p, q, Side::First, true)
}
