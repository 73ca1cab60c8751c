//! The least and the greatest of the sums of a range.
ghost use Rattle.std.specs.Prelude.{◌≡◌, ◌≢◌, ℕ, ℤ, true, false, ◌+◌, ◌-◌, ◌+ℤ◌, ◌*ℤ◌, ◌*◌, ◌^◌, ◌<◌, ◌≤◌, ◌⊎◌, pos, List, Option, IfOk};
ghost use Rattle.std.specs.Prelude.{IfErr, OnOk, IfSome, length, unsigned_abs};
ghost use Rattle.whole_number.specs.Range.{IsValue};
ghost use Rattle.derived_chart.specs.Reads.{best_reads, levels};
ghost use Rattle.derived_chart.specs.Searches.{Beats, IsBestOf, IsBestWith, IsBetter, IsNoBetter, IsRangeOf};
ghost use Rattle.derived_chart.specs.Slots.{AreArraySums, HasValues, IsBetterOf, IsEmpty, sum_of_slots};
ghost use Rattle.derived_chart.specs.Sums.{AreSums, IsSmall};

use crate::bounds::bounds;
use crate::products::product;
use crate::slots::read_slots;
use crate::sum::Sum;
use crate::trees::TwoTrees;
use om3_coeff::NodeError;

/// Which sum is looked for.
#[derive(Clone, Copy)]
pub enum Best {
    Least,
    Greatest,
}

/// Whether no sum between these two numbers is better than what was found.
fn is_no_better(best: Best, found: &Option<i128>, range: &(i128, i128)) -> bool
    ensures yes { result ≡ true → IsNoBetter best found.now range.now }
    ensures no { result ≡ false → IsBetter best found.now range.now }
{
    match (found, best) {
        (None, _) => false,
        (Some(value), Best::Least) => *value <= range.0,
        (Some(value), Best::Greatest) => range.1 <= *value,
    }
}

/// Whether the better one of the sums of two ranges may be that of the second range.
fn is_second_better(
    best: Best,
    first: &Option<(i128, i128)>,
    second: &Option<(i128, i128)>,
) -> bool {
    match (first, second, best) {
        (_, None, _) => false,
        (None, Some(_), _) => true,
        (Some(first), Some(second), Best::Least) => second.0 < first.0,
        (Some(first), Some(second), Best::Greatest) => first.1 < second.1,
    }
}

/// The most slots whose values are read at once.
const FEW: u64 = 128;

/// Whether the slots of a range are so few that their values are read at once.
fn are_few(p: u64, q: u64) -> bool
    requires { p < q }
    ensures yes { result ≡ true → q ≤ p + 128 }
    ensures no { result ≡ false → p + 1 < q }
{
    q - p <= FEW
}

/// The better one of two numbers.
fn better_number(best: Best, first: &i128, second: &i128) -> i128
    ensures which { (result ≡ first.now) ⊎ (result ≡ second.now) }
    ensures first { Beats best result first.now }
    ensures second { Beats best result second.now }
{
    match best {
        Best::Least => (*first).min(*second),
        Best::Greatest => (*first).max(*second),
    }
}

/// The better one of what was found and the next number.
fn better_of(best: Best, found: &Option<i128>, next: &Option<i128>) -> Option<i128>
    ensures { IsBetterOf best found.now next.now result }
{
    match (found, next) {
        (_, None) => *found,
        (None, Some(next)) => Some(*next),
        (Some(found), Some(next)) => Some(better_number(best, found, next)),
    }
}

/// The sum of two products.
fn added(first: &i128, second: &i128) -> i128
    requires first { unsigned_abs first.now ≤ 10 ^ 27 }
    requires second { unsigned_abs second.now ≤ 10 ^ 27 }
    ensures is { result ≡ first.now +ℤ second.now }
    ensures small { unsigned_abs result ≤ 2 * 10 ^ 27 }
{
    *first + *second
}

/// The sum of two values.
fn sum_of_values(sum: Sum, x: &i64, y: &i64) -> i128
    requires small { IsSmall sum }
    requires first { IsValue x.now }
    requires second { IsValue y.now }
    ensures { result ≡ sum.a *ℤ x.now +ℤ sum.b *ℤ y.now }
{
    let first = product(sum.a, *x);
    let second = product(sum.b, *y);
    added(&first, &second)
}

/// The sum of two slots, where both hold a value.
fn sum_of_slots(sum: Sum, x: &Option<i64>, y: &Option<i64>) -> Option<i128>
    requires small { IsSmall sum }
    requires first { IfSome x.now IsValue }
    requires second { IfSome y.now IsValue }
    ensures { result ≡ sum_of_slots sum x.now y.now }
{
    match (x, y) {
        (None, _) => None,
        (Some(_), None) => None,
        (Some(x), Some(y)) => Some(sum_of_values(sum, x, y)),
    }
}

/// The best of the sums of the first `count` slots of two arrays and of what was found before.
fn best_of_arrays(
    sum: Sum,
    xs: &[Option<i64>],
    ys: &[Option<i64>],
    count: usize,
    best: Best,
    found: &Option<i128>,
) -> Option<i128>
    requires small { IsSmall sum }
    requires first { count ≤ length xs.now }
    requires second { count ≤ length ys.now }
    requires values { HasValues xs.now }
    requires others { HasValues ys.now }
    ensures { (sums : List (Option ℤ)) (p : ℕ) → AreArraySums sum xs.now ys.now count p sums
        → IsBestWith best sums p (p + count) found.now result }
{
    let mut most = *found;
    for at in 0..count {
        let next = sum_of_slots(sum, &xs[at], &ys[at]);
        most = better_of(best, &most, &next);
    }
    most
}

/// An array of slots that hold nothing.
fn no_slots() -> [Option<i64>; 128]
    ensures empty { IsEmpty result }
    ensures room { length result ≡ 128 }
{
    [None; 128]
}

/// The place in the second series that has the time of slot `slot` of the first one.
fn place_beside(sum: Sum, slot: u64) -> i128
    requires small { IsSmall sum }
    requires few { slot ≤ 2 ^ 35 }
    ensures is { result ≡ pos slot +ℤ sum.shift }
    ensures small { unsigned_abs result ≤ 5 * 10 ^ 18 }
{
    i128::from(slot) + i128::from(sum.shift)
}

/// The best of the sums of the slots from `p` on and below `q`, which are few, and of what was found before. Each of the
/// two series is read by one walk.
fn best_of_few<T: TwoTrees>(
    trees: &mut T,
    sum: Sum,
    p: u64,
    q: u64,
    best: Best,
    found: &Option<i128>,
) -> Result<Option<i128>, NodeError>
    requires fit { (T.view trees.old).fit }
    requires some { p < q }
    requires few { q ≤ p + 128 }
    requires within { q ≤ 2 ^ 35 }
    requires small { IsSmall sum }
    ensures best { (xs ys sums : List (Option ℤ)) → T.are trees.old xs ys → AreSums sum xs ys sums
        → IfOk result (IsBestWith best sums p q found.now) }
    ensures fit { (T.view trees.new).fit }
    ensures goes { T.goes trees.old trees.new }
    ensures reads { (T.view trees.new).reads ≤ (T.view trees.old).reads + (q - p) * levels (T.count false trees.old)
        (T.count true trees.old) }
    ensures cause { IfErr result (T.causes trees.old trees.new) }
    ensures quiet { OnOk result ((T.view trees.new).faults ≡ (T.view trees.old).faults) }
    ensures quiet_err { IfErr result (λ e. e ≢ NodeError.DiskFault → (T.view trees.new).faults ≡ (T.view trees.old).faults) }
{
    let count = q - p;
    let mut xs = no_slots();
    read_slots(trees, false, &i128::from(p), count, &mut xs)?;
    let mut ys = no_slots();
    read_slots(trees, true, &place_beside(sum, p), count, &mut ys)?;
    Ok(best_of_arrays(sum, &xs, &ys, count as usize, best, found))
}

/// The best of the sums of the slots from `p` on and below `q`, which lie between these two numbers, and of what was found
/// before. Of a range whose sums are no better than that nothing is read below, a few slots are read at once, and of two
/// halves the one is searched first that may have the better sum.
fn best_from<T: TwoTrees>(
    trees: &mut T,
    sum: Sum,
    p: u64,
    q: u64,
    range: &Option<(i128, i128)>,
    best: Best,
    found: &Option<i128>,
) -> Result<Option<i128>, NodeError>
    requires fit { (T.view trees.old).fit }
    requires some { p < q }
    requires within { q ≤ T.count false trees.old }
    requires few { q ≤ 2 ^ 35 }
    requires small { IsSmall sum }
    ensures best { (xs ys sums : List (Option ℤ)) → T.are trees.old xs ys → AreSums sum xs ys sums → IsRangeOf sums p q range.now
        → IfOk result (IsBestWith best sums p q found.now) }
    ensures fit { (T.view trees.new).fit }
    ensures goes { T.goes trees.old trees.new }
    ensures reads { (T.view trees.new).reads ≤ (T.view trees.old).reads + (5 * (q - p) - 4) * levels (T.count false trees.old)
        (T.count true trees.old) }
    ensures cause { IfErr result (T.causes trees.old trees.new) }
    ensures quiet { OnOk result ((T.view trees.new).faults ≡ (T.view trees.old).faults) }
    ensures quiet_err { IfErr result (λ e. e ≢ NodeError.DiskFault → (T.view trees.new).faults ≡ (T.view trees.old).faults) }
{
    let Some(range) = range else {
        return Ok(*found);
    };
    if is_no_better(best, found, range) {
        return Ok(*found);
    }
    if are_few(p, q) {
        return best_of_few(trees, sum, p, q, best, found);
    }
    let middle = p + (q - p) / 2;
    let left = bounds(trees, sum, p, middle)?;
    let right = bounds(trees, sum, middle, q)?;
    if is_second_better(best, &left, &right) {
        let first = best_from(trees, sum, middle, q, &right, best, found)?;
        return best_from(trees, sum, p, middle, &left, best, &first);
    }
    let first = best_from(trees, sum, p, middle, &left, best, found)?;
    best_from(trees, sum, middle, q, &right, best, &first)
}

/// The least or the greatest of the sums of the slots from `p` on and below `q` of the first series, or nothing where no
/// sum stands there. A range whose sums can't be better than what was found is passed over.
pub fn best_sum<T: TwoTrees>(
    trees: &mut T,
    sum: Sum,
    p: u64,
    q: u64,
    best: Best,
) -> Result<Option<i128>, NodeError>
    requires fit { (T.view trees.old).fit }
    requires order { p ≤ q }
    requires within { q ≤ T.count false trees.old }
    requires few { q ≤ 2 ^ 35 }
    requires small { IsSmall sum }
    ensures best { (xs ys sums : List (Option ℤ)) → T.are trees.old xs ys → AreSums sum xs ys sums → IfOk result (IsBestOf best sums p q) }
    ensures fit { (T.view trees.new).fit }
    ensures goes { T.goes trees.old trees.new }
    ensures reads { (T.view trees.new).reads ≤ (T.view trees.old).reads + best_reads (q - p)
        (levels (T.count false trees.old) (T.count true trees.old)) }
    ensures cause { IfErr result (T.causes trees.old trees.new) }
    ensures quiet { OnOk result ((T.view trees.new).faults ≡ (T.view trees.old).faults) }
    ensures quiet_err { IfErr result (λ e. e ≢ NodeError.DiskFault → (T.view trees.new).faults ≡ (T.view trees.old).faults) }
{
    if p == q {
        return Ok(None);
    }
    let range = bounds(trees, sum, p, q)?;
    best_from(trees, sum, p, q, &range, best, &None)
}
