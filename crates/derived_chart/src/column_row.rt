//! The row of a column.
ghost use Rattle.std.specs.Prelude.{◌≡◌, ◌≢◌, ℤ, ◌+◌, ◌-◌, ◌<◌, ◌≤◌, ◌^◌, List, Option, IfOk, IfErr, OnOk, IfSome, ℕ, false, true, ◌≤ℤ◌};
ghost use Rattle.whole_number.specs.Range.{IsValue};
ghost use Rattle.m4_groups.specs.Heights.{IsDrawable};
ghost use Rattle.derived_chart.specs.Reads.{levels, row_reads};
ghost use Rattle.derived_chart.specs.Rows.{AreFound, AreValues, IsOrdered, IsRowIn, IsRowIfAny};
ghost use Rattle.derived_chart.specs.Sums.{AreSums, IsSmall};

use crate::ends::{first_sum, last_sum};
use crate::searches::{Best, best_sum};
use crate::sum::Sum;
use crate::times::value_of;
use crate::trees::TwoTrees;
use m4_groups::Row;
use om3_coeff::NodeError;

/// The row of a column that shows the slots from `p` on and below `q` of the first series, or nothing where no sum stands there.
pub(crate) fn row_of_column<T: TwoTrees>(
    trees: &mut T,
    sum: Sum,
    column: u16,
    p: u64,
    q: u64,
) -> Result<Option<Row>, NodeError>
    requires fit { (T.view trees.old).fit }
    requires order { p ≤ q }
    requires within { q ≤ T.count false trees.old }
    requires few { q ≤ 2 ^ 35 }
    requires small { IsSmall sum }
    ensures row { (xs ys sums : List (Option ℤ)) → T.are trees.old xs ys → AreSums sum xs ys sums → AreValues sums p q
        → IfOk result (IsRowIfAny sums p q) }
    ensures column { IfOk result (λ row. IfSome row (λ r. r.column ≡ column)) }
    ensures drawable { IfOk result (λ row. IfSome row (IsDrawable (column + 1))) }
    ensures ordered { IfOk result (λ row. IfSome row IsOrdered) }
    ensures fit { (T.view trees.new).fit }
    ensures goes { T.goes trees.old trees.new }
    ensures reads { (T.view trees.new).reads ≤ (T.view trees.old).reads + row_reads (q - p)
        (levels (T.count false trees.old) (T.count true trees.old)) }
    ensures cause { IfErr result (T.causes trees.old trees.new) }
    ensures quiet { OnOk result ((T.view trees.new).faults ≡ (T.view trees.old).faults) }
    ensures quiet_err { IfErr result (λ e. e ≢ NodeError.DiskFault → (T.view trees.new).faults ≡ (T.view trees.old).faults) }
{
    let Some(first) = first_sum(trees, sum, p, q)? else {
        return Ok(None);
    };
    let last = last_sum(trees, sum, p, q)?;
    let least = best_sum(trees, sum, p, q, Best::Least)?;
    let greatest = best_sum(trees, sum, p, q, Best::Greatest)?;
    let row = row_of(column, &first, &last, &least, &greatest);
    Ok(Some(ordered(&row)))
}

/// The row by what was found of a column: its first sum with its slot, the last one, the least and the greatest, which are
/// there where the first one is.
fn row_of(
    column: u16,
    first: &(u64, i128),
    last: &Option<(u64, i128)>,
    least: &Option<i128>,
    greatest: &Option<i128>,
) -> Row
    ensures column { result.column ≡ column }
    ensures drawable { IsDrawable (column + 1) result }
    ensures row { (sums : List (Option ℤ)) (p q : ℕ) → AreFound sums p q first.now last.now least.now greatest.now
        → IsRowIn sums p q result }
{
    let low = sum_or(least, &first.1);
    let high = sum_or(greatest, &first.1);
    Row {
        column,
        first: value_of(&first.1),
        least: low,
        greatest: at_least(&high, &low),
        last: last_or(last, &first.1),
    }
}

/// The row with its first and its last value between its least and its greatest one, where sums of a column lie.
fn ordered(row: &Row) -> Row
    ensures ordered { row.now.least ≤ℤ row.now.greatest → IsOrdered result }
    ensures drawable { (w : ℕ) → IsDrawable w row.now → IsDrawable w result }
    ensures column { result.column ≡ row.now.column }
    ensures same { IsOrdered row.now → result ≡ row.now }
{
    Row {
        column: row.column,
        first: between(&row.first, &row.least, &row.greatest),
        least: row.least,
        greatest: row.greatest,
        last: between(&row.last, &row.least, &row.greatest),
    }
}

/// The value, or the end that it passes.
fn between(value: &i64, low: &i64, high: &i64) -> i64
    ensures same { low.now ≤ℤ value.now → value.now ≤ℤ high.now → result ≡ value.now }
    ensures low { low.now ≤ℤ high.now → low.now ≤ℤ result }
    ensures high { low.now ≤ℤ high.now → result ≤ℤ high.now }
    ensures value { IsValue value.now → IsValue low.now → IsValue high.now → IsValue result }
{
    if *value < *low {
        *low
    } else if *high < *value {
        *high
    } else {
        *value
    }
}

/// The sum that was found, or the other one.
fn sum_or(found: &Option<i128>, other: &i128) -> i64
    ensures same { IfSome found.now (λ v. IsValue v → result ≡ v) }
    ensures value { IsValue result }
{
    match found {
        Some(sum) => value_of(sum),
        None => value_of(other),
    }
}

/// The sum of the slot that was found, or the other one.
fn last_or(found: &Option<(u64, i128)>, other: &i128) -> i64
    ensures same { IfSome found.now (λ l. IsValue l.1 → result ≡ l.1) }
    ensures value { IsValue result }
{
    match found {
        Some(found) => value_of(&found.1),
        None => value_of(other),
    }
}

/// The value, or the low one where it is less than that.
fn at_least(value: &i64, low: &i64) -> i64
    requires value { IsValue value.now }
    requires low { IsValue low.now }
    ensures same { low.now ≤ℤ value.now → result ≡ value.now }
    ensures order { low.now ≤ℤ result }
    ensures value { IsValue result }
{
    if *value < *low { *low } else { *value }
}
