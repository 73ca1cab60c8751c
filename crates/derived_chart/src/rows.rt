//! The rows of a sum of two series.
ghost use Rattle.std.specs.Prelude.{◌≡◌, ◌≢◌, ℕ, ℤ, ◌+◌, ◌-◌, ◌<◌, ◌≤◌, ◌^◌, List, Option, IfOk, IfErr, OnOk, All, false, true, length};
ghost use Rattle.chart_grid.specs.Slots.{AreSlotsBefore, border};
ghost use Rattle.m4_groups.specs.Heights.{IsDrawable};
ghost use Rattle.m4_groups.specs.Rows.{AreRising};
ghost use Rattle.plain_chart.specs.Samples.{kept};
ghost use Rattle.derived_chart.specs.Lists.{sums_of};
ghost use Rattle.derived_chart.specs.Reads.{ReadsBefore, ReadsInWindow, levels, row_reads};
ghost use Rattle.derived_chart.specs.Rows.{IsAnswer, IsCause, IsRowCause, AreShown, AreRowsBelow, ForColumnSums, IsOrdered};
ghost use Rattle.derived_chart.specs.Sums.{IsSmall};
ghost use Rattle.derived_chart.specs.declared.derived_error.DerivedError.TheVariants.{Node};
ghost use Rattle.om3_coeff.specs.declared.errors.NodeError.TheVariants.{DiskFault};

use crate::column_row::row_of_column;
use crate::derived_error::DerivedError;
use crate::ends::first_large_sum;
use crate::sum::Sum;
use crate::times::{time_of, window_slots};
use crate::trees::TwoTrees;
use chart_grid::laws::columns_rise;
use chart_grid::{Axis, Grid};
use m4_groups::{Row, Rows};
use std::alloc::Global;

/// The rows of a sum of two series: for each column at whose times both store a value, the first, the least, the
/// greatest and the last of the sums. It is refused as `TooLarge` where a sum in the window is more than 10^18 in
/// size, with the first time of such a sum; `Node` is what the trees answered. The axis is that of the first series.
pub fn derived_rows<T: TwoTrees>(
    alloc: Global,
    trees: &mut T,
    axis: Axis,
    sum: Sum,
    grid: Grid,
) -> Result<Rows, DerivedError>
    requires fit { (T.view trees.old).fit }
    requires slots { axis.slots ≡ T.count false trees.old }
    requires few { axis.slots ≤ 2 ^ 35 }
    requires step { 0 < axis.step }
    requires small { IsSmall sum }
    ensures rows { (xs ys : List (Option ℤ)) → T.are trees.old xs ys → IsAnswer grid (kept grid axis (sums_of sum xs ys)) result }
    ensures rising { IfOk result AreRising }
    ensures drawable { IfOk result (All (IsDrawable grid.w)) }
    ensures ordered { IfOk result (All IsOrdered) }
    ensures fit { (T.view trees.new).fit }
    ensures goes { T.goes trees.old trees.new }
    ensures reads { ReadsInWindow axis grid (levels (T.count false trees.old) (T.count true trees.old)) (T.view trees.old).reads
        (T.view trees.new).reads }
    ensures cause { IfErr result (IsCause (T.causes trees.old trees.new)) }
    ensures quiet { OnOk result ((T.view trees.new).faults ≡ (T.view trees.old).faults) }
    ensures quiet_err { IfErr result (λ e. e ≢ Node DiskFault → (T.view trees.new).faults ≡ (T.view trees.old).faults) }
{
    columns_rise();
    let _slots = slots_of_first(trees);
    let (from, to) = window_slots(grid, axis);
    let large = first_large_sum(trees, sum, from, to)?;
    if let Some(found) = large {
        let time = time_of(axis, found.0);
        return Err(DerivedError::TooLarge { time });
    }
    let rows = rows_of_columns(alloc, trees, axis, sum, grid)?;
    Ok(Rows::from_vec(rows))
}

/// How many slots the first tree has.
fn slots_of_first<T: TwoTrees>(trees: &mut T) -> u64
    requires fit { (T.view trees.old).fit }
    ensures count { result ≡ T.count false trees.old }
    ensures length { (xs ys : List (Option ℤ)) → T.are trees.old xs ys → result ≡ length xs }
    ensures fit { (T.view trees.new).fit }
    ensures goes { T.goes trees.old trees.new }
    ensures reads { (T.view trees.new).reads ≡ (T.view trees.old).reads }
    ensures quiet { (T.view trees.new).faults ≡ (T.view trees.old).faults }
{
    trees.turn(false);
    trees.slots()
}

/// The rows of all columns, where no sum of them is too large.
fn rows_of_columns<T: TwoTrees>(
    alloc: Global,
    trees: &mut T,
    axis: Axis,
    sum: Sum,
    grid: Grid,
) -> Result<Vec<Row>, DerivedError>
    requires fit { (T.view trees.old).fit }
    requires slots { axis.slots ≡ T.count false trees.old }
    requires few { axis.slots ≤ 2 ^ 35 }
    requires step { 0 < axis.step }
    requires small { IsSmall sum }
    ensures rows { ForColumnSums axis grid sum (T.are trees.old)
        (λ sums. IfOk result (λ rows. AreRowsBelow axis grid sums grid.w rows.items)) }
    ensures shown { IfOk result (λ rows. AreShown grid.w grid.w rows.items) }
    ensures fit { (T.view trees.new).fit }
    ensures goes { T.goes trees.old trees.new }
    ensures reads { ReadsBefore 18 axis grid grid.t1 (levels (T.count false trees.old) (T.count true trees.old)) (T.view trees.old).reads
        (T.view trees.new).reads }
    ensures cause { IfErr result (IsRowCause (T.causes trees.old trees.new)) }
    ensures quiet { OnOk result ((T.view trees.new).faults ≡ (T.view trees.old).faults) }
    ensures quiet_err { IfErr result (λ e. e ≢ Node DiskFault → (T.view trees.new).faults ≡ (T.view trees.old).faults) }
{
    let mut rows = Vec::with_capacity(alloc, usize::from(grid.w()))?;
    for column in 0..grid.w() {
        add_column(trees, axis, sum, grid, column, &mut rows)?;
    }
    Ok(rows)
}

/// The row of a column behind those of the columns before it, if it has one.
fn add_column<T: TwoTrees>(
    trees: &mut T,
    axis: Axis,
    sum: Sum,
    grid: Grid,
    column: u16,
    rows: &mut Vec<Row>,
) -> Result<(), DerivedError>
    requires fit { (T.view trees.old).fit }
    requires slots { axis.slots ≡ T.count false trees.old }
    requires few { axis.slots ≤ 2 ^ 35 }
    requires step { 0 < axis.step }
    requires small { IsSmall sum }
    requires drawn { column < grid.w }
    ensures rows { ForColumnSums axis grid sum (T.are trees.old) (λ sums. AreRowsBelow axis grid sums column rows.old.items
        → OnOk result (AreRowsBelow axis grid sums (column + 1) rows.new.items)) }
    ensures shown { AreShown grid.w column rows.old.items → OnOk result (AreShown grid.w (column + 1) rows.new.items) }
    ensures fit { (T.view trees.new).fit }
    ensures goes { T.goes trees.old trees.new }
    ensures reads { (from to : ℕ) → AreSlotsBefore axis (border grid column) from → AreSlotsBefore axis (border grid (column + 1)) to
        → (T.view trees.new).reads ≤ (T.view trees.old).reads + row_reads (to - from)
        (levels (T.count false trees.old) (T.count true trees.old)) }
    ensures cause { IfErr result (IsRowCause (T.causes trees.old trees.new)) }
    ensures quiet { OnOk result ((T.view trees.new).faults ≡ (T.view trees.old).faults) }
    ensures quiet_err { IfErr result (λ e. e ≢ Node DiskFault → (T.view trees.new).faults ≡ (T.view trees.old).faults) }
{
    let (p, q) = grid.slot_range(axis, column);
    let Some(row) = row_of_column(trees, sum, column, p, q)? else {
        return Ok(());
    };
    rows.push(row)?;
    Ok(())
}
