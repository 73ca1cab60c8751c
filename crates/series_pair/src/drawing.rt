//! The rows and the chart of a sum of two series of a store.
ghost use Rattle.std.specs.Prelude.{◌≡◌, ◌<◌, ◌≤◌, ℕ, List, false, length, All, IfErr, IfOk, IfSome};
ghost use Rattle.chart_grid.specs.Projection.{HasCanvas};
ghost use Rattle.chart_grid.specs.declared.grid.Grid.{Grid};
ghost use Rattle.chart_world.specs.Faults.{CountsFault, fault_in};
ghost use Rattle.derived_chart.specs.Rows.{IsCause, IsOrdered};
ghost use Rattle.derived_chart.specs.Sums.{IsSmall};
ghost use Rattle.m4_groups.specs.Heights.{IsDrawable};
ghost use Rattle.m4_groups.specs.Rows.{AreRising, AreRowsOf};
ghost use Rattle.plain_chart.specs.Samples.{sample_points, values_of};
ghost use Rattle.plain_chart.specs.declared.sample.Sample.{Sample};
ghost use Rattle.retention.specs.Moving.{LooksOnly};
ghost use Rattle.retention.specs.Sweeping.{IsOfPages};
ghost use Rattle.series_book.specs.declared.limits.TheConstants.{MOST_SLOTS};
ghost use Rattle.series_store.specs.Shown as shown;
ghost use Rattle.series_pair.specs.Asking.{GoesPair, IsReady, count, pair_view};
ghost use Rattle.series_pair.specs.Costs.{ReadsSum};
ghost use Rattle.series_pair.specs.Derived.{AreRowsAnswer, AreShifted, IsChartAnswer, IsChartCause, MayShow, ShowsRange, axis_of};
ghost use Rattle.series_pair.specs.Derived.{sum_fault};
ghost use Rattle.series_pair.specs.Drawing.{error_of, node_error};

use crate::store_pair::StorePair;
use crate::sum_error::SumError;
use chart_grid::{Axis, Grid};
use derived_chart::laws::kept_sums_are_the_samples;
use derived_chart::{DerivedError, Sum, TwoTrees, derived_rows};
use gate_pages::Pages;
use line_raster::Bitmap;
use m4_groups::Rows;
use om3_coeff::{NodeError, Nodes};
use plain_chart::ValueRange;
use row_chart::{chart_of_rows, range_of_rows};
use series_store::Store;
use series_store::laws::sound_stores_are_fit;
use std::alloc::Global;

/// The times of the slots of the first series of a pair.
fn first_axis<P: Pages>(pair: &mut StorePair<'_, P>) -> Axis
    requires ready { IsReady pair.old }
    ensures fit { (pair_view pair.new).fit }
    ensures slots { result.slots ≡ count false pair.new }
    ensures few { result.slots ≤ MOST_SLOTS }
    ensures step { 0 < result.step }
    ensures axis { shown.ForSeries pair.old.store.now pair.old.x (λ total book series. result ≡ axis_of series) }
    ensures goes { GoesPair pair.old pair.new }
    ensures quiet { (shown.view pair.new.store.now).faults ≡ (shown.view pair.old.store.now).faults }
    ensures reads { (shown.view pair.new.store.now).reads ≡ (shown.view pair.old.store.now).reads }
{
    sound_stores_are_fit(&*pair.store);
    let info = pair.store.info(pair.x);
    pair.turn(false);
    Axis {
        start: info.start,
        step: info.step,
        slots: pair.slots(),
    }
}

/// What an error of the rows is for a chart.
fn error_of(error: DerivedError) -> SumError
    requires { IsCause IsOfPages error }
    ensures { result ≡ error_of error }
{
    match error {
        DerivedError::TooLarge { time } => SumError::TooLarge { time },
        DerivedError::Node(error) => node_error(error),
        DerivedError::NoMemory => SumError::NoMemory,
    }
}

/// What an error of nodes is. Nodes over pages name no key.
fn node_error(error: NodeError) -> SumError
    requires { IsOfPages error }
    ensures { result ≡ node_error error }
{
    match error {
        NodeError::DiskFault => SumError::DiskFault,
        NodeError::Damaged { page } => SumError::Damaged { page },
        NodeError::Missing { .. } | NodeError::BadCoefficient { .. } => unreachable!(),
    }
}

/// The rows of a sum of the two series of a pair.
fn rows_of_pair<P: Pages>(
    alloc: Global,
    pair: &mut StorePair<'_, P>,
    sum: Sum,
    grid: Grid,
) -> Result<Rows, SumError>
    requires ready { IsReady pair.old }
    requires small { IsSmall sum }
    ensures answer { shown.ForBook pair.old.store.now (λ total book. AreShifted book pair.old.x pair.old.y sum.shift
        → AreRowsAnswer book pair.old.x pair.old.y sum.a sum.b grid result) }
    ensures rising { IfOk result AreRising }
    ensures drawable { IfOk result (All (IsDrawable grid.w)) }
    ensures ordered { IfOk result (All IsOrdered) }
    ensures cause { IfErr result (λ e. IsChartCause pair.old.x pair.old.y e (shown.IsTold pair.new.store.now)
        (shown.total pair.old.store.now) (shown.view pair.old.store.now) (shown.view pair.new.store.now)) }
    ensures same_reference { pair.new.store.ghost_name ≡ pair.old.store.ghost_name }
    ensures goes { GoesPair pair.old pair.new }
    ensures reads { shown.ForBook pair.old.store.now
        (λ total book. ReadsSum book pair.old.x pair.old.y grid (shown.view pair.old.store.now).reads
        (shown.view pair.new.store.now).reads) }
    ensures faults { CountsFault (fault_in sum_fault result) (shown.view pair.old.store.now) (shown.view pair.new.store.now) }
{
    kept_sums_are_the_samples();
    let axis = first_axis(pair);
    match derived_rows(alloc, pair, axis, sum, grid) {
        Ok(rows) => Ok(rows),
        Err(error) => Err(error_of(error)),
    }
}

/// The rows of `a` times the series of the id `x` and `b` times that of the id `y`: for each column at whose times both store a
/// value, the first, the least, the greatest and the last of the sums. A series of the store is selected. The shift is the one of
/// `shift_of`.
///
/// `TooLarge` comes exactly where a sum in the window is more than 10^18 in size, with the first time of such a sum;
/// `DiskFault` only where the count of faults has risen; `Damaged` never where the pages stand for a book.
pub fn rows_of_sum<P: Pages>(
    alloc: Global,
    store: &mut Store<P>,
    x: u16,
    y: u16,
    sum: Sum,
    grid: Grid,
) -> Result<Rows, SumError>
    requires sound { shown.IsSound store.old }
    requires first { x < length (shown.catalog store.old) }
    requires second { y < length (shown.catalog store.old) }
    requires small { IsSmall sum }
    ensures answer { shown.ForBook store.old (λ total book. AreShifted book x y sum.shift
        → AreRowsAnswer book x y sum.a sum.b grid result) }
    ensures rising { IfOk result AreRising }
    ensures drawable { IfOk result (All (IsDrawable grid.w)) }
    ensures ordered { IfOk result (All IsOrdered) }
    ensures cause { IfErr result (λ e. IsChartCause x y e (shown.IsTold store.new) (shown.total store.old) (shown.view store.old)
        (shown.view store.new)) }
    ensures looks { LooksOnly store.old store.new }
    ensures reads { shown.ForBook store.old (λ total book. ReadsSum book x y grid (shown.view store.old).reads
        (shown.view store.new).reads) }
    ensures faults { CountsFault (fault_in sum_fault result) (shown.view store.old) (shown.view store.new) }
{
    let mut pair = StorePair::new(store, x, y);
    rows_of_pair(alloc, &mut pair, sum, grid)
}

/// The range that a chart of these rows shows: the one that is asked for, or from their least to their greatest value.
pub fn shown_range(rows: &Rows, range: Option<ValueRange>) -> ValueRange
    requires { IfSome range MayShow }
    ensures shows { (g : Grid) (samples : List Sample) → AreRowsOf g (sample_points samples) rows.now
        → ShowsRange range (values_of samples) result }
    ensures may { (w : ℕ) → All (IsDrawable w) rows.now → MayShow result }
{
    match range {
        Some(range) => range,
        None => range_of_rows(rows),
    }
}

/// Draws the rows of `a` times the series of the id `x` and `b` times that of the id `y`, over the range that is asked for; or from
/// the least to the greatest of these sums, where none is. The errors are those of the rows, and `NoMemory`.
pub fn chart_of_sum<P: Pages>(
    alloc: Global,
    store: &mut Store<P>,
    x: u16,
    y: u16,
    sum: Sum,
    grid: Grid,
    range: Option<ValueRange>,
) -> Result<Bitmap, SumError>
    requires sound { shown.IsSound store.old }
    requires first { x < length (shown.catalog store.old) }
    requires second { y < length (shown.catalog store.old) }
    requires small { IsSmall sum }
    requires range { IfSome range MayShow }
    ensures answer { shown.ForBook store.old (λ total book. AreShifted book x y sum.shift
        → IsChartAnswer book x y sum.a sum.b grid range result) }
    // whatever the pages are
    ensures size { IfOk result (λ canvas. HasCanvas grid canvas.w canvas.h) }
    ensures cause { IfErr result (λ e. IsChartCause x y e (shown.IsTold store.new) (shown.total store.old) (shown.view store.old)
        (shown.view store.new)) }
    ensures looks { LooksOnly store.old store.new }
    ensures reads { shown.ForBook store.old (λ total book. ReadsSum book x y grid (shown.view store.old).reads
        (shown.view store.new).reads) }
    ensures faults { CountsFault (fault_in sum_fault result) (shown.view store.old) (shown.view store.new) }
{
    let rows = match rows_of_sum(alloc, store, x, y, sum, grid) {
        Ok(rows) => rows,
        Err(error) => return Err(error),
    };
    let range = shown_range(&rows, range);
    let bitmap = chart_of_rows(alloc, grid, &rows, range)?;
    Ok(bitmap)
}
