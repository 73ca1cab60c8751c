//! What a filtered view shows.

ghost use Rattle.std.specs.Prelude.{◌≡◌, ◌≢◌, ◌≤◌, ◌<◌, ℕ, ℤ, List, All, Option, IfOk, IfErr, OnOk};
ghost use Rattle.om3_coeff.specs.declared.errors.NodeError.TheVariants.{DiskFault};
ghost use Rattle.om3_coeff.specs.View.{Agrees};
ghost use Rattle.chart_grid.specs.declared.grid.Grid.{Grid};
ghost use Rattle.plain_chart.specs.declared.sample.Sample.{Sample};
ghost use Rattle.plain_chart.specs.Samples.{values_of, sample_points};
ghost use Rattle.m4_groups.specs.Heights.{IsDrawable};
ghost use Rattle.m4_groups.specs.Rows.{AreRowsOf};
ghost use Rattle.zoom_session.specs.Views.{IsRangeSpec};
ghost use Rattle.filter_scan.specs.Answers.{IsCauseOf};
ghost use Rattle.filter_scan.specs.Reads.{ReadsWindow};
ghost use Rattle.chart_frames.specs.Frames.{IsRange};
ghost use Rattle.chart_service.specs.Viewing.{ShowsRange, rows_frame};
ghost use Rattle.chart_service.specs.Planning.{ShowsOf, FitInFrame};

use chart_frames::RowsFrame;
use chart_grid::Axis;
use filter_scan::{ScanError, rows_of_query};
use m4_groups::Rows;
use om3_coeff::Nodes;
use plain_chart::ValueRange;
use query_rewriter::ViewQuery;
use row_chart::range_of_rows;
use std::alloc::{AllocError, Global};
use zoom_session::{RangeSpec, ViewSpec};

/// The rows of what a filtered view keeps, and the range of values that it shows.
#[derive(Drop)]
pub(crate) struct ShownRows {
    pub(crate) rows: Rows,
    pub(crate) range: ValueRange,
}

/// What a filtered view shows of the series below these nodes.
pub(crate) fn shown_rows<N: Nodes>(
    alloc: Global,
    spec: &ViewSpec,
    axis: Axis,
    nodes: &mut N,
) -> Result<ShownRows, ScanError>
    requires range { IsRangeSpec spec.now.range }
    requires fit { (N.view nodes.old).fit }
    requires slots { axis.slots ≡ (N.view nodes.old).slots }
    requires step { 0 < axis.step }

    ensures shown { (list : List (Option ℤ)) → Agrees (N.view nodes.old) list → IfOk result (ShowsOf list axis spec.now) }
    ensures in_frame { IfOk result (FitInFrame spec.now.grid.w) }
    ensures cause { IfErr result (IsCauseOf (N.view nodes.old) (N.view nodes.new)) }

    // the nodes
    ensures fit { (N.view nodes.new).fit }
    ensures kept { N.keeps nodes.old nodes.new }
    ensures reads { ReadsWindow axis spec.now.grid.t0 spec.now.grid.t1 (N.view nodes.old).reads (N.view nodes.new).reads }
    ensures faults { (N.view nodes.old).faults ≤ (N.view nodes.new).faults }
    ensures quiet { OnOk result ((N.view nodes.new).faults ≡ (N.view nodes.old).faults) }
    ensures quiet_err { IfErr result (λ e. e ≢ ScanError.Node DiskFault → (N.view nodes.new).faults ≡ (N.view nodes.old).faults) }
{
    let query = match query_of(spec, axis) {
        Ok(query) => query,
        Err(_) => return Err(ScanError::NoMemory),
    };
    let rows = rows_of_query(alloc, nodes, &query)?;
    let range = range_over(&rows, spec.range);
    Ok(ShownRows { rows, range })
}

/// The query of a view of a series with these times.
fn query_of(spec: &ViewSpec, axis: Axis) -> Result<ViewQuery, AllocError>
    ensures { IfOk result (λ query. query ≡ record { axis = axis; grid = spec.now.grid; filter = spec.now.filter }) }
{
    let copy = spec.copy()?;
    Ok(ViewQuery {
        axis,
        grid: copy.grid,
        filter: copy.filter,
    })
}

/// The range of values that a view shows whose rows these are.
fn range_over(rows: &Rows, range: RangeSpec) -> ValueRange
    requires { IsRangeSpec range }
    ensures shown { (grid : Grid) (samples : List Sample) → AreRowsOf grid (sample_points samples) rows.now
        → ShowsRange range (values_of samples) result }
    ensures in_frame { (w : ℕ) → All (IsDrawable w) rows.now → IsRange result.lo result.hi }
{
    match range {
        RangeSpec::Fixed { lo, hi } => ValueRange { lo, hi },
        RangeSpec::Auto => range_of_rows(rows),
    }
}

/// The frame of a filtered view that is answered.
pub(crate) fn rows_frame(number: u32, spec: &ViewSpec, shown: ShownRows) -> RowsFrame
    requires { FitInFrame spec.now.grid.w shown }
    ensures { result ≡ rows_frame number spec.now shown.range shown.rows }
{
    RowsFrame {
        session: number,
        w: spec.grid.w(),
        h: spec.grid.h(),
        lo: shown.range.lo,
        hi: shown.range.hi,
        count: shown.rows.as_slice().len() as u16,
        rows: shown.rows,
    }
}
