ghost use Rattle.std.specs.Prelude.{◌≡◌, ℤ, ◌+◌, ◌-◌, ◌*◌, ◌<◌, ◌≤◌, List, Option, None, IfOk, IfErr, All, length, ◌≢◌, OnOk};
ghost use Rattle.om3_coeff.specs.declared.errors.NodeError.TheVariants.{DiskFault};
ghost use Rattle.om3_coeff.specs.Keys.{height};
ghost use Rattle.om3_coeff.specs.View.{Agrees};
ghost use Rattle.m4_groups.specs.Rows.{AreRising, AreRowsOf};
ghost use Rattle.needed_nodes.specs.Answers.{IsShownRow};
ghost use Rattle.query_rewriter.specs.Kept.{plan_keeps, query_keeps};
ghost use Rattle.query_rewriter.specs.Scans.{IsScan};
ghost use Rattle.filter_scan.specs.Answers.{IsCauseOf, HasRows};
ghost use Rattle.filter_scan.specs.Reads.{ReadsWindow};
ghost use Rattle.plain_chart.specs.Samples.{sample_points};

use crate::scan_error::ScanError;
use crate::scans::Scan;
use crate::table::{empty_table, rows_in};
use crate::walking::fill_below;
use chart_grid::Axis;
use m4_groups::{Row, Rows};
use om3_coeff::{Nodes, top_key};
use query_rewriter::{Plan, ViewQuery, rewrite};
use std::alloc::Global;
use value_filter::Filter;

/// The rows of the points that a plan keeps of a series: one for each column that has such a point, in
/// rising order, with the first, the least, the greatest and the last value of the column's points. It
/// reads one block a slot of the plan at most, and two a level of the tree. A `Node` error is one that the
/// nodes gave; `NoMemory` is want of memory for the rows.
pub fn m4_rows<N: Nodes>(
    alloc: Global,
    nodes: &mut N,
    axis: Axis,
    plan: &Plan,
) -> Result<Rows, ScanError>
    requires fit { (N.view nodes.old).fit }
    requires slots { axis.slots ≡ (N.view nodes.old).slots }
    requires step { 0 < axis.step }
    requires scan { IsScan axis plan.now }

    ensures rows { (list : List (Option ℤ)) → Agrees (N.view nodes.old) list →
        IfOk result (AreRowsOf plan.now.grid (sample_points (plan_keeps axis plan.now list))) }
    ensures rising { IfOk result AreRising }
    ensures shown { IfOk result (All (IsShownRow plan.now.grid.w)) }
    ensures fit { (N.view nodes.new).fit }
    ensures kept { N.keeps nodes.old nodes.new }
    ensures reads { (N.view nodes.new).reads ≤ (N.view nodes.old).reads + ((plan.now.slots.1 - plan.now.slots.0) + 2 * height axis.slots) }
    ensures faults { (N.view nodes.old).faults ≤ (N.view nodes.new).faults }
    ensures cause { IfErr result (IsCauseOf (N.view nodes.old) (N.view nodes.new)) }
    ensures quiet { OnOk result ((N.view nodes.new).faults ≡ (N.view nodes.old).faults) }
    ensures quiet_err { IfErr result (λ e. e ≢ ScanError.Node DiskFault → (N.view nodes.new).faults ≡ (N.view nodes.old).faults) }
{
    let scan = Scan::of(axis, plan);
    let mut table = empty_table(alloc, plan.grid.w())?;
    let rows = rows_by_table(alloc, nodes, &scan, &plan.filter, &mut table)?;
    Ok(Rows::from_vec(rows))
}

/// The rows of what a scan takes, by an empty table of its columns.
fn rows_by_table<N: Nodes>(
    alloc: Global,
    nodes: &mut N,
    scan: &Scan,
    filter: &Option<Filter>,
    table: &mut [Option<Row>],
) -> Result<Vec<Row>, ScanError>
    requires fit { (N.view nodes.old).fit }
    requires slots { scan.now.axis.slots ≡ (N.view nodes.old).slots }
    requires sized { length table.old ≡ scan.now.grid.w }
    requires empty { All (λ entry. entry ≡ None) table.old }

    ensures found { IfOk result (λ rows. HasRows (N.view nodes.old) scan.now filter.now rows.items) }
    ensures fit { (N.view nodes.new).fit }
    ensures kept { N.keeps nodes.old nodes.new }
    ensures reads { (N.view nodes.new).reads ≤ (N.view nodes.old).reads + ((scan.now.end - scan.now.from) + 2 * height
        scan.now.axis.slots) }
    ensures faults { (N.view nodes.old).faults ≤ (N.view nodes.new).faults }
    ensures cause { IfErr result (IsCauseOf (N.view nodes.old) (N.view nodes.new)) }
    ensures quiet { OnOk result ((N.view nodes.new).faults ≡ (N.view nodes.old).faults) }
    ensures quiet_err { IfErr result (λ e. e ≢ ScanError.Node DiskFault → (N.view nodes.new).faults ≡ (N.view nodes.old).faults) }
{
    let root = nodes.root();
    let top = top_key(nodes.slots());
    fill_below(nodes, scan, filter, top, root, table)?;
    Ok(rows_in(alloc, table)?)
}

/// The rows of the points that a query keeps of a series, by its plan.
pub fn rows_of_query<N: Nodes>(
    alloc: Global,
    nodes: &mut N,
    query: &ViewQuery,
) -> Result<Rows, ScanError>
    requires fit { (N.view nodes.old).fit }
    requires slots { query.now.axis.slots ≡ (N.view nodes.old).slots }
    requires step { 0 < query.now.axis.step }

    ensures rows { (list : List (Option ℤ)) → Agrees (N.view nodes.old) list →
        IfOk result (AreRowsOf query.now.grid (sample_points (query_keeps query.now list))) }
    ensures rising { IfOk result AreRising }
    ensures shown { IfOk result (All (IsShownRow query.now.grid.w)) }
    ensures fit { (N.view nodes.new).fit }
    ensures kept { N.keeps nodes.old nodes.new }
    ensures reads { (N.view nodes.new).reads ≤ (N.view nodes.old).reads + (query.now.axis.slots + 2 * height query.now.axis.slots) }
    ensures window { ReadsWindow query.now.axis query.now.grid.t0 query.now.grid.t1 (N.view nodes.old).reads (N.view nodes.new).reads }
    ensures faults { (N.view nodes.old).faults ≤ (N.view nodes.new).faults }
    ensures cause { IfErr result (IsCauseOf (N.view nodes.old) (N.view nodes.new)) }
    ensures quiet { OnOk result ((N.view nodes.new).faults ≡ (N.view nodes.old).faults) }
    ensures quiet_err { IfErr result (λ e. e ≢ ScanError.Node DiskFault → (N.view nodes.new).faults ≡ (N.view nodes.old).faults) }
{
    let plan = rewrite(alloc, query)?;
    m4_rows(alloc, nodes, query.axis, &plan)
}
