ghost use Rattle.std.specs.Prelude.{◌≡◌, ℤ, ◌+◌, ◌<◌, ◌≤◌, ◌≤ℤ◌, List, Option, None, Some, IfOk, IfErr, All, length, ◌≢◌, OnOk};
ghost use Rattle.om3_coeff.specs.declared.errors.NodeError.TheVariants.{DiskFault};
ghost use Rattle.om3_coeff.specs.declared.key.Key.{Key};
ghost use Rattle.om3_coeff.specs.Coefs.{coef};
ghost use Rattle.m4_groups.specs.Rows.{AreRising};
ghost use Rattle.view_keys.specs.Needed.{IsNeeded};
ghost use Rattle.view_keys.specs.Wanted.{IsWanted};
ghost use Rattle.view_keys.specs.Listed.{AreInOrder, IsListOf};
ghost use Rattle.needed_nodes.specs.Answers.{seen_of, AgreesForView, IsEntry, IsShownRow, AreDrawnAs, IsCauseFor, most_needed, most_reads};
ghost use Rattle.needed_nodes.specs.Answers.{points_of};
ghost use Rattle.needed_nodes.specs.Serving.{IsCauseOf};
ghost use Rattle.needed_nodes.specs.Exploring.{Explores, ExploresWindow};

use crate::blocks::{Blocks, empty_table};
use crate::columns::rows_of_columns;
use crate::finding::find_blocks;
use crate::ordering::sort_keys;
use crate::scan_of::ScanOf;
use crate::window::Window;
use chart_grid::{Axis, Grid};
use m4_groups::{Row, Rows};
use om3_coeff::{Coef, Coefs, Key, Nodes, top_key};
use std::alloc::Global;
use view_keys::laws::wanted_keys_are_needed;

/// So many keys of each column have room before the list of keys grows. Most views need fewer.
const KEYS_A_COLUMN: usize = 16;

/// What a view over a range of values needs of a series: the keys with their coefficients, from the
/// top level down and from left to right, and the rows that it draws.
#[derive(Drop)]
pub struct Findings {
    pub needed: Coefs,
    pub rows: Rows,
}

/// The keys that a view over the range `lo` to `hi` needs and its rows, both by the same asks.
pub fn survey<N: Nodes>(
    alloc: Global,
    nodes: &mut N,
    axis: Axis,
    grid: Grid,
    lo: i64,
    hi: i64,
) -> Result<Findings, ScanOf>
    requires fit { (N.view nodes.old).fit }
    requires slots { axis.slots ≡ (N.view nodes.old).slots }
    requires step { 0 < axis.step }
    requires range { lo ≤ℤ hi }

    // the keys
    ensures told { (N.view nodes.old).tells →
        IfOk result (λ found. IsListOf (IsWanted (seen_of (N.view nodes.old)) axis grid lo hi) (N.view nodes.old).told found.needed) }
    ensures list { (list : List (Option ℤ)) → AgreesForView (N.view nodes.old) axis grid lo hi list →
        IfOk result (λ found. IsListOf (IsNeeded list axis grid lo hi) (λ k. Some (coef list k)) found.needed) }
    ensures order { IfOk result (λ found. AreInOrder found.needed) }
    ensures entries { IfOk result (λ found. All (IsEntry axis.slots) found.needed) }
    ensures few { IfOk result (λ found. length found.needed ≤ most_needed grid.w axis.slots) }

    // the rows
    ensures rows { (list : List (Option ℤ)) → AgreesForView (N.view nodes.old) axis grid lo hi list →
        IfOk result (λ found. AreDrawnAs grid lo hi (points_of axis grid list) found.rows) }
    ensures rising { IfOk result (λ found. AreRising found.rows) }
    ensures shown { IfOk result (λ found. All (IsShownRow grid.w) found.rows) }

    // the nodes, and what an error is
    ensures fit { (N.view nodes.new).fit }
    ensures kept { N.keeps nodes.old nodes.new }
    ensures reads { (N.view nodes.new).reads ≤ (N.view nodes.old).reads + most_reads grid.w axis.slots }
    ensures faults { (N.view nodes.old).faults ≤ (N.view nodes.new).faults }
    ensures cause { IfErr result (IsCauseFor (N.view nodes.old) (N.view nodes.new) axis grid lo hi) }
    ensures quiet { OnOk result ((N.view nodes.new).faults ≡ (N.view nodes.old).faults) }
    ensures quiet_err { IfErr result (λ e. e ≢ ScanOf.Node DiskFault → (N.view nodes.new).faults ≡ (N.view nodes.old).faults) }
{
    let explored = explore(alloc, nodes, axis, grid, lo, hi)?;
    let mut keys = explored.keys;
    sort_keys(alloc, &mut keys)?;
    Ok(Findings {
        needed: Coefs::from_vec(keys),
        rows: Rows::from_vec(explored.rows),
    })
}

/// The keys that a view over the range `lo` to `hi` needs, with their coefficients, from the top level
/// down and from left to right.
pub fn needed<N: Nodes>(
    alloc: Global,
    nodes: &mut N,
    axis: Axis,
    grid: Grid,
    lo: i64,
    hi: i64,
) -> Result<Coefs, ScanOf>
    requires fit { (N.view nodes.old).fit }
    requires slots { axis.slots ≡ (N.view nodes.old).slots }
    requires step { 0 < axis.step }
    requires range { lo ≤ℤ hi }

    ensures told { (N.view nodes.old).tells →
        IfOk result (IsListOf (IsWanted (seen_of (N.view nodes.old)) axis grid lo hi) (N.view nodes.old).told) }
    ensures list { (list : List (Option ℤ)) → AgreesForView (N.view nodes.old) axis grid lo hi list →
        IfOk result (IsListOf (IsNeeded list axis grid lo hi) (λ k. Some (coef list k))) }
    ensures order { IfOk result AreInOrder }
    ensures entries { IfOk result (All (IsEntry axis.slots)) }
    ensures few { IfOk result (λ keys. length keys ≤ most_needed grid.w axis.slots) }

    // the nodes, and what an error is
    ensures fit { (N.view nodes.new).fit }
    ensures kept { N.keeps nodes.old nodes.new }
    ensures reads { (N.view nodes.new).reads ≤ (N.view nodes.old).reads + most_reads grid.w axis.slots }
    ensures faults { (N.view nodes.old).faults ≤ (N.view nodes.new).faults }
    ensures cause { IfErr result (IsCauseFor (N.view nodes.old) (N.view nodes.new) axis grid lo hi) }
    ensures quiet { OnOk result ((N.view nodes.new).faults ≡ (N.view nodes.old).faults) }
    ensures quiet_err { IfErr result (λ e. e ≢ ScanOf.Node DiskFault → (N.view nodes.new).faults ≡ (N.view nodes.old).faults) }
{
    let explored = explore(alloc, nodes, axis, grid, lo, hi)?;
    let mut keys = explored.keys;
    sort_keys(alloc, &mut keys)?;
    Ok(Coefs::from_vec(keys))
}

/// The rows that a view over the range `lo` to `hi` draws of the stored slots in its window: their first
/// and last values have the heights of the column's own.
pub fn rows_of<N: Nodes>(
    alloc: Global,
    nodes: &mut N,
    axis: Axis,
    grid: Grid,
    lo: i64,
    hi: i64,
) -> Result<Rows, ScanOf>
    requires fit { (N.view nodes.old).fit }
    requires slots { axis.slots ≡ (N.view nodes.old).slots }
    requires step { 0 < axis.step }
    requires range { lo ≤ℤ hi }

    ensures rows { (list : List (Option ℤ)) → AgreesForView (N.view nodes.old) axis grid lo hi list →
        IfOk result (AreDrawnAs grid lo hi (points_of axis grid list)) }
    ensures rising { IfOk result AreRising }
    ensures shown { IfOk result (All (IsShownRow grid.w)) }

    // the nodes, and what an error is
    ensures fit { (N.view nodes.new).fit }
    ensures kept { N.keeps nodes.old nodes.new }
    ensures reads { (N.view nodes.new).reads ≤ (N.view nodes.old).reads + most_reads grid.w axis.slots }
    ensures faults { (N.view nodes.old).faults ≤ (N.view nodes.new).faults }
    ensures cause { IfErr result (IsCauseFor (N.view nodes.old) (N.view nodes.new) axis grid lo hi) }
    ensures quiet { OnOk result ((N.view nodes.new).faults ≡ (N.view nodes.old).faults) }
    ensures quiet_err { IfErr result (λ e. e ≢ ScanOf.Node DiskFault → (N.view nodes.new).faults ≡ (N.view nodes.old).faults) }
{
    let explored = explore(alloc, nodes, axis, grid, lo, hi)?;
    Ok(Rows::from_vec(explored.rows))
}

/// The keys that a view needs, in the order in which the walk found them, and its rows.
#[derive(Drop)]
struct Explored {
    keys: Vec<(Key, Coef)>,
    rows: Vec<Row>,
}

fn explore<N: Nodes>(
    alloc: Global,
    nodes: &mut N,
    axis: Axis,
    grid: Grid,
    lo: i64,
    hi: i64,
) -> Result<Explored, ScanOf>
    requires fit { (N.view nodes.old).fit }
    requires slots { axis.slots ≡ (N.view nodes.old).slots }
    requires step { 0 < axis.step }
    requires range { lo ≤ℤ hi }

    ensures found { IfOk result (λ found. Explores (N.view nodes.old) axis grid lo hi found.keys.items found.rows.items) }
    ensures fit { (N.view nodes.new).fit }
    ensures kept { N.keeps nodes.old nodes.new }
    ensures reads { (N.view nodes.new).reads ≤ (N.view nodes.old).reads + most_reads grid.w axis.slots }
    ensures faults { (N.view nodes.old).faults ≤ (N.view nodes.new).faults }
    ensures cause { IfErr result (IsCauseFor (N.view nodes.old) (N.view nodes.new) axis grid lo hi) }
    ensures quiet { OnOk result ((N.view nodes.new).faults ≡ (N.view nodes.old).faults) }
    ensures quiet_err { IfErr result (λ e. e ≢ ScanOf.Node DiskFault → (N.view nodes.new).faults ≡ (N.view nodes.old).faults) }
{
    wanted_keys_are_needed();
    let Some(window) = Window::of(axis, grid, lo, hi) else {
        return Ok(Explored {
            keys: Vec::new(alloc),
            rows: Vec::new(alloc),
        });
    };
    let mut keys = Vec::with_capacity(alloc, KEYS_A_COLUMN * usize::from(grid.w()))?;
    let mut table = empty_table(alloc, grid.w())?;
    let rows = explore_window(alloc, nodes, &window, &mut table, &mut keys)?;
    Ok(Explored { keys, rows })
}

/// The same over a window that shows a slot, with an empty table of its columns.
fn explore_window<N: Nodes>(
    alloc: Global,
    nodes: &mut N,
    window: &Window,
    table: &mut [Option<Blocks>],
    keys: &mut Vec<(Key, Coef)>,
) -> Result<Vec<Row>, ScanOf>
    requires fit { (N.view nodes.old).fit }
    requires slots { (N.view nodes.old).slots ≡ window.now.axis.slots }
    requires sized { length table.old ≡ window.now.grid.w }
    requires empty { All (λ entry. entry ≡ None) table.old }

    ensures found { IfOk result (λ rows. ExploresWindow (N.view nodes.old) window.now keys.old.items keys.new.items rows.items) }
    ensures fit { (N.view nodes.new).fit }
    ensures kept { N.keeps nodes.old nodes.new }
    ensures reads { (N.view nodes.new).reads ≤ (N.view nodes.old).reads + most_reads window.now.grid.w window.now.axis.slots }
    ensures faults { (N.view nodes.old).faults ≤ (N.view nodes.new).faults }
    ensures cause { IfErr result (IsCauseOf (N.view nodes.old) (N.view nodes.new) window.now) }
    ensures quiet { OnOk result ((N.view nodes.new).faults ≡ (N.view nodes.old).faults) }
    ensures quiet_err { IfErr result (λ e. e ≢ ScanOf.Node DiskFault → (N.view nodes.new).faults ≡ (N.view nodes.old).faults) }
{
    let root = nodes.root();
    let top = top_key(nodes.slots());
    let ranks = window.ranks_of(top);
    find_blocks(nodes, window, top, ranks, root, keys, table)?;
    rows_of_columns(alloc, nodes, window, table, keys)
}
