ghost use Rattle.std.specs.Prelude.{◌≡◌, ℤ, ◌+◌, ◌*◌, ◌<◌, ◌≤◌, List, Option, Some, IfOk, IfErr, OnOk, length, ◌≢◌};
ghost use Rattle.om3_coeff.specs.declared.errors.NodeError.TheVariants.{DiskFault};
ghost use Rattle.om3_coeff.specs.Keys.{height, page_levels};
ghost use Rattle.view_keys.specs.Wanted.{Seen};
ghost use Rattle.needed_nodes.specs.Serving.{Serves, ServesList, IsCauseOf};
ghost use Rattle.needed_nodes.specs.Blocks.{AreBlocks, AreEnds, AreBlocksIfAny, AreEndsIfAny, IsSpanBelowIfAny, HoldBlocks, HoldEnds};
ghost use Rattle.needed_nodes.specs.Blocks.{HoldSpans};
ghost use Rattle.needed_nodes.specs.Columns.{top_end, HasEnds, HasColumn, HasColumns, row_by};

use crate::blocks::Blocks;
use crate::ends::{BOTH, EndValues, FIRST, LAST, follow};
use crate::scan_of::ScanOf;
use crate::window::Window;
use m4_groups::Row;
use om3_coeff::{Coef, Key, Nodes, Span};
use std::alloc::Global;

/// Asks the keys that may hold the first or the last stored slot of a column, keeps each with its
/// coefficient, and answers the rows of the columns.
pub(crate) fn rows_of_columns<N: Nodes>(
    alloc: Global,
    nodes: &mut N,
    window: &Window,
    table: &[Option<Blocks>],
    keys: &mut Vec<(Key, Coef)>,
) -> Result<Vec<Row>, ScanOf>
    requires fit { (N.view nodes.old).fit }
    requires slots { (N.view nodes.old).slots ≡ window.now.axis.slots }
    requires sized { length table.now ≡ window.now.grid.w }
    requires held { HoldBlocks window.now (top_end window.now) table.now }
    requires ends { (S : Seen) → Serves (N.view nodes.old) window.now S → HoldEnds S window.now window.now.end table.now }
    requires spans { (list : List (Option ℤ)) → ServesList (N.view nodes.old) window.now list
        → HoldSpans list window.now window.now.end table.now }

    ensures fit { (N.view nodes.new).fit }
    ensures kept { N.keeps nodes.old nodes.new }
    ensures reads { (N.view nodes.new).reads ≤ (N.view nodes.old).reads + window.now.grid.w * (2 * height
        window.now.axis.slots + 2 * page_levels window.now.axis.slots) }
    ensures faults { (N.view nodes.old).faults ≤ (N.view nodes.new).faults }
    ensures cause { IfErr result (IsCauseOf (N.view nodes.old) (N.view nodes.new) window.now) }
    ensures quiet { OnOk result ((N.view nodes.new).faults ≡ (N.view nodes.old).faults) }
    ensures quiet_err { IfErr result (λ e. e ≢ ScanOf.Node DiskFault → (N.view nodes.new).faults ≡ (N.view nodes.old).faults) }
    ensures found { IfOk result (λ rows. HasColumns
        (N.view nodes.old) window.now window.now.grid.w keys.old.items keys.new.items rows.items) }
{
    let mut rows = Vec::new(alloc);
    for column in 0..window.grid.w() {
        add_column(
            nodes,
            window,
            column,
            table[usize::from(column)],
            keys,
            &mut rows,
        )?;
    }
    Ok(rows)
}

/// The same for one column, with its entry in the table.
fn add_column<N: Nodes>(
    nodes: &mut N,
    window: &Window,
    column: u16,
    blocks: Option<Blocks>,
    keys: &mut Vec<(Key, Coef)>,
    rows: &mut Vec<Row>,
) -> Result<(), ScanOf>
    requires fit { (N.view nodes.old).fit }
    requires slots { (N.view nodes.old).slots ≡ window.now.axis.slots }
    requires drawn { column < window.now.grid.w }
    requires held { AreBlocksIfAny window.now (top_end window.now) column blocks }
    requires ends { (S : Seen) → Serves (N.view nodes.old) window.now S → AreEndsIfAny S window.now window.now.end column blocks }
    requires spans { (list : List (Option ℤ)) → ServesList (N.view nodes.old) window.now list
        → IsSpanBelowIfAny list window.now window.now.end column blocks }

    ensures fit { (N.view nodes.new).fit }
    ensures kept { N.keeps nodes.old nodes.new }
    ensures reads { (N.view nodes.new).reads ≤ (N.view nodes.old).reads + (2 * height window.now.axis.slots + 2 * page_levels
        window.now.axis.slots) }
    ensures faults { (N.view nodes.old).faults ≤ (N.view nodes.new).faults }
    ensures cause { IfErr result (IsCauseOf (N.view nodes.old) (N.view nodes.new) window.now) }
    ensures quiet { OnOk result ((N.view nodes.new).faults ≡ (N.view nodes.old).faults) }
    ensures quiet_err { IfErr result (λ e. e ≢ ScanOf.Node DiskFault → (N.view nodes.new).faults ≡ (N.view nodes.old).faults) }
    ensures found { OnOk result (HasColumn (N.view nodes.old) window.now column keys.old.items keys.new.items rows.old.items
        rows.new.items) }
{
    let Some(found) = blocks else {
        return Ok(());
    };
    let ends = ends_of(nodes, window, column, found, keys)?;
    rows.push(row_by(column, found.span, ends))?;
    Ok(())
}

/// The first and the last stored value of a column with these blocks.
fn ends_of<N: Nodes>(
    nodes: &mut N,
    window: &Window,
    column: u16,
    blocks: Blocks,
    keys: &mut Vec<(Key, Coef)>,
) -> Result<EndValues, ScanOf>
    requires fit { (N.view nodes.old).fit }
    requires slots { (N.view nodes.old).slots ≡ window.now.axis.slots }
    requires held { AreBlocks window.now (top_end window.now) column blocks }
    requires ends { (S : Seen) → Serves (N.view nodes.old) window.now S → AreEnds S window.now window.now.end column blocks }

    ensures fit { (N.view nodes.new).fit }
    ensures kept { N.keeps nodes.old nodes.new }
    ensures reads { (N.view nodes.new).reads ≤ (N.view nodes.old).reads + (2 * height window.now.axis.slots + 2 * page_levels
        window.now.axis.slots) }
    ensures faults { (N.view nodes.old).faults ≤ (N.view nodes.new).faults }
    ensures cause { IfErr result (IsCauseOf (N.view nodes.old) (N.view nodes.new) window.now) }
    ensures quiet { OnOk result ((N.view nodes.new).faults ≡ (N.view nodes.old).faults) }
    ensures quiet_err { IfErr result (λ e. e ≢ ScanOf.Node DiskFault → (N.view nodes.new).faults ≡ (N.view nodes.old).faults) }
    ensures found { IfOk result (HasEnds (N.view nodes.old) window.now column blocks.span keys.old.items keys.new.items) }
{
    let first = blocks.first;
    let last = blocks.last;
    if last.key.first() <= first.key.first() {
        let span = Some(first.span);
        return follow(nodes, window, column, first.key, span, BOTH, keys);
    }
    let start = Some(first.span);
    let front = follow(nodes, window, column, first.key, start, FIRST, keys)?;
    let stop = Some(last.span);
    let back = follow(nodes, window, column, last.key, stop, LAST, keys)?;
    Ok(EndValues {
        first: front.first,
        last: back.last,
    })
}

/// The row of a column by the span of its blocks and by the values at its ends.
fn row_by(column: u16, span: Span, ends: EndValues) -> Row
    ensures { result ≡ row_by column span ends }
{
    Row {
        column,
        first: ends.first.unwrap_or(span.min),
        least: span.min,
        greatest: span.max,
        last: ends.last.unwrap_or(span.min),
    }
}
