ghost use Rattle.std.specs.Prelude.{◌≡◌, ℤ, ◌+◌, ◌*◌, ◌<◌, ◌≤◌, List, Option, Some, IfOk, IfErr, OnOk, length, ◌≢◌};
ghost use Rattle.om3_coeff.specs.Keys.{first_slot, end_slot};
ghost use Rattle.whole_number.specs.Range.{IsValue};
ghost use Rattle.om3_coeff.specs.View.{Agrees, HasCause, MayAsk};
ghost use Rattle.om3_coeff.specs.Walks.{IsReached, StaysBelow};
ghost use Rattle.filter_scan.specs.Asks.{most_asks};
ghost use Rattle.filter_scan.specs.Ends.{IsWholeRow};
ghost use Rattle.filter_scan.specs.Table.{AreShown, IsColumnRow};
ghost use Rattle.filter_scan.specs.Taken.{Fills, FillsSlot};

use crate::ends::{Side, end_value};
use crate::scans::Scan;
use crate::shares::{Share, row_of_slot, share_of};
use crate::table::add_row;
use m4_groups::Row;
use om3_coeff::{Key, NodeError, Nodes, Span, ask};
use value_filter::Filter;

/// Puts what a scan takes of the range of a key with this span into the table, which has a place for
/// each column and holds what the scan takes before that range.
pub(crate) fn fill_below<N: Nodes>(
    nodes: &mut N,
    scan: &Scan,
    filter: &Option<Filter>,
    key: Key,
    span: Option<Span>,
    table: &mut [Option<Row>],
) -> Result<(), NodeError>
    requires fit { (N.view nodes.old).fit }
    requires reached { IsReached (N.view nodes.old) key span }
    requires follows { MayAsk (N.view nodes.old) key }
    requires sized { length table.old ≡ scan.now.grid.w }

    ensures list { (list : List (Option ℤ)) → Agrees (N.view nodes.old) list → Fills scan.now filter.now list (first_slot key) table.old →
        OnOk result (Fills scan.now filter.now list (end_slot key) table.new) }
    ensures shown { AreShown table.old → OnOk result (AreShown table.new) }
    ensures fit { (N.view nodes.new).fit }
    ensures kept { N.keeps nodes.old nodes.new }
    ensures below { OnOk result (StaysBelow key (N.view nodes.old).asked (N.view nodes.new).asked) }
    ensures reads { (N.view nodes.new).reads ≤ (N.view nodes.old).reads + most_asks scan.now key }
    ensures faults { (N.view nodes.old).faults ≤ (N.view nodes.new).faults }
    ensures cause { IfErr result (HasCause (N.view nodes.old) (N.view nodes.new)) }
    ensures quiet { OnOk result ((N.view nodes.new).faults ≡ (N.view nodes.old).faults) }
    ensures quiet_err { IfErr result (λ e. e ≢ NodeError.DiskFault → (N.view nodes.new).faults ≡ (N.view nodes.old).faults) }
{
    let Some(span) = span else {
        return Ok(());
    };
    if key.level == 0 {
        fill_slot(scan, filter, key.index, span.min, table);
        return Ok(());
    }
    match share_of(scan, filter, key, span) {
        Share::Nothing => Ok(()),
        Share::Everything { column } => {
            let row = whole_row(nodes, column, key, span)?;
            add_row(table, row);
            Ok(())
        }
        Share::Part => {
            let (left, right) = ask(nodes, key, span)?;
            fill_below(nodes, scan, filter, key.left(), left, table)?;
            fill_below(nodes, scan, filter, key.right(), right, table)?;
            Ok(())
        }
    }
}

/// Puts the value of a slot into the table, where the scan takes it.
fn fill_slot(scan: &Scan, filter: &Option<Filter>, slot: u64, value: i64, table: &mut [Option<Row>])
    requires sized { length table.old ≡ scan.now.grid.w }
    requires value { IsValue value }
    ensures slot { FillsSlot scan.now filter.now slot value table.old table.new }
    ensures shown { AreShown table.old → AreShown table.new }
{
    if let Some(row) = row_of_slot(scan, filter, slot, value) {
        add_row(table, row);
    }
}

/// The row of all stored values in the range of a key with this span.
fn whole_row<N: Nodes>(nodes: &mut N, column: u16, key: Key, span: Span) -> Result<Row, NodeError>
    requires fit { (N.view nodes.old).fit }
    requires reached { IsReached (N.view nodes.old) key (Some span) }
    requires follows { MayAsk (N.view nodes.old) key }
    requires low { 1 ≤ key.level }

    ensures list { (list : List (Option ℤ)) → Agrees (N.view nodes.old) list
        → IfOk result (IsWholeRow list (first_slot key) (end_slot key)) }
    ensures shown { IfOk result (IsColumnRow column) }
    ensures fit { (N.view nodes.new).fit }
    ensures kept { N.keeps nodes.old nodes.new }
    ensures below { OnOk result (StaysBelow key (N.view nodes.old).asked (N.view nodes.new).asked) }
    ensures reads { (N.view nodes.new).reads ≤ (N.view nodes.old).reads + 2 * key.level }
    ensures faults { (N.view nodes.old).faults ≤ (N.view nodes.new).faults }
    ensures cause { IfErr result (HasCause (N.view nodes.old) (N.view nodes.new)) }
    ensures quiet { OnOk result ((N.view nodes.new).faults ≡ (N.view nodes.old).faults) }
    ensures quiet_err { IfErr result (λ e. e ≢ NodeError.DiskFault → (N.view nodes.new).faults ≡ (N.view nodes.old).faults) }
{
    let first = end_value(nodes, Side::First, key, span)?;
    let last = end_value(nodes, Side::Last, key, span)?;
    Ok(Row {
        column,
        first,
        least: span.min,
        greatest: span.max,
        last,
    })
}
