ghost use Rattle.std.specs.Prelude.{◌≡◌, ◌<◌, ◌≤◌, ◌^◌};
ghost use Rattle.om3_coeff.specs.Keys.{end_slot};
ghost use Rattle.om3_coeff.specs.Spans.{IsProper};
ghost use Rattle.query_rewriter.specs.Kept.{passes};
ghost use Rattle.filter_scan.specs.Taken.{IsSlotRow};
ghost use Rattle.filter_scan.specs.Shares.{IsShare, IsAnswerOn, IsWhole};

use crate::scans::Scan;
use m4_groups::Row;
use om3_coeff::{Key, Span};
use query_rewriter::on_slots;
use value_filter::{BoxAnswer, Filter};

/// From this level on the two ways to the ends of a range have fewer keys than the range.
const WHOLE_FROM: u8 = 3;

/// What a scan takes of a key's range, as far as is known from the key's span.
#[derive(Clone, Copy)]
pub(crate) enum Share {
    /// No value.
    Nothing,
    /// All values, which lie in one column.
    Everything { column: u16 },
    /// It isn't known.
    Part,
}

/// What a scan takes of the range of a key with this span.
pub(crate) fn share_of(scan: &Scan, filter: &Option<Filter>, key: Key, span: Span) -> Share
    requires small { end_slot key < 2 ^ 63 }
    requires proper { IsProper span }
    ensures { IsShare scan.now filter.now key span result }
{
    let from = key.first().max(scan.from);
    let end = key.end().min(scan.end);
    if end <= from {
        return Share::Nothing;
    }
    match answer_on(scan, filter, (from, end), span) {
        BoxAnswer::Nothing => Share::Nothing,
        BoxAnswer::All => whole_share(scan, key),
        BoxAnswer::Mixed => Share::Part,
    }
}

/// The share of a key's range of which all values are taken that are at slots of the scan.
fn whole_share(scan: &Scan, key: Key) -> Share
    requires small { end_slot key < 2 ^ 63 }
    ensures { IsWhole scan.now key result }
{
    let (first, end) = (key.first(), key.end());
    if key.level < WHOLE_FROM || first < scan.from || scan.end < end {
        return Share::Part;
    }
    let column = scan.column_of(first);
    if scan.column_of(end - 1) == column {
        Share::Everything { column }
    } else {
        Share::Part
    }
}

/// The filter's answer on some slots of a scan and the values of a span. Where there is no filter, all
/// points are taken.
fn answer_on(scan: &Scan, filter: &Option<Filter>, slots: (u64, u64), span: Span) -> BoxAnswer
    requires some { slots.0 < slots.1 }
    requires from { scan.now.from ≤ slots.0 }
    requires end { slots.1 ≤ scan.now.end }
    requires proper { IsProper span }
    ensures { IsAnswerOn scan.now filter.now slots span result }
{
    match filter {
        None => BoxAnswer::All,
        Some(filter) => on_slots(filter, scan.axis, scan.grid, slots, (span.min, span.max)),
    }
}

/// The row of the value of one slot, where the scan takes it.
pub(crate) fn row_of_slot(
    scan: &Scan,
    filter: &Option<Filter>,
    slot: u64,
    value: i64,
) -> Option<Row>
    ensures { IsSlotRow scan.now filter.now slot value result }
{
    if slot < scan.from || scan.end <= slot {
        return None;
    }
    if !passes(filter, scan.time_of(slot), value) {
        return None;
    }
    Some(Row {
        column: scan.column_of(slot),
        first: value,
        least: value,
        greatest: value,
        last: value,
    })
}

/// Whether a filter, where there is one, holds of a point.
fn passes(filter: &Option<Filter>, t: i64, v: i64) -> bool
    ensures { result ≡ passes filter.now (record { time = t; value = v }) }
{
    match filter {
        None => true,
        Some(filter) => filter.holds(t, v),
    }
}
