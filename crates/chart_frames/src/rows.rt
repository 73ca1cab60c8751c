// The rows of a filtered view.
ghost use Rattle.std.specs.Prelude.{◌≡◌, ◌<◌, ◌≤◌, ◌≤ℤ◌, ◌+◌, ◌-◌, ◌++◌, ℕ, ℤ, length, IsTrue, OnErr, IfOk, IfErr};
ghost use Rattle.whole_number.specs.Range.{IsValue};
ghost use Rattle.chart_frames.specs.Format.{Format, number_bytes};
ghost use Rattle.chart_frames.specs.Reading.{Reads, read};
ghost use Rattle.chart_frames.specs.Fields.{rises, column_field, value_field, at_most_field, at_least_field, between_field, row_fields};
ghost use Rattle.chart_frames.specs.Frames.{AreOrdered, FitsRow, FitRows};
ghost use Rattle.chart_frames.specs.Spelled.{signed_bytes, two_before, row_before, rows_all_before};
ghost use Rattle.chart_frames.specs.Items.{Fails, last_column, FailsInRows};

use crate::fields::{Stop, short_at, signed_at};
use crate::heads::is_value;
use crate::item_stop::ItemStop;
use m4_groups::Row;

// Whether a column may stand behind the last one.
fn rises(last: Option<u16>, column: u16) -> bool
    ensures { result ≡ rises last column }
{
    let Some(last) = last else { return true };
    last < column
}

#[tactic(auto, unfolding(crate::specs::Fields::column_field))]
fn column_at(w: u16, last: Option<u16>, bytes: &[u8]) -> Result<(u16, &[u8]), Stop>
    ensures reads { (next : ℕ → Format) → Reads result (read (column_field w last next) bytes.now) (λ x. read (next x.0) x.1.now) }
    ensures takes { IfOk result (λ x. (x.0 < w) × IsTrue (rises last x.0) × (bytes.now ≡ number_bytes 2 x.0 ++ x.1.now)) }
{
    let (column, rest) = short_at(bytes)?;
    let in_order = rises(last, column);
    if column >= w || !in_order {
        return Err(Stop::Bad(bytes.len()));
    }
    Ok((column, rest))
}

#[tactic(auto, unfolding(crate::specs::Fields::value_field))]
pub(crate) fn value_at(bytes: &[u8]) -> Result<(i64, &[u8]), Stop>
    ensures reads { (next : ℤ → Format) → Reads result (read (value_field next) bytes.now) (λ x. read (next x.0) x.1.now) }
    ensures takes { IfOk result (λ x. IsValue x.0 × (bytes.now ≡ signed_bytes x.0 ++ x.1.now)) }
{
    let (value, rest) = signed_at(bytes)?;
    if !is_value(value) {
        return Err(Stop::Bad(bytes.len()));
    }
    Ok((value, rest))
}

#[tactic(auto, unfolding(crate::specs::Fields::at_most_field))]
fn at_most(most: i64, bytes: &[u8]) -> Result<(i64, &[u8]), Stop>
    ensures reads { (next : ℤ → Format) → Reads result (read (at_most_field most next) bytes.now) (λ x. read (next x.0) x.1.now) }
    ensures takes { IfOk result (λ x. IsValue x.0 × (x.0 ≤ℤ most) × (bytes.now ≡ signed_bytes x.0 ++ x.1.now)) }
{
    let (value, rest) = signed_at(bytes)?;
    if !is_value(value) || value > most {
        return Err(Stop::Bad(bytes.len()));
    }
    Ok((value, rest))
}

#[tactic(auto, unfolding(crate::specs::Fields::at_least_field))]
fn at_least(least: i64, bytes: &[u8]) -> Result<(i64, &[u8]), Stop>
    ensures reads { (next : ℤ → Format) → Reads result (read (at_least_field least next) bytes.now) (λ x. read (next x.0) x.1.now) }
    ensures takes { IfOk result (λ x. IsValue x.0 × (least ≤ℤ x.0) × (bytes.now ≡ signed_bytes x.0 ++ x.1.now)) }
{
    let (value, rest) = signed_at(bytes)?;
    if !is_value(value) || value < least {
        return Err(Stop::Bad(bytes.len()));
    }
    Ok((value, rest))
}

#[tactic(auto, unfolding(crate::specs::Fields::between_field))]
fn between(least: i64, greatest: i64, bytes: &[u8]) -> Result<(i64, &[u8]), Stop>
    ensures reads { (next : Format) → Reads result (read (between_field least greatest next) bytes.now) (λ x. read next x.1.now) }
    ensures takes { IfOk result (λ x. IsValue x.0 × (least ≤ℤ x.0) × (x.0 ≤ℤ greatest) × (bytes.now ≡ signed_bytes x.0 ++ x.1.now)) }
{
    let (value, rest) = signed_at(bytes)?;
    if !is_value(value) || value < least || value > greatest {
        return Err(Stop::Bad(bytes.len()));
    }
    Ok((value, rest))
}

/// The values of a row.
#[derive(Clone, Copy)]
pub struct Values {
    first: i64,
    least: i64,
    greatest: i64,
    last: i64,
}

// The first, the least, the greatest and the last value of a column.
#[tactic(auto, unfolding(crate::specs::Fields::row_fields))]
fn values_at(bytes: &[u8]) -> Result<(Values, &[u8]), Stop>
    ensures reads { (next : Format) → Reads result (read (row_fields next) bytes.now) (λ x. read next x.1.now) }
    ensures values { IfOk result (λ x. IsValue x.0.first × IsValue x.0.least × IsValue x.0.greatest × IsValue x.0.last) }
    ensures order { IfOk result (λ x. AreOrdered x.0.first x.0.least x.0.greatest x.0.last) }
    ensures takes { IfOk result (λ x. bytes.now ≡ two_before x.0.first x.0.least (two_before x.0.greatest x.0.last x.1.now)) }
{
    let (first, rest) = value_at(bytes)?;
    let (least, rest) = at_most(first, rest)?;
    let (greatest, rest) = at_least(first, rest)?;
    let (last, rest) = between(least, greatest, rest)?;
    let values = Values {
        first,
        least,
        greatest,
        last,
    };
    Ok((values, rest))
}

#[tactic(auto, unfolding(crate::specs::Spelled::row_before))]
fn row_at(w: u16, last: Option<u16>, bytes: &[u8]) -> Result<(Row, &[u8]), Stop>
    ensures reads { (next : ℕ → Format) → Reads result (read (column_field w last (λ column. row_fields (next column))) bytes.now)
        (λ x. read (next x.0.column) x.1.now) }
    ensures takes { IfOk result (λ x. FitsRow w x.0 × IsTrue (rises last x.0.column) × (bytes.now ≡ row_before x.0 x.1.now)) }
{
    let (column, rest) = column_at(w, last, bytes)?;
    let (values, rest) = values_at(rest)?;
    let row = Row {
        column,
        first: values.first,
        least: values.least,
        greatest: values.greatest,
        last: values.last,
    };
    Ok((row, rest))
}

fn last_column(rows: &[Row]) -> Option<u16>
    ensures { result ≡ last_column rows.now }
{
    if rows.is_empty() {
        return None;
    }
    Some(rows[rows.len() - 1].column)
}

// Reads one more. The bytes that follow it.
fn push_row<'a>(rows: &mut Vec<Row>, w: u16, bytes: &'a [u8]) -> Result<&'a [u8], ItemStop>
    requires { FitRows w rows.old.items }
    ensures fits { FitRows w rows.new.items }
    ensures ok { IfOk result (λ rest. (length rows.new.items ≡ length rows.old.items + 1)
        × (rows_all_before rows.new.items rest.now ≡ rows_all_before rows.old.items bytes.now)) }
    ensures unchanged { OnErr result (rows.new.items ≡ rows.old.items) }
    ensures err { IfErr result (λ e. (next : ℕ → Format)
        → Fails e (read (column_field w (last_column rows.old.items) (λ column. row_fields (next column))) bytes.now)) }
{
    match row_at(w, last_column(rows), bytes) {
        Ok((row, rest)) => match rows.push(row) {
            Ok(()) => Ok(rest),
            Err(_) => Err(ItemStop::NoMemory),
        },
        Err(stop) => Err(ItemStop::Stop(stop)),
    }
}

/// Reads on, up to so many rows. The bytes are those behind the ones that were read.
pub fn fill_rows<'a>(
    rows: &mut Vec<Row>,
    w: u16,
    count: u16,
    bytes: &'a [u8],
) -> Result<&'a [u8], ItemStop>
    requires fits { FitRows w rows.old.items }
    requires room { length rows.old.items ≤ count }
    ensures fits { FitRows w rows.new.items }
    ensures room { length rows.new.items ≤ count }
    ensures ok { IfOk result (λ rest. (length rows.new.items ≡ count)
        × (rows_all_before rows.new.items rest.now ≡ rows_all_before rows.old.items bytes.now)) }
    ensures err { IfErr result (λ e. FailsInRows w count e rows.old.items rows.new.items bytes.now) }
{
    let mut rest = bytes;
    for _ in rows.len()..count as usize {
        match push_row(rows, w, rest) {
            Ok(after) => rest = after,
            Err(stop) => return Err(stop),
        }
    }
    Ok(rest)
}
