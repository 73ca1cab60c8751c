ghost use Rattle.std.specs.Prelude.{IfOk, IfErr};
ghost use Rattle.csv_load.specs.Fields.{Fields, trimmed};
ghost use Rattle.csv_load.specs.Rows.{Says, Refuses, FieldsSay, FieldsFail, IsBadFields};

use crate::decimals::decimal;
use crate::fields::{only_record, pair_of, plain_pair, trimmed};
use crate::row::{Row, RowCause, RowError};
use std::alloc::Global;
use whole_number::integer;

/// The row that the line is, of a series of this scale.
///
/// The line is one record of two fields, as `csv` reads it by commas and double quotes; spaces at
/// the ends of a field don't count. The fields `time` and `value` are the header. Else the first
/// field is `0`, or an optional `-` and 1 to 19 digits of which the first isn't 0. The second one is
/// empty or `-`, where there is no reading, or a decimal: an optional `-`, digits, and optionally a
/// point and 1 to `scale` digits. Times 10^scale it has at most 19 digits, leading zeros aside.
///
/// `BadRow` comes exactly where the line is no row. Its cause is the first that stands of `Fields`,
/// `Time` and `Value`. `NoMemory` comes for want of memory alone, and says nothing of the line.
pub fn parse_row(alloc: Global, line: &[u8], scale: u8) -> Result<Row, RowError>
    ensures row { IfOk result (λ row. Says scale line.now row) }
    ensures error { IfErr result (λ error. Refuses scale line.now error) }
{
    if let Some((time, value)) = plain_pair(line) {
        return row_of_fields(time, value, scale);
    }
    let Some(record) = only_record(alloc, line)? else {
        return Err(RowError::BadRow(RowCause::Fields));
    };
    let Some((time, value)) = pair_of(&record) else {
        return Err(RowError::BadRow(RowCause::Fields));
    };
    row_of_fields(time, value, scale)
}

/// The row that two fields are without the spaces at their ends, or the first thing that is wrong with them.
fn row_of_fields(time: &[u8], value: &[u8], scale: u8) -> Result<Row, RowError>
    ensures row { IfOk result (λ row. FieldsSay scale (record { time = trimmed time.now; value = trimmed value.now }) row) }
    ensures error { IfErr result (λ error. IsBadFields scale (record { time = trimmed time.now; value = trimmed value.now }) error) }
{
    match row_of(trimmed(time), trimmed(value), scale) {
        Ok(row) => Ok(row),
        Err(cause) => Err(RowError::BadRow(cause)),
    }
}

/// The row that two fields are, or the first thing that is wrong with them.
fn row_of(time: &[u8], value: &[u8], scale: u8) -> Result<Row, RowCause>
    ensures row { IfOk result (λ row. FieldsSay scale (record { time = time.now; value = value.now }) row) }
    ensures cause { IfErr result (λ cause. FieldsFail scale (record { time = time.now; value = value.now }) cause) }
{
    if time == b"time".as_slice() && value == b"value".as_slice() {
        return Ok(Row::Header);
    }
    let Some(time) = integer(time) else {
        return Err(RowCause::Time);
    };
    if value.is_empty() || value == b"-".as_slice() {
        return Ok(Row::Skip { time });
    }
    let Some(value) = decimal(value, scale) else {
        return Err(RowCause::Value);
    };
    Ok(Row::Point { time, value })
}
