ghost use Rattle.std.specs.Prelude.{◌≡◌, ◌≢◌, ◌≤◌, ◌∷◌, ◌++◌, length, option_map, slice_index, IfOk, IfErr, IfSome, IsTrue};
ghost use Rattle.std.specs.List.{prefix_len, suffix_len, AllPass};
ghost use Rattle.csv.specs.Reading.{records, default_config, strip_bom};
ghost use Rattle.csv.specs.Records.{fields_of};
ghost use Rattle.csv_load.specs.Fields.{only_record, pair_of, is_plain, is_space, trimmed};
ghost use Rattle.csv_load.specs.declared.row.RowError.TheVariants.{NoMemory};

use crate::row::RowError;
use csv::{ByteRecord, ReaderBuilder};
use std::alloc::Global;

/// The record of a line that has one record. A line without a line end of its own may still have
/// none, or several: a carriage return ends a record.
pub(crate) fn only_record(alloc: Global, line: &[u8]) -> Result<Option<ByteRecord>, RowError>
    ensures ok { IfOk result (λ found. option_map fields_of found ≡ only_record (records default_config (strip_bom line.now))) }
    ensures err { IfErr result (λ error. error ≡ NoMemory) }
{
    let mut reader = ReaderBuilder::new()
        .has_headers(false)
        .flexible(true)
        .from_reader(alloc, line);
    let mut first = ByteRecord::new(alloc);
    let mut second = ByteRecord::new(alloc);
    let Ok(has_first) = reader.read_byte_record(&mut first) else {
        return Err(RowError::NoMemory);
    };
    if !has_first {
        return Ok(None);
    }
    let Ok(has_second) = reader.read_byte_record(&mut second) else {
        return Err(RowError::NoMemory);
    };
    if has_second {
        return Ok(None);
    }
    Ok(Some(first))
}

/// The bytes before and behind the comma of a line with one comma, in which no other byte means anything to
/// `csv`, and at whose front no byte order mark stands. They are the fields that `csv` reads of it.
pub(crate) fn plain_pair(line: &[u8]) -> Option<(&[u8], &[u8])>
    ensures pair { IfSome result (λ pair. line.now ≡ pair.0.now ++ 44 ∷ pair.1.now) }
    ensures time { IfSome result (λ pair. AllPass is_plain pair.0.now) }
    ensures value { IfSome result (λ pair. AllPass is_plain pair.1.now) }
    ensures unmarked { IfSome result (λ pair. slice_index line.now 0 ≢ 0xEF) }
{
    let at = line.iter().position(|byte| *byte == b',')?;
    let time = &line[..at];
    let value = &line[at + 1..];
    if line[0] == 0xEF || !are_plain(time) || !are_plain(value) {
        return None;
    }
    Some((time, value))
}

/// Whether no byte means anything to `csv`.
fn are_plain(bytes: &[u8]) -> bool
    ensures { IsTrue result → AllPass is_plain bytes.now }
{
    bytes.iter().all(|byte| *byte != b',' && *byte != b'"' && *byte != b'\n' && *byte != b'\r')
}

/// The fields of a record that has two fields.
pub(crate) fn pair_of(row: &ByteRecord) -> Option<(&[u8], &[u8])>
    ensures { option_map (λ pair. record { time = pair.0.now; value = pair.1.now }) result ≡ pair_of (fields_of row.now) }
{
    if row.len() != 2 {
        return None;
    }
    let time = row.get(0)?;
    let value = row.get(1)?;
    Some((time, value))
}

/// The field without the spaces at its ends.
pub(crate) fn trimmed(field: &[u8]) -> &[u8]
    ensures { result.now ≡ trimmed field.now }
{
    let rest = &field[spaces_in_front(field)..];
    &rest[..rest.len() - spaces_at_end(rest)]
}

/// The number of spaces at the front.
fn spaces_in_front(field: &[u8]) -> usize
    ensures count { result ≡ prefix_len is_space field.now }
    ensures within { result ≤ length field.now }
{
    field.iter().take_while(|byte| **byte == b' ').count()
}

/// The number of spaces at the end.
fn spaces_at_end(field: &[u8]) -> usize
    ensures count { result ≡ suffix_len is_space field.now }
    ensures within { result ≤ length field.now }
{
    field.iter().rev().take_while(|byte| **byte == b' ').count()
}
