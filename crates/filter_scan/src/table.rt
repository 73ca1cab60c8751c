ghost use Rattle.std.specs.Prelude.{◌≡◌, ◌<◌, [], ◌∷◌, ◌++◌, Option, None, Some, IfOk, OnOk, All, length};
ghost use Rattle.filter_scan.specs.Table.{joined, with_row, entries};

use m4_groups::Row;
use std::alloc::{AllocError, Global};

/// A table in which no column has a row yet.
pub(crate) fn empty_table(alloc: Global, columns: u16) -> Result<Vec<Option<Row>>, AllocError>
    ensures sized { IfOk result (λ table. length table.items ≡ columns) }
    ensures empty { IfOk result (λ table. All (λ entry. entry ≡ None) table.items) }
{
    let mut table = Vec::with_capacity(alloc, usize::from(columns))?;
    for _ in 0..columns {
        table.push(None)?;
    }
    Ok(table)
}

/// Puts a row behind that of its column.
pub(crate) fn add_row(table: &mut [Option<Row>], row: Row)
    requires { row.column < length table.old }
    ensures { table.new ≡ with_row table.old row }
{
    let place = usize::from(row.column);
    table[place] = Some(joined(table[place], row));
}

/// The row of two ranges of a column, one behind the other, by the row of the first one, if it has one,
/// and that of the second.
fn joined(first: Option<Row>, second: Row) -> Row
    ensures { result ≡ joined first second }
{
    match first {
        None => second,
        Some(first) => both(first, second),
    }
}

/// The same where both have a row.
fn both(first: Row, second: Row) -> Row
    ensures { result ≡ joined (Some first) second }
{
    Row {
        column: second.column,
        first: first.first,
        least: first.least.min(second.least),
        greatest: first.greatest.max(second.greatest),
        last: second.last,
    }
}

/// The rows of the columns that have one.
pub(crate) fn rows_in(alloc: Global, table: &[Option<Row>]) -> Result<Vec<Row>, AllocError>
    ensures { IfOk result (λ rows. rows.items ≡ entries table.now) }
{
    let mut rows = Vec::new(alloc);
    for entry in table {
        push_entry(&mut rows, *entry)?;
    }
    Ok(rows)
}

/// Puts the row of a column behind the others, where it has one.
fn push_entry(rows: &mut Vec<Row>, entry: Option<Row>) -> Result<(), AllocError>
    ensures { OnOk result (rows.new.items ≡ rows.old.items ++ entries (entry ∷ [])) }
{
    if let Some(row) = entry {
        rows.push(row)?;
    }
    Ok(())
}
