ghost use Rattle.std.specs.Prelude.{◌≡◌, ℕ, ◌≤ℤ◌, ◌∷◌, [], ◌++◌, List, Some, All};
ghost use Rattle.std.specs.Int.{int_min, int_max};
ghost use Rattle.chart_grid.specs.declared.grid.Grid.{Grid};
ghost use Rattle.plain_chart.specs.Samples.{values_of, IsRange, sample_points};
ghost use Rattle.whole_number.specs.Range.{IsValue};
ghost use Rattle.plain_chart.specs.declared.sample.Sample.{Sample};
ghost use Rattle.m4_groups.specs.declared.row.Row.{Row};
ghost use Rattle.m4_groups.specs.Rows.{AreRowsOf};
ghost use Rattle.m4_groups.specs.Heights.{IsDrawable};
ghost use Rattle.row_chart.specs.Ranges.{SpansRows};

use m4_groups::{Row, Rows};
use plain_chart::ValueRange;

/// The least and the greatest value of the samples whose rows these are, and 0 and 0 where there are
/// none.
pub fn range_of_rows(rows: &Rows) -> ValueRange
    ensures range { (grid : Grid) (samples : List Sample) → AreRowsOf grid (sample_points samples) rows.now
        → IsRange (values_of samples) result }
    ensures order { (w : ℕ) → All (IsDrawable w) rows.now → result.lo ≤ℤ result.hi }
    ensures sizes { (w : ℕ) → All (IsDrawable w) rows.now → IsValue result.lo × IsValue result.hi }
{
    let mut range = None;
    for row in rows.as_slice() {
        range = Some(widened(range, *row));
    }
    range.unwrap_or(ValueRange { lo: 0, hi: 0 })
}

/// The range that holds the row's values too.
fn widened(range: Option<ValueRange>, row: Row) -> ValueRange
    ensures { (rows : List Row) → SpansRows range rows → SpansRows (Some result) (rows ++ row ∷ []) }
{
    match range {
        None => ValueRange {
            lo: row.least,
            hi: row.greatest,
        },
        Some(range) => joined(range, row),
    }
}

fn joined(range: ValueRange, row: Row) -> ValueRange
    ensures low { result.lo ≡ int_min range.lo row.least }
    ensures high { result.hi ≡ int_max range.hi row.greatest }
{
    ValueRange {
        lo: range.lo.min(row.least),
        hi: range.hi.max(row.greatest),
    }
}
