ghost use Rattle.std.specs.Prelude.{◌≡◌, pos, ◌+◌, ◌*◌, ◌^◌, ◌<◌, ◌≤◌, unsigned_abs};
ghost use Rattle.line_raster.specs.Canvas.{Adds};
ghost use Rattle.line_raster.specs.Segment.{InRow, columns, rows};
ghost use Rattle.line_raster.specs.Run.{InRun, IsBalanced, IsDrawnTo};

use super::drawing::fill_rows;
use super::{Bitmap, Point};

// Draws a segment that is higher than wide, a run of rows in each column.
pub(crate) fn draw_steep(bitmap: &mut Bitmap, p: Point, q: Point)
    requires order { p.x ≤ q.x }
    requires column { q.x < bitmap.old.w }
    requires high { columns p q < rows p q }
    requires first_height { unsigned_abs p.y ≤ 10 ^ 22 }
    requires last_height { unsigned_abs q.y ≤ 10 ^ 22 }
    ensures { Adds (λ x y. InRow p q x (pos y)) bitmap.old bitmap.new }
{
    let rows = q.y.abs_diff(p.y);
    let first = draw_runs(bitmap, p, q);
    fill_run(bitmap, q.x, p.y, q.y, first, rows + 1);
}

// Draws the runs of all columns but the last, and gives the number of rows before the last column's run.
fn draw_runs(bitmap: &mut Bitmap, p: Point, q: Point) -> u128
    requires order { p.x ≤ q.x }
    requires column { q.x < bitmap.old.w }
    requires high { columns p q < rows p q }
    requires first_height { unsigned_abs p.y ≤ 10 ^ 22 }
    requires last_height { unsigned_abs q.y ≤ 10 ^ 22 }
    ensures { IsDrawnTo p q (columns p q) result bitmap.old bitmap.new }
{
    let columns = u128::from(q.x - p.x);
    let rows = q.y.abs_diff(p.y);
    if columns == 0 {
        return 0;
    }
    let whole = rows / columns;
    let rest = rows % columns;
    let mut first = 0;
    let mut end = first_run_end(columns, rows);
    for k in 0..columns {
        fill_run(bitmap, p.x + k as u16, p.y, q.y, first, end.rows);
        first = end.rows;
        end = next_run_end(end, columns, whole, rest);
    }
    first
}

// Where the run of a column ends. The run of column k ends before row `rows * (2 * k + 1) / (2 * columns)`,
// rounded up. The error term is what rounding left over, so that one column more needs no division.
#[derive(Clone, Copy)]
struct RunEnd {
    rows: u128,
    error: u128,
}

// The end of the first column's run.
fn first_run_end(columns: u128, rows: u128) -> RunEnd
    requires some { 0 < columns }
    requires narrow { columns < 2 ^ 16 }
    requires near { rows ≤ 2 * 10 ^ 22 }
    ensures { IsBalanced rows columns 0 result.rows result.error }
{
    let sum = rows + 2 * columns - 1;
    RunEnd {
        rows: sum / (2 * columns),
        error: sum % (2 * columns),
    }
}

// The end of the next column's run, where all rows are `whole` times the columns, and `rest`.
fn next_run_end(end: RunEnd, columns: u128, whole: u128, rest: u128) -> RunEnd
    requires narrow { columns < 2 ^ 16 }
    requires near { end.rows ≤ 10 ^ 23 }
    requires step { whole ≤ 10 ^ 23 }
    requires rest { rest < columns }
    requires error { end.error < 2 * columns }
    ensures sum { result.rows * (2 * columns) + result.error ≡ end.rows * (2 * columns) + end.error + 2 * (whole * columns + rest) }
    ensures small { result.error < 2 * columns }
{
    let rows = end.rows + whole;
    let error = end.error + 2 * rest;
    if error < 2 * columns {
        RunEnd { rows, error }
    } else {
        RunEnd {
            rows: rows + 1,
            error: error - 2 * columns,
        }
    }
}

// Blackens the pixels of column `x` that are `first` or more and fewer than `end` rows from the row `from` towards the row `to`.
pub(crate) fn fill_run(bitmap: &mut Bitmap, x: u16, from: i128, to: i128, first: u128, end: u128)
    requires column { x < bitmap.old.w }
    requires start { unsigned_abs from ≤ 10 ^ 22 }
    requires way { end ≤ 10 ^ 23 }
    requires first_way { first ≤ 10 ^ 23 }
    ensures { Adds (λ a b. (a ≡ x) × InRun from to first end (pos b)) bitmap.old bitmap.new }
{
    if to < from {
        fill_rows(bitmap, x, from - end as i128 + 1, from - first as i128);
    } else {
        fill_rows(bitmap, x, from + first as i128, from + end as i128 - 1);
    }
}
