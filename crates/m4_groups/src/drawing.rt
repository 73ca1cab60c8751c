ghost use Rattle.std.specs.Prelude.{ℤ, pos, ◌<◌, ◌≤ℤ◌, All};
ghost use Rattle.line_raster.specs.Canvas.{Adds};
ghost use Rattle.line_raster.specs.Segment.{On, InFill};
ghost use Rattle.m4_groups.specs.Rows.{AreRising};
ghost use Rattle.m4_groups.specs.Heights.{row_height, row_heights, IsDrawable};
ghost use Rattle.whole_number.specs.Range.{IsValue};
ghost use Rattle.m4_groups.specs.Drawn.{Drawn, first_of, last_of};
ghost use Rattle.m4_groups.specs.declared.row.Row.{Row};
ghost use Rattle.m4_groups.specs.Laws.{AddsRasters};

use crate::row::Row;
use crate::rows::Rows;
use crate::scale::Scale;
use line_raster::{Bitmap, column_fill, segment};

/// Draws rows over the range of values `lo` to `hi`: each column is filled from the height of its
/// least to that of its greatest value, and each row's last point is joined by a segment to the next
/// row's first point. This adds the raster of every list of points whose rows have these heights.
pub fn draw_rows(bitmap: &mut Bitmap, rows: &Rows, lo: i64, hi: i64)
    requires range { lo ≤ℤ hi }
    requires low_end { IsValue lo }
    requires high_end { IsValue hi }
    requires rising { AreRising rows.now }
    requires drawable { All (IsDrawable bitmap.old.w) rows.now }

    ensures rows { Adds (λ x y. Drawn (row_heights lo hi bitmap.old.h rows.now) x (pos y)) bitmap.old bitmap.new }
    ensures raster { AddsRasters lo hi rows.now bitmap.old bitmap.new }
{
    let h = bitmap.height();
    draw_all(bitmap, Scale { lo, hi, h }, rows.as_slice());
}

// Draws the first row, and each other one with the join to it.
fn draw_all(bitmap: &mut Bitmap, scale: Scale, rows: &[Row])
    requires rising { AreRising rows.now }
    requires drawable { All (IsDrawable bitmap.old.w) rows.now }
    ensures { Adds (λ x y. Drawn (row_heights scale.lo scale.hi scale.h rows.now) x (pos y)) bitmap.old bitmap.new }
{
    if rows.is_empty() {
        return;
    }
    fill(bitmap, scale, &rows[0]);
    for i in 1..rows.len() {
        join(bitmap, scale, &rows[i - 1], &rows[i]);
        fill(bitmap, scale, &rows[i]);
    }
}

// Fills a column from the height of its least to that of its greatest value.
fn fill(bitmap: &mut Bitmap, scale: Scale, row: &Row)
    requires { IsDrawable bitmap.old.w row.now }
    ensures { let r = row_height scale.lo scale.hi scale.h row.now in
        Adds (λ x y. InFill r.column r.least r.greatest x (pos y)) bitmap.old bitmap.new }
{
    let low = scale.place(row.column, row.least);
    let high = scale.place(row.column, row.greatest);
    column_fill(bitmap, row.column, low.y, high.y);
}

// Joins the last point of a row to the first point of the next one.
fn join(bitmap: &mut Bitmap, scale: Scale, row: &Row, next: &Row)
    requires order { row.now.column < next.now.column }
    requires row { IsDrawable bitmap.old.w row.now }
    requires next { IsDrawable bitmap.old.w next.now }
    ensures { let r = row_height scale.lo scale.hi scale.h row.now in
        let s = row_height scale.lo scale.hi scale.h next.now in
        Adds (λ x y. On (last_of r) (first_of s) x (pos y)) bitmap.old bitmap.new }
{
    let last = scale.place(row.column, row.last);
    let first = scale.place(next.column, next.first);
    segment(bitmap, last, first);
}
