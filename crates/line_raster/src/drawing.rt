ghost use Rattle.std.specs.Prelude.{ℤ, pos, ◌+◌, ◌^◌, ◌<◌, ◌≤◌, ◌≤ℤ◌, unsigned_abs};
ghost use Rattle.line_raster.specs.Canvas.{Adds};
ghost use Rattle.line_raster.specs.Segment.{On, InFill};

use super::flat::draw_flat;
use super::steep::draw_steep;
use super::{Bitmap, Point};

/// Blackens the pixels of column `x` from the row `low` up to the row `high`, as far as they lie on the canvas.
pub fn column_fill(bitmap: &mut Bitmap, x: u16, low: i128, high: i128)
    requires column { x < bitmap.old.w }
    requires order { low ≤ℤ high }
    ensures { Adds (λ a b. InFill x low high a (pos b)) bitmap.old bitmap.new }
{
    let height = bitmap.height();
    let top = i128::from(height);
    if high < 0 || low >= top {
        return;
    }
    let first = if low < 0 { 0 } else { low as u16 };
    let end = if high >= top { height } else { high as u16 + 1 };
    bitmap.blacken(x, first, end);
}

/// Blackens the pixels of the segment from `p` to `q` that lie on the canvas. The ends may lie far above
/// or below it, up to 10^22 rows from row 0.
pub fn segment(bitmap: &mut Bitmap, p: Point, q: Point)
    requires order { p.x ≤ q.x }
    requires column { q.x < bitmap.old.w }
    requires first_height { unsigned_abs p.y ≤ 10 ^ 22 }
    requires last_height { unsigned_abs q.y ≤ 10 ^ 22 }
    ensures { Adds (λ x y. On p q x (pos y)) bitmap.old bitmap.new }
{
    let columns = q.x - p.x;
    let rows = q.y.abs_diff(p.y);
    if rows > u128::from(columns) {
        draw_steep(bitmap, p, q);
    } else if columns > 0 {
        draw_flat(bitmap, p, q);
    } else {
        column_fill(bitmap, p.x, p.y, p.y);
    }
}

// Blackens the pixels of column `x` from the row `low` up to the row `high`, as far as they lie on the
// canvas; none, where `high` lies below `low`.
pub(crate) fn fill_rows(bitmap: &mut Bitmap, x: u16, low: i128, high: i128)
    requires column { x < bitmap.old.w }
    ensures { Adds (λ a b. InFill x low high a (pos b)) bitmap.old bitmap.new }
{
    if low <= high {
        column_fill(bitmap, x, low, high);
    }
}
