ghost use Rattle.std.specs.Prelude.{◌≡◌, pos, ◌+◌, ◌*◌, ◌^◌, ◌<◌, ◌≤◌, unsigned_abs};
ghost use Rattle.line_raster.specs.Canvas.{Adds};
ghost use Rattle.line_raster.specs.Segment.{InColumn, columns, rows, towards};

use super::ideal::row_towards;
use super::{Bitmap, Point};

// Draws a segment that isn't higher than wide, a pixel in each column.
pub(crate) fn draw_flat(bitmap: &mut Bitmap, p: Point, q: Point)
    requires order { p.x < q.x }
    requires column { q.x < bitmap.old.w }
    requires wide { rows p q ≤ columns p q }
    requires first_height { unsigned_abs p.y ≤ 10 ^ 22 }
    ensures { Adds (λ x y. InColumn p q x (pos y)) bitmap.old bitmap.new }
{
    let columns = u32::from(q.x - p.x);
    let rows = q.y.abs_diff(p.y) as u32;
    let mut moved = Moved {
        rows: 0,
        error: columns,
    };
    for n in 0..columns + 1 {
        blacken_moved(bitmap, p.x + n as u16, p.y, q.y, moved.rows);
        moved = next_moved(moved, columns, rows);
    }
}

// How far a segment has moved from its first row in a column: in column n it is `2 * n * rows + columns`
// by `2 * columns`, rounded down. The error term is the rest, so that one column more needs no division.
#[derive(Clone, Copy)]
struct Moved {
    rows: u32,
    error: u32,
}

// The same one column further.
fn next_moved(moved: Moved, columns: u32, rows: u32) -> Moved
    requires wide { rows ≤ columns }
    requires narrow { columns < 2 ^ 16 }
    requires near { moved.rows ≤ rows }
    requires error { moved.error < 2 * columns }
    ensures sum { result.rows * (2 * columns) + result.error ≡ moved.rows * (2 * columns) + moved.error + 2 * rows }
    ensures small { result.error < 2 * columns }
{
    let error = moved.error + 2 * rows;
    if error < 2 * columns {
        Moved {
            rows: moved.rows,
            error,
        }
    } else {
        Moved {
            rows: moved.rows + 1,
            error: error - 2 * columns,
        }
    }
}

// Blackens the pixel of column `x` that is `n` rows from the row `from` towards the row `to`, if it lies on the canvas.
fn blacken_moved(bitmap: &mut Bitmap, x: u16, from: i128, to: i128, n: u32)
    requires column { x < bitmap.old.w }
    requires start { unsigned_abs from ≤ 10 ^ 22 }
    ensures { Adds (λ a b. (a ≡ x) × (pos b ≡ towards from to n)) bitmap.old bitmap.new }
{
    let y = row_towards(from, to, u128::from(n));
    let height = bitmap.height();
    if y >= 0 && y < i128::from(height) {
        bitmap.blacken_one(x, y as u16);
    }
}
