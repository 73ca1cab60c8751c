ghost use Rattle.std.specs.Prelude.{◌≡◌, pos, ◌<◌, ◌≤ℤ◌};
ghost use Rattle.line_raster.specs.Canvas.{Adds};
ghost use Rattle.view_cover.specs.Area.{InArea, both_areas};

use line_raster::{Bitmap, column_fill};

/// A rectangle of pixels: the columns from `left` to `right`, and the rows from `low` to `high`, which
/// may lie off the canvas.
#[derive(Clone, Copy)]
pub(crate) struct Area {
    pub(crate) left: u16,
    pub(crate) right: u16,
    pub(crate) low: i128,
    pub(crate) high: i128,
}

/// The least rectangle that holds two of them.
pub(crate) fn both(a: Area, b: Area) -> Area
    ensures { result ≡ both_areas a b }
{
    Area {
        left: a.left.min(b.left),
        right: a.right.max(b.right),
        low: a.low.min(b.low),
        high: a.high.max(b.high),
    }
}

/// Blackens the pixels of a rectangle that lie on the canvas.
pub(crate) fn fill(bitmap: &mut Bitmap, area: Area)
    requires columns { area.right < bitmap.old.w }
    requires order { area.low ≤ℤ area.high }
    ensures { Adds (λ x y. InArea area x (pos y)) bitmap.old bitmap.new }
{
    let _width = bitmap.width();
    for x in area.left..area.right + 1 {
        column_fill(bitmap, x, area.low, area.high);
    }
}
