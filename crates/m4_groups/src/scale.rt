ghost use Rattle.std.specs.Prelude.{◌≡◌, ◌^◌, ◌≤◌, ◌≤ℤ◌, unsigned_abs};
ghost use Rattle.chart_grid.specs.Projection.{height};
ghost use Rattle.whole_number.specs.Range.{IsValue};

use chart_grid::height_of;
use line_raster::Point;

/// A range of values, drawn on h rows of pixels.
#[derive(Clone, Copy)]
pub(crate) struct Scale {
    pub(crate) lo: i64,
    pub(crate) hi: i64,
    pub(crate) h: u16,
    ghost rising: { lo ≤ℤ hi },
    ghost low: { IsValue lo },
    ghost rows: { h ≤ 4096 },
}

impl Scale {
    /// The point of a value in a column.
    pub(crate) fn place(self, column: u16, v: i64) -> Point
        requires { IsValue v }
        ensures point { result ≡ record { x = column; y = height v self.lo self.hi self.h } }
        ensures reached { unsigned_abs result.y ≤ 10 ^ 22 }
    {
        Point {
            x: column,
            y: height_of(v, self.lo, self.hi, self.h),
        }
    }
}
