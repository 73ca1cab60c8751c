ghost use Rattle.std.specs.Prelude.{◌↔◌, ◌≤ℤ◌, IsTrue};
ghost use Rattle.view_keys.specs.Flat.{IsFlat};

use chart_grid::height_of;
use om3_coeff::Span;

/// Whether the least and the greatest value of a span have one height, over the range `lo` to `hi` on
/// `h` rows of pixels.
pub fn is_flat(span: Span, lo: i64, hi: i64, h: u16) -> bool
    requires { lo ≤ℤ hi }
    ensures { IsTrue result ↔ IsFlat lo hi h span }
{
    height_of(span.min, lo, hi, h) == height_of(span.max, lo, hi, h)
}
