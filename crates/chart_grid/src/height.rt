ghost use Rattle.std.specs.Prelude.{◌≡◌, ◌-◌, ◌<◌, ◌^◌, ◌-ℤ◌, ◌*ℤ◌, ◌<ℤ◌, ◌≤ℤ◌, pos, neg_ℤ, ◌*◌, ◌≤◌, unsigned_abs};
ghost use Rattle.chart_grid.specs.Numbers.{IsFloor, distance};
ghost use Rattle.chart_grid.specs.Projection.{height};

use crate::share::{gap, share, share_up};

/// The height of the value `v` above the bottom row, where `lo` is at the bottom row and `hi` at the
/// top one of `h` rows. It is rounded towards minus infinity and isn't clamped, so a value outside
/// the range has a height off the canvas. All heights are 0 where `lo` is `hi`.
pub fn height_of(v: i64, lo: i64, hi: i64, h: u16) -> i128
    requires { lo ≤ℤ hi }
    ensures value { result ≡ height v lo hi h }
    ensures floor { lo <ℤ hi → IsFloor ((v -ℤ lo) *ℤ pos (h - 1)) (distance lo hi) result }
    ensures flat { lo ≡ hi → result ≡ pos 0 }
    ensures size { unsigned_abs result ≤ distance lo v * (h - 1) }
{
    if lo == hi {
        return 0;
    }
    let steps = h.saturating_sub(1);
    let span = gap(lo, hi);
    if lo <= v {
        above(share(gap(lo, v), steps, span))
    } else {
        below(share_up(gap(lo, v), steps, span))
    }
}

// The number n.
fn above(n: u128) -> i128
    requires { n < 2 ^ 127 }
    ensures { result ≡ pos n }
{
    n as i128
}

// The number -n.
fn below(n: u128) -> i128
    requires { n < 2 ^ 127 }
    ensures { result ≡ neg_ℤ (pos n) }
{
    -above(n)
}
