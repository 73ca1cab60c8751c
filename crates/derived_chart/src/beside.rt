//! The slots of the second series beside those of the first one.
ghost use Rattle.std.specs.Prelude.{◌≤◌, ◌<◌, ◌^◌};
ghost use Rattle.derived_chart.specs.Bounds.{AreBefore, AreBeside};

/// How many of `count` slots of the second series stand before the time of slot `slot` of the first one.
fn before(shift: i64, count: u64, slot: u64) -> u64
    requires count { count ≤ 2 ^ 35 }
    requires slot { slot ≤ 2 ^ 35 }
    ensures { AreBefore shift count slot result }
{
    let place = i128::from(slot) + i128::from(shift);
    if place <= 0 {
        return 0;
    }
    if place >= i128::from(count) {
        return count;
    }
    place as u64
}

/// The slots of the second series, of which there are `count`, that have the times of the slots from `p` on and below `q`
/// of the first one.
pub(crate) fn beside(shift: i64, count: u64, p: u64, q: u64) -> (u64, u64)
    requires count { count ≤ 2 ^ 35 }
    requires order { p ≤ q }
    requires within { q ≤ 2 ^ 35 }
    ensures { AreBeside shift count p q result }
{
    let from = before(shift, count, p);
    let to = before(shift, count, q);
    (from, to)
}
