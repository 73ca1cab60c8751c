ghost use Rattle.std.specs.Prelude.{◌≡◌, ◌<◌, ◌+ℤ◌, ◌↔◌, pos, FitsSigned, IfSome, IfNone, IsTrue, unsigned_abs};
ghost use Rattle.std.specs.Int.{w64};
ghost use Rattle.whole_number.specs.declared.limits.TheConstants.{GREATEST_TIME};

use whole_number::limits::GREATEST_TIME;

/// The time `by` after `t`.
pub fn later(t: i64, by: u64) -> i64
    requires { FitsSigned w64 (t +ℤ pos by) }
    ensures { result ≡ t +ℤ pos by }
{
    (i128::from(t) + i128::from(by)) as i64
}

/// The end of a window that is moved, if it can be one.
pub(crate) fn moved(end: i64, by: i128) -> Option<i128>
    ensures end { IfSome result (λ z. z ≡ end +ℤ by) }
    ensures far { IfNone result (GREATEST_TIME < unsigned_abs (end +ℤ by)) }
{
    i128::from(end).checked_add(by)
}

/// Whether a time is too far from 0 for an end of a window.
pub(crate) fn is_far(end: i128) -> bool
    ensures { IsTrue result ↔ (GREATEST_TIME < unsigned_abs end) }
{
    end.unsigned_abs() > u128::from(GREATEST_TIME)
}
