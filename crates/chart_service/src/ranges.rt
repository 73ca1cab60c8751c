//! The range of values that a view asks for.
ghost use Rattle.std.specs.Prelude.{◌≡◌, IsTrue, false, nat_lt, unsigned_abs};
ghost use Rattle.whole_number.specs.declared.limits.TheConstants.{GREATEST_VALUE};
ghost use Rattle.whole_number.specs.Range.{IsValue};
ghost use Rattle.zoom_session.specs.Views.{IsRangeSpec};
ghost use Rattle.chart_service.specs.Viewing.{IsBadRange, IsGoodRange, range_spec};

use request_lines::RangeWord;
use whole_number::limits::GREATEST_VALUE;
use zoom_session::RangeSpec;

/// Whether the ends of a range are out of order, or one passes 10^18 in size.
pub fn is_bad_range(word: RangeWord) -> bool
    ensures bad { IsTrue result → IsBadRange word }
    ensures good { result ≡ false → IsGoodRange word }
{
    match word {
        RangeWord::Auto => false,
        RangeWord::Fixed { lo, hi } => lo > hi || is_too_large(lo) || is_too_large(hi),
    }
}

/// Whether a number passes 10^18 in size.
fn is_too_large(value: i128) -> bool
    ensures { result ≡ nat_lt GREATEST_VALUE (unsigned_abs value) }
{
    value.unsigned_abs() > u128::from(GREATEST_VALUE)
}

/// The range of a view by the word that asks for it.
pub(crate) fn range_spec(word: RangeWord) -> RangeSpec
    requires { IsGoodRange word }
    ensures range { result ≡ range_spec word }
    ensures in_range { IsRangeSpec result }
{
    match word {
        RangeWord::Auto => RangeSpec::Auto,
        RangeWord::Fixed { lo, hi } => RangeSpec::Fixed {
            lo: narrowed(lo),
            hi: narrowed(hi),
        },
    }
}

/// A number of at most 10^18 in size, in 64 bits.
pub fn narrowed(value: i128) -> i64
    requires { IsValue value }
    ensures { result ≡ value }
{
    value as i64
}
