//! Products of a span.
ghost use Rattle.std.specs.Prelude.{◌≡◌, ◌≤◌, ◌^◌, ◌+ℤ◌, ◌*ℤ◌, unsigned_abs};
ghost use Rattle.om3_coeff.specs.Spans.{IsProper};
ghost use Rattle.derived_chart.specs.Bounds.{AreProducts, AreSmall};
ghost use Rattle.whole_number.specs.Range.{IsValue};

use om3_coeff::Span;

/// The product of a factor with a value.
pub(crate) fn product(a: i64, x: i64) -> i128
    requires factor { unsigned_abs a ≤ 10 ^ 9 }
    requires value { IsValue x }
    ensures is { result ≡ a *ℤ x }
    ensures small { unsigned_abs result ≤ 10 ^ 27 }
{
    i128::from(a) * i128::from(x)
}

/// The sums of two pairs of numbers.
pub(crate) fn both(x: &(i128, i128), y: &(i128, i128)) -> (i128, i128)
    requires first { AreSmall x.now }
    requires second { AreSmall y.now }
    ensures low { result.0 ≡ x.now.0 +ℤ y.now.0 }
    ensures high { result.1 ≡ x.now.1 +ℤ y.now.1 }
{
    (x.0 + y.0, x.1 + y.1)
}

/// Between which numbers the products of `a` with the values of a span lie.
pub(crate) fn products(a: i64, span: Span) -> (i128, i128)
    requires factor { unsigned_abs a ≤ 10 ^ 9 }
    requires proper { IsProper span }
    ensures { AreProducts a span result }
{
    let first = product(a, span.min);
    let last = product(a, span.max);
    if a < 0 { (last, first) } else { (first, last) }
}
