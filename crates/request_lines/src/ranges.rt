ghost use Rattle.std.specs.Prelude.{◌≡◌, ◌<◌, ◌≤◌, ◌==◌, length, IsTrue, IfSome, position};
ghost use Rattle.whole_number.specs.Numbers.{integer_value};
ghost use Rattle.request_lines.specs.Ranges.{low_end, is_fixed, is_range, range_of};

use whole_number::numbers::{integer_value, is_integer};

/// The range of values that a view asks for.
#[derive(Clone, Copy)]
pub enum RangeWord {
    /// The least and the greatest value of the kept points.
    Auto,
    /// From `lo` to `hi`.
    Fixed { lo: i128, hi: i128 },
}

/// Whether the token is `auto`, or an integer, two points and an integer.
pub fn is_range(token: &[u8]) -> bool
    ensures { result ≡ is_range token.now }
{
    token == b"auto".as_slice() || is_fixed(token)
}

/// The range that the token names.
#[tactic(auto, unfolding(crate::specs::Ranges::is_fixed, crate::specs::Ranges::range_of))]
pub fn range_of(token: &[u8]) -> RangeWord
    requires { IsTrue (is_range token.now) }
    ensures { result ≡ range_of token.now }
{
    if token == b"auto".as_slice() {
        return RangeWord::Auto;
    }
    let low = low_end(token);
    let lo = integer_value(low);
    let hi = integer_value(&token[low.len()..][2..]);
    RangeWord::Fixed { lo, hi }
}

/// Whether the token is an integer, two points and an integer.
#[tactic(auto, unfolding(crate::specs::Ranges::is_fixed))]
fn is_fixed(token: &[u8]) -> bool
    ensures { result ≡ is_fixed token.now }
{
    let low = low_end(token);
    let rest = &token[low.len()..];
    rest.len() >= 2
        && rest[0] == b'.'
        && rest[1] == b'.'
        && is_integer(low)
        && is_integer(&rest[2..])
}

/// The bytes before the first point.
fn low_end(token: &[u8]) -> &[u8]
    ensures low { result.now ≡ low_end token.now }
    ensures within { length result.now ≤ length token.now }
{
    match first_point(token) {
        Some(end) => &token[..end],
        None => token,
    }
}

/// The place of the first point.
fn first_point(token: &[u8]) -> Option<usize>
    ensures place { result ≡ position (λ byte. byte == 46) token.now }
    ensures within { IfSome result (λ place. place < length token.now) }
{
    token.iter().position(|byte| *byte == b'.')
}
