ghost use Rattle.std.specs.Prelude.{◌≡◌, ◌&&◌, nat_le};
ghost use Rattle.whole_number.specs.Numbers.{is_natural, natural_value};
ghost use Rattle.request_lines.specs.Grammar.{allows, is_digit_token};

use crate::ranges::is_range;
use series_book::limits::{GREATEST_START, GREATEST_STEP};
use series_book::names::is_name;
use whole_number::numbers::{integer_value, is_integer, is_natural, natural_value};

/// What a place of a line allows.
#[derive(Clone, Copy)]
pub enum Place {
    /// The name of a series.
    Name,
    /// An integer of at most 10^18 in size.
    Start,
    /// A natural number from 1 to 2^31.
    Step,
    /// One digit.
    Scale,
    /// An integer.
    Integer,
    /// An integer, or a hyphen for a missing slot.
    Value,
    /// A natural number.
    Natural,
    /// A natural number from 1 to 2^32 - 1.
    Session,
    /// The word `auto`, or an integer, two points and an integer.
    Range,
    /// The word `where`.
    Where,
}

impl Place {
    /// Whether the place allows this token.
    #[tactic(auto, unfolding(crate::specs::Grammar::allows))]
    pub fn allows(self, token: &[u8]) -> bool
        ensures { result ≡ allows self token.now }
    {
        match self {
            Place::Name => is_name(token),
            Place::Start => is_integer(token)
                && integer_value(token).unsigned_abs() <= u128::from(GREATEST_START),
            Place::Step => is_between(token, 1, u64::from(GREATEST_STEP)),
            Place::Scale => is_digit(token),
            Place::Integer => is_integer(token),
            Place::Value => is_integer(token) || token == b"-".as_slice(),
            Place::Natural => is_natural(token),
            Place::Session => is_between(token, 1, u64::from(u32::MAX)),
            Place::Range => is_range(token),
            Place::Where => token == b"where".as_slice(),
        }
    }
}

/// Whether the token is a natural number in this range.
fn is_between(token: &[u8], least: u64, most: u64) -> bool
    ensures { result ≡ (is_natural token.now && nat_le least (natural_value token.now) && nat_le (natural_value token.now) most) }
{
    if !is_natural(token) {
        return false;
    }
    let value = natural_value(token);
    least <= value && value <= most
}

/// Whether the token is one digit.
fn is_digit(token: &[u8]) -> bool
    ensures { result ≡ is_digit_token token.now }
{
    match token {
        [byte] => byte.is_ascii_digit(),
        _ => false,
    }
}
