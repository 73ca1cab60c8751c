//! What the places of these lines allow.
ghost use Rattle.std.specs.Prelude.{◌≡◌, ◌&&◌, ◌^◌, nat_le, unsigned_abs};
ghost use Rattle.whole_number.specs.Numbers.{integer_value, is_integer};
ghost use Rattle.host_lines.specs.Grammar.{fits};

use derive_command::GREATEST_FACTOR;
use request_lines::places::Place;
use whole_number::numbers::{integer_value, is_integer};

/// What a place of a line allows.
#[derive(Clone, Copy)]
pub(crate) enum HostPlace {
    /// What that place of a request line allows.
    Of(Place),
    /// An integer of at most 10^9 in size.
    Factor,
}

impl HostPlace {
    /// Whether the place allows this token.
    #[tactic(auto, unfolding(crate::specs::Grammar::fits))]
    pub(crate) fn allows(self, token: &[u8]) -> bool
        ensures { result ≡ fits self token.now }
    {
        match self {
            HostPlace::Of(place) => place.allows(token),
            HostPlace::Factor => is_factor(token),
        }
    }
}

/// Whether the token is an integer of at most 10^9 in size.
fn is_factor(token: &[u8]) -> bool
    ensures { result ≡ (is_integer token.now && nat_le (unsigned_abs (integer_value token.now)) (10 ^ 9)) }
{
    is_integer(token) && integer_value(token).unsigned_abs() <= GREATEST_FACTOR
}
