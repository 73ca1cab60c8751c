//! Whole numbers: their text, and the range of the values and the times of series.
//!
//! A number's text is decimal digits without a plus sign or a leading zero, at most 19 of them.
//! A text is a number's spelling or it is refused: each number has exactly one. Nineteen digits
//! hold every 64-bit value of the store and more, so a caller that has a smaller range tests that
//! range itself, and can tell a number that is too large from a text that is no number. A value is
//! at most 10^18 in size, and a time at most 2 * 10^18: no call here tests that.
#![tactic(auto)]

ghost use Rattle.std.specs.Prelude.{◌≡◌, ℕ, ℤ, IfSome, IfNone, is_some};
ghost use Rattle.whole_number.specs.Numbers.{is_natural, natural_value, is_integer, integer_value};
ghost use Rattle.whole_number.specs.Spelling.{SpellsNatural, SpellsInteger};

pub mod limits;
pub mod numbers;
pub mod slot_times;

use crate::numbers::{integer_value, is_integer, is_natural, natural_value};

/// The number that `text` spells: `0`, or 1 to 19 decimal digits of which the first isn't 0.
/// `None` for every other text, the empty one too.
pub fn natural(text: &[u8]) -> Option<u64>
    ensures found { IfSome result (λ n. SpellsNatural text.now n) }
    ensures none { IfNone result ((n : ℕ) → SpellsNatural text.now n → ⊥) }

    // So the test of a text holds exactly where it spells a number, and the reading gives that one.
    ensures test { is_some result ≡ is_natural text.now }
    ensures value { IfSome result (λ n. n ≡ natural_value text.now) }
{
    if !is_natural(text) {
        return None;
    }
    Some(natural_value(text))
}

/// The number that `text` spells, with a `-` in front of one below 0. `None` for every other text;
/// `-0` and `+1` are such texts.
pub fn integer(text: &[u8]) -> Option<i128>
    ensures found { IfSome result (λ z. SpellsInteger text.now z) }
    ensures none { IfNone result ((z : ℤ) → SpellsInteger text.now z → ⊥) }
    ensures test { is_some result ≡ is_integer text.now }
    ensures value { IfSome result (λ z. z ≡ integer_value text.now) }
{
    if !is_integer(text) {
        return None;
    }
    Some(integer_value(text))
}
