//! The test of a number's text, and its reading.

ghost use Rattle.std.specs.Prelude.{◌≡◌, ◌^◌, ◌<◌, IsTrue, unsigned_abs};
ghost use Rattle.std.specs.Char.{is_ascii_digit};
ghost use Rattle.std.specs.List.{list_all};
ghost use Rattle.whole_number.specs.Numbers.{is_natural, natural_value, is_negative, is_integer, integer_value};

/// The most digits of a number.
pub const DIGITS: usize = 19;

/// Whether the text is 1 to 19 digits, of which the first isn't 0 where there are more.
#[tactic(auto, unfolding(crate::specs::Numbers::is_natural))]
pub fn is_natural(text: &[u8]) -> bool
    ensures { result ≡ is_natural text.now }
{
    are_digits(text)
        && !text.is_empty()
        && text.len() <= DIGITS
        && (text.len() == 1 || text[0] != b'0')
}

/// Whether each byte is a digit.
fn are_digits(bytes: &[u8]) -> bool
    ensures { result ≡ list_all is_ascii_digit bytes.now }
{
    bytes.iter().all(|byte| byte.is_ascii_digit())
}

/// The number that the digits write.
pub fn natural_value(text: &[u8]) -> u64
    requires { IsTrue (is_natural text.now) }
    ensures value { result ≡ natural_value text.now }
    ensures digits { result < 10 ^ 19 }
{
    let mut value = 0;
    for byte in text {
        value = value * 10 + u64::from(*byte - b'0');
    }
    value
}

/// Whether the text is a natural number, or a hyphen and a natural number that doesn't begin
/// with 0.
#[tactic(auto, unfolding(crate::specs::Numbers::is_integer))]
pub fn is_integer(text: &[u8]) -> bool
    ensures { result ≡ is_integer text.now }
{
    if is_negative(text) {
        text.len() >= 2 && text[1] != b'0' && is_natural(&text[1..])
    } else {
        is_natural(text)
    }
}

/// The number that an optional hyphen and the digits write.
#[tactic(auto, unfolding(crate::specs::Numbers::is_integer, crate::specs::Numbers::integer_value))]
pub fn integer_value(text: &[u8]) -> i128
    requires { IsTrue (is_integer text.now) }
    ensures value { result ≡ integer_value text.now }
    ensures digits { unsigned_abs result < 10 ^ 19 }
{
    if is_negative(text) {
        -i128::from(natural_value(&text[1..]))
    } else {
        i128::from(natural_value(text))
    }
}

/// Whether the text begins with a hyphen.
fn is_negative(text: &[u8]) -> bool
    ensures { result ≡ is_negative text.now }
{
    !text.is_empty() && text[0] == b'-'
}
