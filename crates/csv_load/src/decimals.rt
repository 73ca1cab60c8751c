ghost use Rattle.std.specs.Prelude.{◌≡◌, ℕ, ℤ, pos, ◌-ℤ◌, ◌∷◌, ◌+◌, ◌*◌, ◌^◌, ◌<◌, ◌≤◌, IfSome, IfNone, List, position};
ghost use Rattle.std.specs.List.{before_first, after_first};
ghost use Rattle.std.specs.Str.Parse.{AllDigits, digits_value_after};
ghost use Rattle.csv_load.specs.Decimals.{SpellsDecimal, SpellsScaled, is_point, EndsInPoint};

/// From here on a number of at most 19 digits has no room for another digit.
const FULL: u64 = 1_000_000_000_000_000_000;

/// The number that the text is, times 10^scale: an optional `-`, digits, and optionally a point and 1
/// to `scale` digits. `None` for every other text, and where that number has more than 19 digits.
pub(crate) fn decimal(text: &[u8], scale: u8) -> Option<i128>
    ensures found { IfSome result (λ z. SpellsDecimal scale text.now z) }
    ensures none { IfNone result ((z : ℤ) → SpellsDecimal scale text.now z → ⊥) }
{
    if let Some(rest) = behind_minus(text) {
        let size = scaled(rest, scale)?;
        return Some(negated(size));
    }
    let size = scaled(text, scale)?;
    Some(i128::from(size))
}

/// The bytes behind a `-` in front.
fn behind_minus(text: &[u8]) -> Option<&[u8]>
    ensures some { IfSome result (λ rest. text.now ≡ 45 ∷ rest.now) }
    ensures none { IfNone result ((rest : List ℕ) → text.now ≡ 45 ∷ rest → ⊥) }
{
    if text.is_empty() || text[0] != b'-' {
        return None;
    }
    Some(&text[1..])
}

/// The number below 0 of this size.
fn negated(size: u64) -> i128
    ensures { result ≡ pos 0 -ℤ pos size }
{
    -i128::from(size)
}

/// The same without a sign.
fn scaled(text: &[u8], scale: u8) -> Option<u64>
    ensures found { IfSome result (λ n. SpellsScaled scale text.now n) }
    ensures none { IfNone result ((n : ℕ) → SpellsScaled scale text.now n → ⊥) }
{
    let (whole, places) = parts(text)?;
    if whole.is_empty() || places.len() > usize::from(scale) {
        return None;
    }
    let before = digits_after(0, whole)?;
    let value = digits_after(before, places)?;
    with_zeros(value, usize::from(scale) - places.len())
}

/// The bytes in front of the first point and those behind it, one at least; all bytes and none
/// where there is no point.
fn parts(text: &[u8]) -> Option<(&[u8], &[u8])>
    ensures whole { IfSome result (λ pair. pair.0.now ≡ before_first is_point text.now) }
    ensures places { IfSome result (λ pair. pair.1.now ≡ after_first is_point text.now) }
    ensures some { IfSome result (λ pair. EndsInPoint text.now → ⊥) }
    ensures none { IfNone result (EndsInPoint text.now) }
{
    let Some(at) = point(text) else {
        return Some((text, &text[text.len()..]));
    };
    if at + 1 == text.len() {
        return None;
    }
    Some((&text[..at], &text[at + 1..]))
}

/// The place of the first point.
fn point(text: &[u8]) -> Option<usize>
    ensures { result ≡ position is_point text.now }
{
    text.iter().position(|byte| *byte == b'.')
}

/// The number of at most 19 digits that the digits write behind those of `start`.
fn digits_after(start: u64, digits: &[u8]) -> Option<u64>
    requires { start < 10 ^ 19 }
    ensures found { IfSome result (λ n. AllDigits 10 digits.now × (n ≡ digits_value_after 10 start digits.now) × (n < 10 ^ 19)) }
    ensures none { IfNone result (AllDigits 10 digits.now → digits_value_after 10 start digits.now < 10 ^ 19 → ⊥) }
{
    let mut value = start;
    for digit in digits {
        if !digit.is_ascii_digit() || value >= FULL {
            return None;
        }
        value = value * 10 + u64::from(*digit - b'0');
    }
    Some(value)
}

/// The number of at most 19 digits with so many zeros behind those of `start`.
fn with_zeros(start: u64, zeros: usize) -> Option<u64>
    requires { start < 10 ^ 19 }
    ensures found { IfSome result (λ n. (n ≡ start * 10 ^ zeros) × (n < 10 ^ 19)) }
    ensures none { IfNone result (10 ^ 19 ≤ start * 10 ^ zeros) }
{
    let mut value = start;
    for _ in 0..zeros {
        if value >= FULL {
            return None;
        }
        value *= 10;
    }
    Some(value)
}
