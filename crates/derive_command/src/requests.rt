//! A line is read as a request.
ghost use Rattle.std.specs.Prelude.{◌≡◌, ◌≢◌, ◌<◌, ◌≤◌, ◌^◌, ◌∷◌, ℤ, None, Err, length, nat_le, unsigned_abs, IfNone, IfOk, IfSome, IsTrue};
ghost use Rattle.request_lines.specs.Spelling.{SpellsRange};
ghost use Rattle.request_lines.specs.Tokens.{tokens};
ghost use Rattle.request_lines.specs.declared.ranges.RangeWord.{RangeWord as RangeSaid};
ghost use Rattle.series_book.specs.Names.{is_name};
ghost use Rattle.whole_number.specs.Spelling.{SpellsInteger};
ghost use Rattle.derive_command.specs.declared.request.Request.{Request as RequestSaid};
ghost use Rattle.derive_command.specs.declared.tokens.Numbers.{Numbers as NumbersSaid};
ghost use Rattle.derive_command.specs.Requests.{IsFactor, Spells, SpellsNumbers, words_of};

use crate::request::Request;
use crate::request_error::RequestError;
use crate::tokens::{Numbers, Words};
use request_lines::RangeWord;
use request_lines::ranges::{is_range, range_of};
use request_lines::tokens::cut;
use series_book::{Name, NameError};
use std::alloc::Global;
use whole_number::{integer, natural};

/// The greatest size of a factor.
pub const GREATEST_FACTOR: u128 = 1_000_000_000;

/// The request that a line spells: `NAME NAME A B W H T0 T1 RANGE`. `NoRequest` comes exactly where it spells none.
pub fn request_of(alloc: Global, line: &[u8]) -> Result<Request, RequestError>
    ensures spelt { IfOk result (λ request. Spells request line.now) }
    ensures none { result ≡ Err RequestError.NoRequest → (request : RequestSaid) → Spells request line.now → ⊥ }
{
    let Some(words) = words_in(line) else {
        return Err(RequestError::NoRequest);
    };
    let Some(numbers) = numbers_of(&words) else {
        return Err(RequestError::NoRequest);
    };
    let first = name_of(alloc, words.first)?;
    let second = name_of(alloc, words.second)?;
    Ok(Request {
        first,
        second,
        a: numbers.a,
        b: numbers.b,
        w: numbers.w,
        h: numbers.h,
        t0: numbers.t0,
        t1: numbers.t1,
        range: numbers.range,
    })
}

/// The first two tokens, and what stands behind the space of the second; none where there are no more than two.
fn two(bytes: &[u8]) -> Option<(&[u8], &[u8], &[u8])>
    ensures two { IfSome result (λ parts. tokens bytes.now ≡ parts.0.now ∷ parts.1.now ∷ tokens parts.2.now) }
    ensures few { IfNone result (length (tokens bytes.now) ≤ 2) }
{
    let (first, behind) = cut(bytes)?;
    let (second, rest) = cut(behind)?;
    Some((first, second, rest))
}

/// The nine tokens of a line that has so many.
fn words_in(line: &[u8]) -> Option<Words<'_>>
    ensures nine { IfSome result (λ words. tokens line.now ≡ words_of words) }
    ensures other { IfNone result (length (tokens line.now) ≢ 9) }
{
    let (first, second, factors) = two(line)?;
    let (a, b, sides) = two(factors)?;
    let (w, h, times) = two(sides)?;
    let (t0, t1, range) = two(times)?;
    if cut(range).is_some() {
        return None;
    }
    Some(Words {
        first,
        second,
        a,
        b,
        w,
        h,
        t0,
        t1,
        range,
    })
}

/// The numbers and the range that the words spell.
fn numbers_of(words: &Words<'_>) -> Option<Numbers>
    ensures spelt { IfSome result (SpellsNumbers words.now) }
    ensures none { IfNone result ((numbers : NumbersSaid) → SpellsNumbers words.now numbers → ⊥) }
{
    let a = factor(words.a)?;
    let b = factor(words.b)?;
    let w = natural(words.w)?;
    let h = natural(words.h)?;
    let t0 = integer(words.t0)?;
    let t1 = integer(words.t1)?;
    let range = range(words.range)?;
    Some(Numbers {
        a,
        b,
        w,
        h,
        t0,
        t1,
        range,
    })
}

/// The factor that the token spells.
fn factor(token: &[u8]) -> Option<i64>
    ensures spelt { IfSome result (λ factor. SpellsInteger token.now factor × IsFactor factor) }
    ensures none { IfNone result ((factor : ℤ) → SpellsInteger token.now factor → IsFactor factor → ⊥) }
{
    let factor = integer(token)?;
    if !is_factor(factor) {
        return None;
    }
    Some(short(factor))
}

/// Whether a number is at most 10^9 in size.
fn is_factor(number: i128) -> bool
    ensures { result ≡ nat_le (unsigned_abs number) (10 ^ 9) }
{
    number.unsigned_abs() <= GREATEST_FACTOR
}

/// A factor in 64 bits.
fn short(factor: i128) -> i64
    requires { IsFactor factor }
    ensures { result ≡ factor }
{
    factor as i64
}

/// The range that the token spells.
fn range(token: &[u8]) -> Option<RangeWord>
    ensures spelt { IfSome result (λ range. SpellsRange range token.now) }
    ensures none { IfNone result ((range : RangeSaid) → SpellsRange range token.now → ⊥) }
{
    if !is_range(token) {
        return None;
    }
    Some(range_of(token))
}

/// The name that the token is.
fn name_of(alloc: Global, token: &[u8]) -> Result<Name, RequestError>
    ensures is { IfOk result (λ name. (name ≡ token.now) × IsTrue (is_name name)) }
    ensures none { result ≡ Err RequestError.NoRequest → IsTrue (is_name token.now) → ⊥ }
{
    match Name::new(alloc, token) {
        Ok(name) => Ok(name),
        Err(NameError::NotAName) => Err(RequestError::NoRequest),
        Err(NameError::NoMemory) => Err(RequestError::NoMemory),
    }
}
