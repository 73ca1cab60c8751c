//! What the words behind the first one name, once each is what its place allows.
ghost use Rattle.std.specs.Prelude.{◌≡◌, ◌≢◌, ◌∷◌, [], length, IfNone, IfOk, IfSome, IsTrue};
ghost use Rattle.request_lines.specs.Tokens.{tokens};
ghost use Rattle.request_lines.specs.Spelling.{IsSession};
ghost use Rattle.request_lines.specs.declared.places.Place.TheVariants.{Session};
ghost use Rattle.whole_number.specs.Numbers.{natural_value};
ghost use Rattle.host_lines.specs.declared.places.HostPlace.TheVariants.{Of};
ghost use Rattle.host_lines.specs.Grammar.{Allow, IsInRange, fits, rule_named, sum_named, sum_places, values_named, values_places};

use crate::asked::HostLine;
use derive_command::request_of;
use request_lines::tokens::cut;
use retain_command::rule_of;
use series_book::Name;
use std::alloc::{AllocError, Global};
use whole_number::numbers::{integer_value, natural_value};

/// The three tokens of bytes that have so many.
fn three(bytes: &[u8]) -> Option<(&[u8], &[u8], &[u8])>
    ensures three { IfSome result (λ parts. tokens bytes.now ≡ parts.0.now ∷ parts.1.now ∷ parts.2.now ∷ []) }
    ensures other { IfNone result (length (tokens bytes.now) ≢ 3) }
{
    let (first, behind) = cut(bytes)?;
    let (second, third) = cut(behind)?;
    if cut(third).is_some() {
        return None;
    }
    Some((first, second, third))
}

/// The name of these bytes, which are one.
fn name_of(alloc: Global, bytes: &[u8]) -> Result<Name, AllocError>
    ensures { IfOk result (λ name. name ≡ bytes.now) }
{
    match Name::new(alloc, bytes) {
        Ok(name) => Ok(name),
        Err(_) => Err(AllocError),
    }
}

/// The number of the session that the token names.
#[tactic(auto, unfolding(crate::specs::Grammar::fits, request_lines::specs::Grammar::allows))]
fn session_of(token: &[u8]) -> u32
    requires { IsTrue (fits (Of Session) token.now) }
    ensures number { result ≡ natural_value token.now }
    ensures in_range { IsSession result }
{
    natural_value(token) as u32
}

/// What the words behind `values` name.
pub(crate) fn values_named(alloc: Global, words: &[u8]) -> Result<HostLine, AllocError>
    requires { Allow values_places (tokens words.now) }
    ensures asked { IfOk result (λ asked. asked ≡ values_named (tokens words.now)) }
    ensures in_range { IfOk result IsInRange }
{
    let Some((name, t0, t1)) = three(words) else {
        return Ok(HostLine::Other);
    };
    let t0 = integer_value(t0);
    let t1 = integer_value(t1);
    let name = name_of(alloc, name)?;
    Ok(HostLine::Values { name, t0, t1 })
}

/// What the words behind `sum` name.
pub(crate) fn sum_named(alloc: Global, words: &[u8]) -> Result<HostLine, AllocError>
    requires { Allow sum_places (tokens words.now) }
    ensures asked { IfOk result (λ asked. asked ≡ sum_named (tokens words.now)) }
    ensures in_range { IfOk result IsInRange }
{
    let Some((session, request)) = cut(words) else {
        return Ok(HostLine::Other);
    };
    let session = session_of(session);
    match request_of(alloc, request) {
        Ok(request) => Ok(HostLine::Sum { session, request }),
        Err(_) => Err(AllocError),
    }
}

/// What the words behind `sweep` name.
pub(crate) fn rule_named(alloc: Global, words: &[u8]) -> Result<HostLine, AllocError>
    ensures asked { IfOk result (λ asked. asked ≡ rule_named (tokens words.now)) }
    ensures in_range { IfOk result IsInRange }
{
    match rule_of(alloc, words) {
        Ok(rule) => Ok(HostLine::Sweep(rule)),
        Err(_) => Err(AllocError),
    }
}
