//! Where a line is at fault.
ghost use Rattle.std.specs.Prelude.{◌≡◌, ◌+◌, ◌≤◌, drop, length, IfSome};
ghost use Rattle.std.specs.List.{before_first};
ghost use Rattle.request_lines.specs.Tokens.{is_space};
ghost use Rattle.host_lines.specs.Grammar.{left, places_fault, rule_fault};

use crate::places::HostPlace;
use request_lines::places::Place;
use request_lines::tokens::first_token;

/// The bytes from an offset on.
pub(crate) fn tail_at(line: &[u8], at: usize) -> &[u8]
    requires { at ≤ length line.now }
    ensures { result.now ≡ drop at line.now }
{
    &line[at..]
}

/// The token that begins at an offset.
fn token_at(line: &[u8], at: usize) -> &[u8]
    requires { at ≤ length line.now }
    ensures token { result.now ≡ before_first is_space (drop at line.now) }
    ensures within { at + length result.now ≤ length line.now }
{
    first_token(&line[at..])
}

/// The offset of the first token from an offset on that isn't what its place allows, or the line's length where a token is
/// missing; none where these tokens are what these places allow.
pub(crate) fn fault_in(line: &[u8], start: usize, places: &[HostPlace]) -> Option<u32>
    requires short { length line.now ≤ 8192 }
    requires within { start ≤ length line.now + 1 }
    ensures fault { result ≡ places_fault (length line.now) places.now (left line.now start) start }
    ensures in_line { IfSome result (λ at. at ≤ length line.now) }
{
    let mut at = start;
    let mut rest = places;
    while let Some((place, others)) = rest.split_first() {
        if at > line.len() {
            return Some(line.len() as u32);
        }
        let token = token_at(line, at);
        if !place.allows(token) {
            return Some(at as u32);
        }
        at += token.len() + 1;
        rest = others;
    }
    if at <= line.len() {
        return Some(at as u32);
    }
    None
}

/// The same of the tokens behind `sweep`.
pub(crate) fn rule_fault(line: &[u8], at: usize) -> Option<u32>
    requires short { length line.now ≤ 8192 }
    requires within { at ≤ length line.now + 1 }
    ensures fault { result ≡ rule_fault (length line.now) (left line.now at) at }
    ensures in_line { IfSome result (λ at. at ≤ length line.now) }
{
    if at > line.len() {
        return Some(line.len() as u32);
    }
    let word = token_at(line, at);
    let behind = at + word.len() + 1;
    if word == b"before".as_slice() {
        return fault_in(
            line,
            behind,
            &[HostPlace::Of(Place::Name), HostPlace::Of(Place::Integer)],
        );
    }
    if word == b"last".as_slice() {
        return fault_in(
            line,
            behind,
            &[HostPlace::Of(Place::Name), HostPlace::Of(Place::Natural)],
        );
    }
    if word == b"free".as_slice() {
        return fault_in(line, behind, &[HostPlace::Of(Place::Natural)]);
    }
    Some(at as u32)
}
