//! What a line asks.
ghost use Rattle.std.specs.Prelude.{◌≡◌, ◌+◌, ◌≤◌, [], length, IfOk};
ghost use Rattle.host_lines.specs.Grammar.{IsInRange, host_line, left, places_fault, rule_fault, rule_named, sum_named, sum_places, unless};
ghost use Rattle.host_lines.specs.Grammar.{values_named, values_places};
ghost use Rattle.host_lines.specs.declared.asked.HostLine.TheVariants.{List as ListLine};

use crate::asked::HostLine;
use crate::faults::{fault_in, rule_fault, tail_at};
use crate::places::HostPlace;
use crate::words::{rule_named, sum_named, values_named};
use request_lines::places::Place;
use request_lines::tokens::first_token;
use std::alloc::{AllocError, Global};

/// The most bytes of a line.
const LONGEST_LINE: usize = 8_192;

/// What a line asks of the host alone. The error is want of memory.
pub fn host_line(alloc: Global, line: &[u8]) -> Result<HostLine, AllocError>
    ensures asked { IfOk result (λ asked. asked ≡ host_line line.now) }
    ensures in_range { IfOk result IsInRange }
{
    if line.len() > LONGEST_LINE {
        return Ok(HostLine::Other);
    }
    let word = first_token(line);
    let at = word.len() + 1;
    if word == b"list".as_slice() {
        return Ok(list(line, at));
    }
    if word == b"values".as_slice() {
        return values(alloc, line, at);
    }
    if word == b"sum".as_slice() {
        return sum(alloc, line, at);
    }
    if word == b"sweep".as_slice() {
        return sweep(alloc, line, at);
    }
    Ok(HostLine::Other)
}

/// What a line asks that begins with `list`. Nothing may stand from this offset on.
fn list(line: &[u8], at: usize) -> HostLine
    requires short { length line.now ≤ 8192 }
    requires within { at ≤ length line.now + 1 }
    ensures asked { result ≡ unless (places_fault (length line.now) [] (left line.now at) at) ListLine }
    ensures in_range { IsInRange result }
{
    match fault_in(line, at, &[]) {
        Some(at) => HostLine::Bad { at },
        None => HostLine::List,
    }
}

/// What a line asks that begins with `values`, whose other words begin at this offset.
fn values(alloc: Global, line: &[u8], at: usize) -> Result<HostLine, AllocError>
    requires short { length line.now ≤ 8192 }
    requires within { at ≤ length line.now + 1 }
    ensures asked { IfOk result (λ asked. asked ≡ unless (places_fault (length line.now) values_places (left line.now at) at)
        (values_named (left line.now at))) }
    ensures in_range { IfOk result IsInRange }
{
    let places = [
        HostPlace::Of(Place::Name),
        HostPlace::Of(Place::Integer),
        HostPlace::Of(Place::Integer),
    ];
    match fault_in(line, at, &places) {
        Some(at) => Ok(HostLine::Bad { at }),
        None => values_named(alloc, tail_at(line, at)),
    }
}

/// What a line asks that begins with `sum`.
fn sum(alloc: Global, line: &[u8], at: usize) -> Result<HostLine, AllocError>
    requires short { length line.now ≤ 8192 }
    requires within { at ≤ length line.now + 1 }
    ensures asked { IfOk result (λ asked. asked ≡ unless (places_fault (length line.now) sum_places (left line.now at) at)
        (sum_named (left line.now at))) }
    ensures in_range { IfOk result IsInRange }
{
    let places = [
        HostPlace::Of(Place::Session),
        HostPlace::Of(Place::Name),
        HostPlace::Of(Place::Name),
        HostPlace::Factor,
        HostPlace::Factor,
        HostPlace::Of(Place::Natural),
        HostPlace::Of(Place::Natural),
        HostPlace::Of(Place::Integer),
        HostPlace::Of(Place::Integer),
        HostPlace::Of(Place::Range),
    ];
    match fault_in(line, at, &places) {
        Some(at) => Ok(HostLine::Bad { at }),
        None => sum_named(alloc, tail_at(line, at)),
    }
}

/// What a line asks that begins with `sweep`.
fn sweep(alloc: Global, line: &[u8], at: usize) -> Result<HostLine, AllocError>
    requires short { length line.now ≤ 8192 }
    requires within { at ≤ length line.now + 1 }
    ensures asked { IfOk result (λ asked. asked ≡ unless (rule_fault (length line.now) (left line.now at) at)
        (rule_named (left line.now at))) }
    ensures in_range { IfOk result IsInRange }
{
    match rule_fault(line, at) {
        Some(at) => Ok(HostLine::Bad { at }),
        None => rule_named(alloc, tail_at(line, at)),
    }
}
