ghost use Rattle.std.specs.Prelude.{◌≡◌, ◌↔◌, ◌&&◌, ◌-ℤ◌, if◌then◌else◌, is_some, Option, Some, None, Ok, IfOk, IsErr, OnErr};
ghost use Rattle.om3_coeff.specs.declared.span.Span.{Span};
ghost use Rattle.om3_coeff.specs.Spans.{hull, IsProperIfAny, is_proper};
ghost use Rattle.whole_number.specs.Range.{IsValue};
ghost use Rattle.om3_coeff.specs.Coefs.{coef_of, parts, proper_only, left_part, right_part, is_flat, IsBad};

use crate::coef::Coef;
use crate::errors::BadCoef;
use crate::span::Span;

// The greatest value that a slot holds.
const GREATEST: i64 = 1_000_000_000_000_000_000;

/// The coefficient of a key whose halves have these spans, and the span of the key.
pub fn join(left: Option<Span>, right: Option<Span>) -> (Coef, Option<Span>)
    requires left { IsProperIfAny left }
    requires right { IsProperIfAny right }
    ensures coef { result.0 ≡ coef_of left right }
    ensures span { result.1 ≡ hull left right }
    ensures proper { IsProperIfAny result.1 }
{
    (coef_of(left, right), hull(left, right))
}

/// The spans of the two halves of a key with this span and this coefficient. It is `BadCoef` where
/// neither half has a stored value, where a difference isn't 0 though a half has none, and where a
/// recovered number is more than 10^18 from 0 or a recovered least above its greatest value.
pub fn split(span: Span, coef: Coef) -> Result<(Option<Span>, Option<Span>), BadCoef>
    ensures parts { IfOk result (λ halves. parts span coef ≡ Some halves) }
    ensures none { OnErr result (parts span coef ≡ None) }
    ensures bad { IsErr result ↔ IsBad span coef }

    // what is split is the joined span's two parts, each ordered and in range
    ensures joined { (left right : Option Span) → IsProperIfAny left → IsProperIfAny right →
        coef ≡ coef_of left right → Some span ≡ hull left right → result ≡ Ok (left, right) }
    ensures proper { IfOk result (λ halves. IsProperIfAny halves.0 × IsProperIfAny halves.1) }
    ensures whole { IfOk result (λ halves. hull halves.0 halves.1 ≡ Some span) }
{
    parts(span, coef).ok_or(BadCoef)
}

fn coef_of(left: Option<Span>, right: Option<Span>) -> Coef
    requires left { IsProperIfAny left }
    requires right { IsProperIfAny right }
    ensures { result ≡ coef_of left right }
{
    match (left, right) {
        (Some(left), Some(right)) => Coef {
            left: true,
            right: true,
            dmin: difference(left.min, right.min),
            dmax: difference(left.max, right.max),
        },
        (left, right) => Coef {
            left: left.is_some(),
            right: right.is_some(),
            dmin: 0,
            dmax: 0,
        },
    }
}

fn difference(a: i64, b: i64) -> i64
    requires first { IsValue a }
    requires second { IsValue b }
    ensures { result ≡ a -ℤ b }
{
    a - b
}

/// The span of both ranges together.
pub(crate) fn hull(left: Option<Span>, right: Option<Span>) -> Option<Span>
    ensures { result ≡ hull left right }
{
    match (left, right) {
        (None, right) => right,
        (left, None) => left,
        (Some(left), Some(right)) => Some(Span {
            min: left.min.min(right.min),
            max: left.max.max(right.max),
        }),
    }
}

// The spans of the two halves, where the coefficient splits the span.
fn parts(span: Span, coef: Coef) -> Option<(Option<Span>, Option<Span>)>
    ensures { result ≡ parts span coef }
{
    match (coef.left, coef.right) {
        (false, false) => None,
        (true, false) => left_alone(one_part(span, coef)),
        (false, true) => right_alone(one_part(span, coef)),
        (true, true) => both(left_part(span, coef), right_part(span, coef)),
    }
}

// Both, where both are there.
fn both(left: Option<Span>, right: Option<Span>) -> Option<(Option<Span>, Option<Span>)>
    ensures { result ≡ (if is_some left && is_some right then Some (left, right) else None) }
{
    if left.is_some() && right.is_some() {
        Some((left, right))
    } else {
        None
    }
}

// The left half, where it is there, and no right one.
fn left_alone(part: Option<Span>) -> Option<(Option<Span>, Option<Span>)>
    ensures { result ≡ (if is_some part then Some (part, None) else None) }
{
    if part.is_some() {
        Some((part, None))
    } else {
        None
    }
}

// The right half, where it is there, and no left one.
fn right_alone(part: Option<Span>) -> Option<(Option<Span>, Option<Span>)>
    ensures { result ≡ (if is_some part then Some (None, part) else None) }
{
    if part.is_some() {
        Some((None, part))
    } else {
        None
    }
}

// The half that alone has a stored value has the whole span.
fn one_part(span: Span, coef: Coef) -> Option<Span>
    ensures { result ≡ (if is_flat coef && is_proper span then Some span else None) }
{
    if coef.dmin != 0 || coef.dmax != 0 {
        return None;
    }
    checked(span)
}

fn left_part(span: Span, coef: Coef) -> Option<Span>
    ensures { result ≡ proper_only (left_part span coef) }
{
    checked(Span {
        min: left_min(span, coef),
        max: left_max(span, coef),
    })
}

fn right_part(span: Span, coef: Coef) -> Option<Span>
    ensures { result ≡ proper_only (right_part span coef) }
{
    checked(Span {
        min: right_min(span, coef),
        max: right_max(span, coef),
    })
}

// The ends of the halves. Where one doesn't fit in 64 bits it is no value, and what is answered for it
// isn't either.
fn left_min(span: Span, coef: Coef) -> i64
    ensures value { IsValue result → result ≡ (left_part span coef).min }
    ensures exact { IsValue (left_part span coef).min → result ≡ (left_part span coef).min }
{
    if coef.dmin > 0 {
        return span.min.saturating_add(coef.dmin);
    }
    span.min
}

fn left_max(span: Span, coef: Coef) -> i64
    ensures value { IsValue result → result ≡ (left_part span coef).max }
    ensures exact { IsValue (left_part span coef).max → result ≡ (left_part span coef).max }
{
    if coef.dmax < 0 {
        return span.max.saturating_add(coef.dmax);
    }
    span.max
}

fn right_min(span: Span, coef: Coef) -> i64
    ensures value { IsValue result → result ≡ (right_part span coef).min }
    ensures exact { IsValue (right_part span coef).min → result ≡ (right_part span coef).min }
{
    if coef.dmin < 0 {
        return span.min.saturating_sub(coef.dmin);
    }
    span.min
}

fn right_max(span: Span, coef: Coef) -> i64
    ensures value { IsValue result → result ≡ (right_part span coef).max }
    ensures exact { IsValue (right_part span coef).max → result ≡ (right_part span coef).max }
{
    if coef.dmax > 0 {
        return span.max.saturating_sub(coef.dmax);
    }
    span.max
}

// The span, where it is ordered and in range.
fn checked(span: Span) -> Option<Span>
    ensures { result ≡ proper_only span }
{
    if fits(span) { Some(span) } else { None }
}

// Whether a span is ordered and in range.
#[tactic(auto, unfolding(crate::specs::Spans::is_proper))]
fn fits(span: Span) -> bool
    ensures { result ≡ is_proper span }
{
    -GREATEST <= span.min && span.min <= span.max && span.max <= GREATEST
}
