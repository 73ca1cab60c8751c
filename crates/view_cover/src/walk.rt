//! The walk that draws a cover: over the seen keys that meet the window, from left to right.

ghost use Rattle.std.specs.Prelude.{◌≡◌, pos, ◌<◌, ◌≤◌, ◌≤ℤ◌, IfOk, IfSome, IfNone, Some};
ghost use Rattle.line_raster.specs.Canvas.{Adds};
ghost use Rattle.om3_coeff.specs.Keys.{first_slot, end_slot, left_of, right_of};
ghost use Rattle.om3_coeff.specs.Spans.{IsProperIfAny};
ghost use Rattle.view_cover.specs.Front.{IsLowest};
ghost use Rattle.chart_grid.specs.Projection.{height};
ghost use Rattle.view_cover.specs.Area.{InArea, with_last};
ghost use Rattle.view_cover.specs.Walk.{IsCoverOf, scene_of, IsReached, IsLastBefore, InPart};

use crate::area::{Area, both, fill};
use crate::scope::Scope;
use crate::teller::Teller;
use chart_grid::height_of;
use chart_grid::laws::heights_rise;
use line_raster::Bitmap;
use om3_coeff::laws::{ranges_hold_those_below, split_and_join_undo_each_other, what_is_known};
use om3_coeff::{Key, Span, split, top_key};
use std::alloc::{AllocError, Global};

/// The cover of a view, by what is told.
pub fn draw_cover<T: Teller>(alloc: Global, teller: &T, scope: &Scope) -> Result<Bitmap, AllocError>
    requires fit { T.fit teller.now }
    requires proper { IsProperIfAny scope.now.root }
    ensures { IfOk result (IsCoverOf (scene_of scope.now (T.told teller.now))) }
{
    let mut bitmap = Bitmap::new(alloc, scope.grid.w(), scope.grid.h())?;
    what_is_known();
    let top = top_key(scope.axis.slots);
    draw_below(teller, scope, top, scope.root, None, &mut bitmap);
    Ok(bitmap)
}

/// Draws what the keys of the front in a key's range add, where the last one before has the box `last`,
/// and answers the box of the last one then.
fn draw_below<T: Teller>(
    teller: &T,
    scope: &Scope,
    key: Key,
    span: Option<Span>,
    last: Option<Area>,
    bitmap: &mut Bitmap,
) -> Option<Area>
    requires reached { IsReached (scene_of scope.now (T.told teller.now)) key span }
    requires last { IsLastBefore (scene_of scope.now (T.told teller.now)) (first_slot key) last }
    requires proper { IsProperIfAny scope.now.root }
    requires wide { bitmap.old.w ≡ scope.now.grid.w }
    requires fit { T.fit teller.now }
    ensures last { IsLastBefore (scene_of scope.now (T.told teller.now)) (end_slot key) result }
    ensures drawn { Adds (λ x y. InPart (scene_of scope.now (T.told teller.now)) (first_slot key) (end_slot key) x (pos y)) bitmap.old
        bitmap.new }
{
    heights_rise();
    ranges_hold_those_below();
    split_and_join_undo_each_other();
    what_is_known();
    let Some(span) = span else {
        return last;
    };
    let Some((left, right)) = scope.columns_of(key) else {
        return last;
    };
    let Some((first, second)) = halves_of(teller, scope, key, span) else {
        let area = area_of(scope, span, left, right);
        add(bitmap, last, area);
        return Some(area);
    };
    let middle = draw_below(teller, scope, key.left(), first, last, bitmap);
    draw_below(teller, scope, key.right(), second, middle, bitmap)
}

/// What is seen of the two halves of a seen key's range, or nothing where no half is seen.
fn halves_of<T: Teller>(
    teller: &T,
    scope: &Scope,
    key: Key,
    span: Span,
) -> Option<(Option<Span>, Option<Span>)>
    requires reached { IsReached (scene_of scope.now (T.told teller.now)) key (Some span) }
    requires fit { T.fit teller.now }
    ensures low { IfSome result (λ halves. 1 ≤ key.level) }
    ensures left { IfSome result (λ halves. IsReached (scene_of scope.now (T.told teller.now)) (left_of key) halves.0) }
    ensures right { IfSome result (λ halves. IsReached (scene_of scope.now (T.told teller.now)) (right_of key) halves.1) }
    ensures none { IfNone result (IsLowest (scene_of scope.now (T.told teller.now)) key span) }
{
    heights_rise();
    ranges_hold_those_below();
    split_and_join_undo_each_other();
    what_is_known();
    let _scope = scope;
    if key.level == 0 {
        return None;
    }
    let Some(coef) = teller.coef(key) else {
        return None;
    };
    let Ok(halves) = split(span, coef) else {
        return None;
    };
    Some(halves)
}

/// The box of a key with this span and these columns.
fn area_of(scope: &Scope, span: Span, left: u16, right: u16) -> Area
    ensures left { result.left ≡ left }
    ensures right { result.right ≡ right }
    ensures low { result.low ≡ height span.min scope.now.lo scope.now.hi scope.now.grid.h }
    ensures high { result.high ≡ height span.max scope.now.lo scope.now.hi scope.now.grid.h }
{
    let h = scope.grid.h();
    Area {
        left,
        right,
        low: height_of(span.min, scope.lo, scope.hi, h),
        high: height_of(span.max, scope.lo, scope.hi, h),
    }
}

/// Draws the box of a key of the front, or the least rectangle that holds it and the box before it.
fn add(bitmap: &mut Bitmap, last: Option<Area>, area: Area)
    requires columns { area.right < bitmap.old.w }
    requires order { area.low ≤ℤ area.high }
    requires before { IfSome last (λ before. before.right < bitmap.old.w) }
    ensures { Adds (λ x y. InArea (with_last last area) x (pos y)) bitmap.old bitmap.new }
{
    match last {
        None => fill(bitmap, area),
        Some(before) => fill(bitmap, both(before, area)),
    }
}
