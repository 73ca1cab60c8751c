//! What stands against a request before anything is drawn.
ghost use Rattle.std.specs.Prelude.{◌≡◌, ◌<◌, Err, length, IfErr, IfOk, IfSome, MatchResult};
ghost use Rattle.chart_service.specs.Viewing.{IsGoodRange};
ghost use Rattle.derived_chart.specs.Sums.{IsSmall};
ghost use Rattle.series_pair.specs.Derived.{MayShow};
ghost use Rattle.series_store.specs.Shown as shown;
ghost use Rattle.derive_command.specs.Answers.{IsRefused, asked_range};
ghost use Rattle.derive_command.specs.Catalogs.{IsRefusedBy, in_memory};
ghost use Rattle.derive_command.specs.Doing.{AreIdsOf, AreNamedIn, IsAsked, IsAskedIn, IsViewOf, LacksOne};
ghost use Rattle.derive_command.specs.Requests.{IsFactor};

use crate::asked::Asked;
use crate::derive_refusal::DeriveRefusal;
use crate::request::Request;
use chart_grid::{Grid, GridError};
use chart_service::ranges::{is_bad_range, narrowed};
use derived_chart::Sum;
use gate_pages::Pages;
use plain_chart::ValueRange;
use request_lines::RangeWord;
use series_pair::shift_of;
use series_store::Store;

/// What a request asks for, or the first refusal that stands against it. Whether a sum is too large isn't tested yet.
pub fn asked_of<P: Pages>(store: &Store<P>, request: &Request) -> Result<Asked, DeriveRefusal>
    requires a { IsFactor request.now.a }
    requires b { IsFactor request.now.b }
    ensures asked { shown.ForSoundBook store.now (λ total book. MatchResult result (IsAsked book request.now)
        (IsRefused book request.now)) }
    // whatever the pages are
    ensures records { MatchResult result (IsAskedIn (shown.catalog store.now) request.now)
        (IsRefusedBy (in_memory (shown.catalog store.now)) request.now) }
    ensures lacks { result ≡ Err DeriveRefusal.UnknownSeries → LacksOne (shown.catalog store.now) request.now }
    ensures first { IfOk result (λ asked. asked.x < length (shown.catalog store.now)) }
    ensures second { IfOk result (λ asked. asked.y < length (shown.catalog store.now)) }
    ensures small { IfOk result (λ asked. IsSmall asked.sum) }
    ensures range { IfOk result (λ asked. IfSome asked.range MayShow) }
{
    let (x, y) = match ids_of(store, request) {
        Ok(ids) => ids,
        Err(refusal) => return Err(refusal),
    };
    let Some(shift) = shift_of(store, x, y) else {
        return Err(DeriveRefusal::NotOneGrid);
    };
    let (grid, range) = match view_of(request) {
        Ok(view) => view,
        Err(refusal) => return Err(refusal),
    };
    Ok(Asked {
        x,
        y,
        sum: sum_of(request, shift),
        grid,
        range,
    })
}

/// The sum that a request asks for.
fn sum_of(request: &Request, shift: i64) -> Sum
    ensures a { result.a ≡ request.now.a }
    ensures b { result.b ≡ request.now.b }
    ensures shift { result.shift ≡ shift }
{
    Sum {
        a: request.a,
        b: request.b,
        shift,
    }
}

/// The ids of the two series that a request names.
fn ids_of<P: Pages>(store: &Store<P>, request: &Request) -> Result<(u16, u16), DeriveRefusal>
    ensures ids { shown.ForSoundBook store.now (λ total book. AreIdsOf book request.now result) }
    ensures lacks { IfErr result (λ e. (e ≡ DeriveRefusal.UnknownSeries) × LacksOne (shown.catalog store.now) request.now) }
    ensures named { IfOk result (λ ids. AreNamedIn (shown.catalog store.now) request.now ids.0 ids.1) }
    ensures first { IfOk result (λ ids. ids.0 < length (shown.catalog store.now)) }
    ensures second { IfOk result (λ ids. ids.1 < length (shown.catalog store.now)) }
{
    let Some(x) = store.series(&request.first) else {
        return Err(DeriveRefusal::UnknownSeries);
    };
    let Some(y) = store.series(&request.second) else {
        return Err(DeriveRefusal::UnknownSeries);
    };
    Ok((x.id, y.id))
}

/// The grid and the range that a request asks for.
fn view_of(request: &Request) -> Result<(Grid, Option<ValueRange>), DeriveRefusal>
    ensures view { IsViewOf request.now result }
    ensures range { IfOk result (λ view. IfSome view.1 MayShow) }
{
    let grid = match Grid::new(request.t0, request.t1, request.w, request.h) {
        Ok(grid) => grid,
        Err(GridError::BadWindow) => return Err(DeriveRefusal::BadWindow),
        Err(GridError::BadCanvas) => return Err(DeriveRefusal::BadCanvas),
    };
    if is_bad_range(request.range) {
        return Err(DeriveRefusal::BadRange);
    }
    Ok((grid, asked_range(request.range)))
}

/// The range that a word names.
fn asked_range(word: RangeWord) -> Option<ValueRange>
    requires { IsGoodRange word }
    ensures range { result ≡ asked_range word }
    ensures in_range { IfSome result MayShow }
{
    match word {
        RangeWord::Auto => None,
        RangeWord::Fixed { lo, hi } => Some(ValueRange {
            lo: narrowed(lo),
            hi: narrowed(hi),
        }),
    }
}
