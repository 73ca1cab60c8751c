//! A service answers views.
ghost use Rattle.std.specs.Prelude.{◌≡◌, ◌≢◌, ◌≤◌, ◌+ℤ◌, ℕ, ℤ, List, None, Some, length, slice_get, IfOk, IfErr, IfSome, OnOk, IsTrue};
ghost use Rattle.std.specs.Prelude.{MatchResult, Ok, Err, ⊤};
ghost use Rattle.series_book.specs.declared.one_series.Series.{Series};
ghost use Rattle.series_store.specs.Asking.{IsNamedAt};
ghost use Rattle.stored_book.specs.Standing.{StandsForBook};
ghost use Rattle.zoom_session.specs.Sessions.{is_open, last_of, session_of};
ghost use Rattle.zoom_session.specs.Views.{IsRangeSpec};
ghost use Rattle.chart_service.specs.Holding.{IsViewIn};
ghost use Rattle.chart_service.specs.Kinds.{MayShow};
ghost use Rattle.chart_service.specs.LastShown.{IsLastIn, TellsSeries};
ghost use Rattle.chart_service.specs.Looking.{Replying};
ghost use Rattle.chart_service.specs.Opening.{StaysIn};
ghost use Rattle.chart_service.specs.Planning.{IsSpecFor, IsLastOf, IsMoved, IsGridFor};
ghost use Rattle.chart_service.specs.Replies.{Moves};
ghost use Rattle.chart_service.specs.Called.{IsCauseOfView, LooksIn, MovesTo, ReadsByName, ReadsFiltered, ReadsLastOf, ReadsNamed};
ghost use Rattle.chart_service.specs.Called.{RepliesOver, Shows, ShowsBy, ShowsByText};
ghost use Rattle.chart_service.specs.Stepping.{IsLastShown, ReadsBy};
ghost use Rattle.chart_grid.specs.Limits.{IsWindow};
ghost use Rattle.chart_service.specs.Rooms.{FitsIn, HasRoom, KeepRooms, TellsIn};
ghost use Rattle.chart_service.specs.Shown as shown;

use crate::failure::ServiceError;
use crate::filters::filter_of;
use crate::ranges::{is_bad_range, range_spec};
use crate::refusals::refused;
use crate::service::Service;
use crate::viewport::Viewport;
use chart_frames::Frame;
use chart_grid::{Grid, GridError};
use gate_pages::Pages;
use request_lines::{FilterText, RangeWord};
use series_book::{Name, Refusal};
use value_filter::{Filter, FilterFault};
use zoom_session::ViewSpec;

impl<P: Pages> Service<P> {
    /// Answers a view with the filter of this text, where it has one. A text that spells no filter is
    /// refused before anything else is looked at.
    pub(crate) fn view_by_text(
        &mut self,
        number: u32,
        name: &Name,
        viewport: Viewport,
        word: RangeWord,
        text: &Option<FilterText>,
    ) -> Result<Frame, ServiceError>
        requires sound { (shown.view self.old).fit }
        requires number { 1 ≤ number }
        requires short { IfSome text.now (λ text. length text ≤ 8192) }
        ensures replying { RepliesOver (ShowsByText text.now number name.now viewport word)
            (ReadsByName text.now name.now viewport) result self.old self.new }
        ensures looked { LooksIn (Some number) result self.old self.new }
        ensures cause { IfErr result (IsCauseOfView (IsNamedAt (shown.catalog self.old) name.now) self.old self.new) }
        ensures may { IfOk result (λ frame. MayShow number frame) }
        ensures last { IfOk result (TellsSeries number (λ id. ⊤) self.new.sessions) }
        ensures quiet { OnOk result ((shown.view self.new).faults ≡ (shown.view self.old).faults) }
        ensures quiet_err { IfErr result (λ e. e ≢ ServiceError.DiskFault → (shown.view self.new).faults ≡ (shown.view self.old).faults) }
        ensures stays { StaysIn number result self.old.sessions self.new.sessions }
    {
        match filter_of(self.alloc, text) {
            Ok(filter) => self.view(number, name, viewport, word, filter),
            Err(FilterFault::At { at }) => Ok(refused(Refusal::BadFilter { at })),
            Err(FilterFault::NoMemory) => Err(ServiceError::NoMemory),
        }
    }

    /// Answers a view of the series of a name.
    fn view(
        &mut self,
        number: u32,
        name: &Name,
        viewport: Viewport,
        word: RangeWord,
        filter: Option<Filter>,
    ) -> Result<Frame, ServiceError>
        requires sound { (shown.view self.old).fit }
        requires number { 1 ≤ number }
        ensures replying { RepliesOver (ShowsBy filter number name.now viewport word)
            (ReadsNamed filter name.now viewport) result self.old self.new }
        ensures looked { LooksIn (Some number) result self.old self.new }
        ensures cause { IfErr result (IsCauseOfView (IsNamedAt (shown.catalog self.old) name.now) self.old self.new) }
        ensures may { IfOk result (λ frame. MayShow number frame) }
        ensures last { IfOk result (TellsSeries number (λ id. ⊤) self.new.sessions) }
        ensures quiet { OnOk result ((shown.view self.new).faults ≡ (shown.view self.old).faults) }
        ensures quiet_err { IfErr result (λ e. e ≢ ServiceError.DiskFault → (shown.view self.new).faults ≡ (shown.view self.old).faults) }
        ensures stays { StaysIn number result self.old.sessions self.new.sessions }
    {
        if !self.sessions.is_open(number) {
            return Ok(refused(Refusal::UnknownSession));
        }
        // It brings in how many series there are.
        let _count = self.store.len();
        let Some(info) = self.store.series(name) else {
            return Ok(refused(Refusal::UnknownSeries));
        };
        match spec_of(info.id, viewport, word, filter) {
            Ok(spec) => self.answer(number, spec),
            Err(refusal) => Ok(refused(refusal)),
        }
    }

    /// Answers a session's last view over another window.
    pub(crate) fn zoom(&mut self, number: u32, t0: i128, t1: i128) -> Result<Frame, ServiceError>
        requires sound { (shown.view self.old).fit }
        requires number { 1 ≤ number }
        ensures replying { RepliesOver (MovesTo number (λ last. (t0, t1)))
            (ReadsLastOf number self.old.sessions (λ last. (t0, t1))) result self.old self.new }
        ensures looked { LooksIn (Some number) result self.old self.new }
        ensures cause { IfErr result (IsCauseOfView (IsLastShown (last_of (session_of number self.old.sessions))) self.old self.new) }
        ensures may { IfOk result (λ frame. MayShow number frame) }
        ensures last { IfOk result (TellsSeries number (λ id. IsLastIn self.old.sessions number id) self.new.sessions) }
        ensures quiet { OnOk result ((shown.view self.new).faults ≡ (shown.view self.old).faults) }
        ensures quiet_err { IfErr result (λ e. e ≢ ServiceError.DiskFault → (shown.view self.new).faults ≡ (shown.view self.old).faults) }
        ensures stays { StaysIn number result self.old.sessions self.new.sessions }
        ensures tells { IsWindow t0 t1 → HasRoom self.old.sessions number → IfOk result (TellsIn number) }
        ensures rooms { OnOk result (KeepRooms self.old.sessions self.new.sessions) }
    {
        let last = match self.last_answered(number) {
            Ok(last) => last.copy()?,
            Err(refusal) => return Ok(refused(refusal)),
        };
        let grid = zoomed(last.grid, t0, t1);
        self.answer_over(number, last, grid)
    }

    /// Answers a session's last view, its window moved by this much.
    pub(crate) fn pan(&mut self, number: u32, by: i128) -> Result<Frame, ServiceError>
        requires sound { (shown.view self.old).fit }
        requires number { 1 ≤ number }
        ensures replying { RepliesOver (MovesTo number (λ last. (last.grid.t0 +ℤ by, last.grid.t1 +ℤ by)))
            (ReadsLastOf number self.old.sessions (λ last. (last.grid.t0 +ℤ by, last.grid.t1 +ℤ by))) result self.old self.new }
        ensures looked { LooksIn (Some number) result self.old self.new }
        ensures cause { IfErr result (IsCauseOfView (IsLastShown (last_of (session_of number self.old.sessions))) self.old self.new) }
        ensures may { IfOk result (λ frame. MayShow number frame) }
        ensures last { IfOk result (TellsSeries number (λ id. IsLastIn self.old.sessions number id) self.new.sessions) }
        ensures quiet { OnOk result ((shown.view self.new).faults ≡ (shown.view self.old).faults) }
        ensures quiet_err { IfErr result (λ e. e ≢ ServiceError.DiskFault → (shown.view self.new).faults ≡ (shown.view self.old).faults) }
        ensures stays { StaysIn number result self.old.sessions self.new.sessions }
        ensures rooms { OnOk result (KeepRooms self.old.sessions self.new.sessions) }
    {
        let last = match self.last_answered(number) {
            Ok(last) => last.copy()?,
            Err(refusal) => return Ok(refused(refusal)),
        };
        let grid = panned(last.grid, by);
        self.answer_over(number, last, grid)
    }

    /// Answers a session's last view over another window, unless there is no grid for that.
    fn answer_over(
        &mut self,
        number: u32,
        last: ViewSpec,
        grid: Result<Grid, GridError>,
    ) -> Result<Frame, ServiceError>
        requires sound { (shown.view self.old).fit }
        requires number { 1 ≤ number }
        requires opened { IsTrue (is_open number self.old.sessions) }
        requires view { IsViewIn (length (shown.catalog self.old)) last }
        ensures replying { (total : ℕ) (book : List Series) (t0 t1 : ℤ) → shown.IsTold self.old
            → StandsForBook (shown.image self.old) total book → IsMoved last.grid t0 t1 grid
            → Replying (λ frame old new. Moves last number t0 t1 frame old new)
            (ReadsBy last.filter last.grid.w t0 t1 (slice_get book last.series)) result total book self.old.sessions self.new.sessions
            (shown.view self.old) (shown.view self.new) }
        ensures looked { LooksIn (Some number) result self.old self.new }
        ensures cause { IfErr result (IsCauseOfView (λ id. id ≡ last.series) self.old self.new) }
        ensures may { IfOk result (λ frame. MayShow number frame) }
        ensures last { IfOk result (TellsSeries number (λ id. id ≡ last.series) self.new.sessions) }
        ensures quiet { OnOk result ((shown.view self.new).faults ≡ (shown.view self.old).faults) }
        ensures quiet_err { IfErr result (λ e. e ≢ ServiceError.DiskFault → (shown.view self.new).faults ≡ (shown.view self.old).faults) }
        ensures stays { StaysIn number result self.old.sessions self.new.sessions }
        ensures tells { (t0 t1 : ℤ) → IsMoved last.grid t0 t1 grid → IsWindow t0 t1 → FitsIn number last self.old.sessions
            → IfOk result (TellsIn number) }
        ensures rooms { (t0 t1 : ℤ) → IsMoved last.grid t0 t1 grid → FitsIn number last self.old.sessions → HasRoom self.old.sessions number
            → OnOk result (HasRoom self.new.sessions number) }
    {
        // It brings in how many series there are.
        let _count = self.store.len();
        match grid {
            Ok(grid) => self.answer(
                number,
                ViewSpec {
                    series: last.series,
                    grid,
                    range: last.range,
                    filter: last.filter,
                },
            ),
            Err(_) => Ok(refused(Refusal::BadWindow)),
        }
    }

    /// The view that a session was answered last, or why there is none.
    #[tactic(auto, using(crate::proofs::Lasts::none_of, crate::proofs::Lasts::no_last, crate::proofs::Lasts::last_so, crate::proofs::Lasts::view_so))]
    fn last_answered(&self, number: u32) -> Result<&ViewSpec, Refusal>
        ensures last { MatchResult result (λ last. IsLastOf (session_of number self.now.sessions) (Ok last.now))
            (λ refusal. IsLastOf (session_of number self.now.sessions) (Err refusal)) }
        ensures view { IfOk result (λ last. IsViewIn (length (shown.catalog self.now)) last.now) }
        ensures answer { OnOk result (IsTrue (is_open number self.now.sessions)) }
    {
        if !self.sessions.is_open(number) {
            return Err(Refusal::UnknownSession);
        }
        match self.sessions.last_view(number) {
            Some(last) => Ok(last),
            None => Err(Refusal::NoView),
        }
    }

    /// Answers a view of a series in an open session.
    fn answer(&mut self, number: u32, spec: ViewSpec) -> Result<Frame, ServiceError>
        requires sound { (shown.view self.old).fit }
        requires number { 1 ≤ number }
        requires opened { IsTrue (is_open number self.old.sessions) }
        requires view { IsViewIn (length (shown.catalog self.old)) spec }
        ensures replying { RepliesOver (Shows spec number) (ReadsFiltered spec) result self.old self.new }
        ensures looked { LooksIn (Some number) result self.old self.new }
        ensures cause { IfErr result (IsCauseOfView (λ id. id ≡ spec.series) self.old self.new) }
        ensures may { IfOk result (λ frame. MayShow number frame) }
        ensures last { IfOk result (TellsSeries number (λ id. id ≡ spec.series) self.new.sessions) }
        ensures quiet { OnOk result ((shown.view self.new).faults ≡ (shown.view self.old).faults) }
        ensures quiet_err { IfErr result (λ e. e ≢ ServiceError.DiskFault → (shown.view self.new).faults ≡ (shown.view self.old).faults) }
        ensures stays { StaysIn number result self.old.sessions self.new.sessions }
        ensures tells { FitsIn number spec self.old.sessions → IfOk result (TellsIn number) }
        ensures rooms { FitsIn number spec self.old.sessions → HasRoom self.old.sessions number
            → OnOk result (HasRoom self.new.sessions number) }
    {
        if spec.filter.is_none() {
            self.answer_coefs(number, spec)
        } else {
            self.answer_rows(number, spec)
        }
    }
}

/// The grid of the same canvas over another window.
fn zoomed(grid: Grid, t0: i128, t1: i128) -> Result<Grid, GridError>
    ensures { IsMoved grid t0 t1 result }
{
    grid.zoom(t0, t1)
}

/// The grid of the same canvas, its window moved by this much.
fn panned(grid: Grid, by: i128) -> Result<Grid, GridError>
    ensures { IsMoved grid (grid.t0 +ℤ by) (grid.t1 +ℤ by) result }
{
    grid.pan(by)
}

/// The view of a series that is asked for, or the first refusal that stands against it.
fn spec_of(
    series: u16,
    viewport: Viewport,
    word: RangeWord,
    filter: Option<Filter>,
) -> Result<ViewSpec, Refusal>
    ensures spec { IsSpecFor series viewport word filter result }
    ensures range { IfOk result (λ spec. IsRangeSpec spec.range) }
{
    let grid = match grid_of(viewport) {
        Ok(grid) => grid,
        Err(GridError::BadWindow) => return Err(Refusal::BadWindow),
        Err(GridError::BadCanvas) => return Err(Refusal::BadCanvas),
    };
    if is_bad_range(word) {
        return Err(Refusal::BadRange);
    }
    Ok(ViewSpec {
        series,
        grid,
        range: range_spec(word),
        filter,
    })
}

/// The grid that a view asks for.
fn grid_of(viewport: Viewport) -> Result<Grid, GridError>
    ensures { IsGridFor viewport result }
{
    Grid::new(viewport.t0, viewport.t1, viewport.w, viewport.h)
}
