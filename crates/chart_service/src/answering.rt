//! A service answers a view of a series in an open session.
ghost use Rattle.std.specs.Prelude.{◌≡◌, ◌≢◌, ◌≤◌, ◌<◌, None, Some, length, slice_get, IfOk, IfErr, IsTrue, IsSomeAnd, OnOk};
ghost use Rattle.block_disk.specs.View.{View};
ghost use Rattle.zoom_session.specs.Sessions.{is_open, session_of};
ghost use Rattle.chart_service.specs.Holding.{IsViewIn};
ghost use Rattle.chart_service.specs.Kinds.{MayShow};
ghost use Rattle.chart_service.specs.LastShown.{TellsSeries};
ghost use Rattle.chart_service.specs.Looking.{IsPlanCause, IsScanCause, IsOfPages, IsGoodPlan, error_of};
ghost use Rattle.chart_service.specs.Opening.{StaysIn};
ghost use Rattle.chart_service.specs.Planning.{PlansOrStops, ShowsOrStops, FitInFrame};
ghost use Rattle.chart_service.specs.Stepping.{ReadsFor, ReadsRows};
ghost use Rattle.chart_service.specs.Called.{HasCoefs, HasRows, IsCauseOfView, LooksIn, LooksOnly, ReadsForSpec, ReadsRowsFor, RepliesOver};
ghost use Rattle.chart_service.specs.Rooms.{FitsIn, HasRoom, IsShortFor, TellsIn};
ghost use Rattle.chart_service.specs.Shown as shown;

use crate::failure::ServiceError;
use crate::refusals::refused;
use crate::selecting::selected;
use crate::service::Service;
use crate::shown::{Planned, plan, view_frame};
use crate::shown_rows::{ShownRows, rows_frame, shown_rows};
use chart_frames::Frame;
use filter_scan::ScanError;
use gate_pages::Pages;
use om3_coeff::NodeError;
use series_book::Refusal;
use zoom_session::{PlanError, ViewSpec};

/// What an error of the nodes is for a request. Nodes over pages name no key.
fn node_error(error: NodeError) -> ServiceError
    requires { IsOfPages error }
    ensures { result ≡ error_of error }
{
    match error {
        NodeError::DiskFault => ServiceError::DiskFault,
        NodeError::Damaged { page } => ServiceError::Damaged { page },
        NodeError::Missing { .. } | NodeError::BadCoefficient { .. } => unreachable!(),
    }
}

impl<P: Pages> Service<P> {
    /// Answers a filtered view by the rows of what it keeps.
    pub(crate) fn answer_rows(&mut self, number: u32, spec: ViewSpec) -> Result<Frame, ServiceError>
        requires sound { (shown.view self.old).fit }
        requires number { 1 ≤ number }
        requires opened { IsTrue (is_open number self.old.sessions) }
        requires view { IsViewIn (length (shown.catalog self.old)) spec }
        ensures replying { RepliesOver (HasRows spec number) (ReadsRowsFor spec) result self.old self.new }
        ensures looked { LooksIn (Some number) result self.old self.new }
        ensures cause { IfErr result (IsCauseOfView (λ id. id ≡ spec.series) self.old self.new) }
        ensures may { IfOk result (λ frame. MayShow number frame) }
        ensures last { IfOk result (TellsSeries number (λ id. id ≡ spec.series) self.new.sessions) }
        ensures quiet { OnOk result ((shown.view self.new).faults ≡ (shown.view self.old).faults) }
        ensures quiet_err { IfErr result (λ e. e ≢ ServiceError.DiskFault → (shown.view self.new).faults ≡ (shown.view self.old).faults) }
        ensures stays { StaysIn number result self.old.sessions self.new.sessions }
        ensures tells { FitsIn number spec self.old.sessions → IfOk result (TellsIn number) }
        ensures rooms { FitsIn number spec self.old.sessions → HasRoom self.old.sessions number
            → OnOk result (HasRoom self.new.sessions number) }
    {
        let shown = match self.rows(&spec) {
            Ok(shown) => shown,
            Err(ScanError::Node(error)) => return Err(node_error(error)),
            Err(ScanError::NoMemory) => return Err(ServiceError::NoMemory),
        };
        let frame = rows_frame(number, &spec, shown);
        if self.sessions.apply(number, spec, None).is_err() {
            return Err(ServiceError::NoMemory);
        }
        Ok(Frame::Rows(frame))
    }

    /// What a filtered view of a series shows.
    fn rows(&mut self, spec: &ViewSpec) -> Result<ShownRows, ScanError>
        requires sound { (shown.view self.old).fit }
        requires view { IsViewIn (length (shown.catalog self.old)) spec.now }
        ensures shown { shown.ForBook self.old (λ total book. IsSomeAnd (slice_get book spec.now.series)
            (λ series. ShowsOrStops series spec.now result)) }
        ensures fit { IfOk result (FitInFrame spec.now.grid.w) }
        ensures cause { IfErr result (λ error. IsScanCause (λ id. id ≡ spec.now.series) error (shown.IsTold self.old)
            (shown.catalog self.old) (shown.total self.old) (shown.view self.old) (shown.view self.new)) }
        ensures looks { LooksOnly self.old self.new }
        ensures quiet { OnOk result ((shown.view self.new).faults ≡ (shown.view self.old).faults) }
        ensures quiet_err { IfErr result (λ e. e ≢ ScanError.Node NodeError.DiskFault
            → (shown.view self.new).faults ≡ (shown.view self.old).faults) }
        ensures reads { shown.ForBook self.old (λ total book. ReadsRows spec.now.grid.t0 spec.now.grid.t1 (slice_get book spec.now.series)
            (shown.view self.old).reads (shown.view self.new).reads) }
        ensures sessions { self.new.sessions ≡ self.old.sessions }
    {
        let axis = selected(&mut self.store, spec.series);
        shown_rows(self.alloc, spec, axis, &mut self.store)
    }

    /// Answers a view without a filter by the coefficients that it needs and the session's client lacks.
    pub(crate) fn answer_coefs(
        &mut self,
        number: u32,
        spec: ViewSpec,
    ) -> Result<Frame, ServiceError>
        requires sound { (shown.view self.old).fit }
        requires number { 1 ≤ number }
        requires opened { IsTrue (is_open number self.old.sessions) }
        requires view { IsViewIn (length (shown.catalog self.old)) spec }
        requires unfiltered { spec.filter ≡ None }
        ensures replying { RepliesOver (HasCoefs spec number) (ReadsForSpec spec) result self.old self.new }
        ensures looked { LooksIn (Some number) result self.old self.new }
        ensures cause { IfErr result (IsCauseOfView (λ id. id ≡ spec.series) self.old self.new) }
        ensures may { IfOk result (λ frame. MayShow number frame) }
        ensures last { IfOk result (TellsSeries number (λ id. id ≡ spec.series) self.new.sessions) }
        ensures quiet { OnOk result ((shown.view self.new).faults ≡ (shown.view self.old).faults) }
        ensures quiet_err { IfErr result (λ e. e ≢ ServiceError.DiskFault → (shown.view self.new).faults ≡ (shown.view self.old).faults) }
        ensures stays { StaysIn number result self.old.sessions self.new.sessions }
        ensures tells { FitsIn number spec self.old.sessions → IfOk result (TellsIn number) }
        ensures rooms { FitsIn number spec self.old.sessions → HasRoom self.old.sessions number
            → OnOk result (HasRoom self.new.sessions number) }
    {
        let planned = match self.plan(number, &spec) {
            Ok(planned) => planned,
            Err(PlanError::TooLarge { needed, cache }) => {
                return Ok(refused(Refusal::ViewTooLarge { needed, cache }));
            }
            Err(PlanError::Node(error)) => return Err(node_error(error)),
            Err(PlanError::NoMemory) => return Err(ServiceError::NoMemory),
        };
        let (series, grid) = (spec.series, spec.grid);
        if self
            .sessions
            .apply(number, spec, Some(&planned.plan))
            .is_err()
        {
            return Err(ServiceError::NoMemory);
        }
        Ok(Frame::View(view_frame(number, series, grid, planned)))
    }

    /// What a view of a series takes and tells.
    fn plan(&mut self, number: u32, spec: &ViewSpec) -> Result<Planned, PlanError>
        requires sound { (shown.view self.old).fit }
        requires opened { IsTrue (is_open number self.old.sessions) }
        requires view { IsViewIn (length (shown.catalog self.old)) spec.now }
        requires unfiltered { spec.now.filter ≡ None }
        ensures planned { shown.ForBook self.old (λ total book. IsSomeAnd (slice_get book spec.now.series)
            (λ series. PlansOrStops series spec.now (session_of number self.old.sessions) result)) }
        ensures good { IfOk result IsGoodPlan }
        ensures cause { IfErr result (λ error. IsPlanCause (λ id. id ≡ spec.now.series) error (shown.IsTold self.old)
            (shown.catalog self.old) (shown.total self.old) (shown.view self.old) (shown.view self.new)) }
        ensures looks { LooksOnly self.old self.new }
        ensures quiet { OnOk result ((shown.view self.new).faults ≡ (shown.view self.old).faults) }
        ensures quiet_err { IfErr result (λ e. e ≢ PlanError.Node NodeError.DiskFault
            → (shown.view self.new).faults ≡ (shown.view self.old).faults) }
        ensures reads { shown.ForBook self.old (λ total book. ReadsFor spec.now.grid.w (slice_get book spec.now.series)
            (shown.view self.old).reads (shown.view self.new).reads) }
        ensures sessions { self.new.sessions ≡ self.old.sessions }
        ensures few { spec.now.series < 512 }
        ensures large { IfErr result (IsShortFor (session_of number self.old.sessions) spec.now.grid.w) }
    {
        let axis = selected(&mut self.store, spec.series);
        plan(&self.sessions, number, spec, axis, &mut self.store)
    }
}
