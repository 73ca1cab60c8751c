ghost use Rattle.std.specs.Prelude.{◌≡◌, ◌==◌, ◌≤◌, ◌≤ℤ◌, ◌<◌, ◌+◌, ◌++◌, [], ◌∷◌, ℤ, List, length, Option, None, Some, IsTrue, IfOk};
ghost use Rattle.std.specs.Prelude.{IfErr, IfSome, IfNone, OnOk, OnErr, false, position, ◌≢◌};
ghost use Rattle.om3_coeff.specs.declared.errors.NodeError.TheVariants.{DiskFault};
ghost use Rattle.std.specs.Option.{option_copied};
ghost use Rattle.needed_nodes.specs.Answers.{AgreesForView, most_needed, most_reads};
ghost use Rattle.zoom_session.specs.Places.{IsPlaceOf, IsClosed};
ghost use Rattle.zoom_session.specs.Planned.{IsInBounds};
ghost use Rattle.zoom_session.specs.Plans.{AreNeeded, AreWanted, HasEntries, NeedsAtMost, PlansIn, RefusesPlan, CountsNeeded};
ghost use Rattle.zoom_session.specs.Sessions.{is_open, session_of, last_of, cache_of, open_refusal, fresh_session, without, needed_in};
ghost use Rattle.zoom_session.specs.Sessions.{viewed, AreSessions};
ghost use Rattle.zoom_session.specs.declared.errors.SessionError.TheVariants.{Refused};
ghost use Rattle.series_book.specs.declared.refusals.Refusal.{Refusal};
ghost use Rattle.series_book.specs.declared.refusals.Refusal.TheVariants.{UnknownSession};

use crate::errors::{PlanError, SessionError};
use crate::plan::ViewPlan;
use crate::session::Session;
use crate::view_spec::ViewSpec;
use chart_grid::Axis;
use coefficient_cache::{CoefficientCache, is_capacity};
use needed_nodes::needed;
use om3_coeff::Nodes;
use series_book::Refusal;
use std::alloc::{AllocError, Global};
use std::marker::Model;

/// The most sessions that are open at once.
pub const MOST_SESSIONS: usize = 16;

/// The cache of a session that names none.
pub const DEFAULT_CACHE: u64 = 65_536;

/// The sessions that are open, in the order of their opening.
#[derive(Drop)]
pub struct Sessions {
    alloc: Global,
    sessions: Vec<Session>,
}

impl Model for Sessions {
    ghost use Rattle.std.specs.Prelude.{List};
    ghost use Rattle.zoom_session.specs.declared.session.Session.{Session};
    ghost use Rattle.zoom_session.specs.Sessions.{AreSessions};

    ghost Value = { List Session };

    ghost view = { λ s. s.sessions.items };

    ghost invariant = { λ s. AreSessions s.sessions.items };
}

impl Sessions {
    /// No session is open.
    pub fn new(alloc: Global) -> Result<Sessions, AllocError>
        ensures { IfOk result (λ sessions. sessions ≡ []) }
    {
        let sessions = Vec::with_capacity(alloc, MOST_SESSIONS)?;
        Ok(Sessions { alloc, sessions })
    }

    /// Whether the session of this number is open.
    pub fn is_open(&self, number: u32) -> bool
        ensures answer { result ≡ is_open number self.now }
        ensures valid { AreSessions self.now }
    {
        self.sessions.iter().any(|session| session.number == number)
    }

    /// Opens a session with an empty list of at most `cache` coefficients. It is refused where the
    /// session is open already, where 16 are open, and where `cache` isn't 1 to 131,072, with the
    /// first of these that stands.
    #[tactic(auto, using(crate::proofs::Valid::one_more_valid))]
    pub fn open(&mut self, number: u32, cache: u64) -> Result<(), SessionError>
        ensures opened { OnOk result (self.new ≡ self.old ++ fresh_session number cache ∷ []) }
        ensures accepted { OnOk result (open_refusal self.old number cache ≡ None) }
        ensures refused { (refusal : Refusal) → result ≡ Err (Refused refusal) → open_refusal self.old number cache ≡ Some refusal }
        ensures unchanged { OnErr result (self.new ≡ self.old) }
    {
        if let Some(refusal) = self.open_refusal(number, cache) {
            return Err(SessionError::Refused(refusal));
        }
        let cache = CoefficientCache::new(self.alloc, cache as u32)?;
        self.sessions.push(Session {
            number,
            cache,
            last: None,
        })?;
        Ok(())
    }

    // The first refusal that stands against opening a session, if any does.
    fn open_refusal(&self, number: u32, cache: u64) -> Option<Refusal>
        ensures { result ≡ open_refusal self.now number cache }
    {
        if self.is_open(number) {
            return Some(Refusal::SessionOpen);
        }
        if self.sessions.len() >= MOST_SESSIONS {
            return Some(Refusal::TooManySessions);
        }
        if !is_capacity(cache) {
            return Some(Refusal::BadCache);
        }
        None
    }

    /// Closes a session and drops its list. It is refused, as `UnknownSession`, where the session
    /// isn't open.
    pub fn close(&mut self, number: u32) -> Result<(), Refusal>
        ensures closed { OnOk result (self.new ≡ without number self.old) }
        ensures was_open { OnOk result (IsTrue (is_open number self.old)) }
        ensures refused { IfErr result (λ refusal. refusal ≡ UnknownSession) }
        ensures not_open { OnErr result (is_open number self.old ≡ false) }
        ensures unchanged { OnErr result (self.new ≡ self.old) }
    {
        let Some(place) = self.place_of(number) else {
            return Err(Refusal::UnknownSession);
        };
        let _closed = self.sessions.remove(place);
        Ok(())
    }

    // The place of the session of this number.
    fn place_of(&self, number: u32) -> Option<usize>
        ensures place { IfSome result (IsPlaceOf number self.now) }
        ensures closed { IfNone result (IsClosed number self.now) }
    {
        self.first_of(number)
    }

    // The first place at which a session of this number stands.
    fn first_of(&self, number: u32) -> Option<usize>
        ensures { result ≡ position (λ session. session.number == number) self.now }
    {
        self.sessions
            .iter()
            .position(|session| session.number == number)
    }

    /// The view that a session was answered last. It is `None` where the session isn't open, or has
    /// had no answered view.
    pub fn last_view(&self, number: u32) -> Option<&ViewSpec>
        ensures { option_copied result ≡ last_of (session_of number self.now) }
    {
        let place = self.place_of(number)?;
        self.sessions[place].last.as_ref()
    }

    /// How many coefficients a session's client keeps. It is `None` where the session isn't open.
    pub fn cache(&self, number: u32) -> Option<u32>
        ensures cache { result ≡ cache_of (session_of number self.now) }
        ensures valid { AreSessions self.now }
    {
        // It brings in what holds of the open sessions.
        let _open = self.is_open(number);
        let place = self.place_of(number)?;
        Some(self.sessions[place].cache.capacity())
    }

    /// What a view without a filter takes that shows the values from `lo` to `hi`: the keys that it needs,
    /// and those of them to send. Nothing changes but what asks of the nodes keep. It is `TooLarge` exactly where the view needs
    /// more keys than the session's client keeps, unless the nodes gave an error first.
    #[tactic(auto, using(crate::proofs::Planning::plans_in, crate::proofs::Planning::have_entries, crate::proofs::Planning::walk_stops, crate::proofs::Planning::keys_stop, crate::proofs::Planning::counts_needed, crate::proofs::Planning::walk_few, crate::proofs::Planning::keys_few))]
    pub fn plan_view<N: Nodes>(
        &self,
        number: u32,
        spec: &ViewSpec,
        axis: Axis,
        lo: i64,
        hi: i64,
        nodes: &mut N,
    ) -> Result<ViewPlan, PlanError>
        requires opened { IsTrue (is_open number self.now) }
        requires unfiltered { spec.now.filter ≡ None }
        requires fit { (N.view nodes.old).fit }
        requires slots { axis.slots ≡ (N.view nodes.old).slots }
        requires step { 0 < axis.step }
        requires range { lo ≤ℤ hi }

        // the needed keys are those of each list that the nodes agree with for the view; over nodes
        // that tell their coefficients they are the keys that the view wants
        ensures needed { (list : List (Option ℤ)) → AgreesForView (N.view nodes.old) axis spec.now.grid lo hi list →
            IfOk result (λ plan. AreNeeded list axis spec.now.grid lo hi plan.needed) }
        ensures wanted { (N.view nodes.old).tells →
            IfOk result (λ plan. AreWanted (N.view nodes.old) axis spec.now.grid lo hi plan.needed) }
        ensures planned { IfOk result (PlansIn (session_of number self.now) spec.now.series) }
        ensures entries { IfOk result (HasEntries axis.slots) }
        ensures bounds { IfOk result IsInBounds }
        ensures few { IfOk result (λ plan. length plan.needed ≤ most_needed spec.now.grid.w axis.slots) }

        // why there is no plan
        ensures refused { IfErr result (RefusesPlan (session_of number self.now) (N.view nodes.old)
            (N.view nodes.new) axis spec.now.grid lo hi) }
        ensures counted { (list : List (Option ℤ)) → AgreesForView (N.view nodes.old) axis spec.now.grid lo hi list →
            IfErr result (CountsNeeded list axis spec.now.grid lo hi) }
        ensures large { IfErr result (NeedsAtMost (most_needed spec.now.grid.w axis.slots)) }

        // the nodes
        ensures fit { (N.view nodes.new).fit }
        ensures kept { N.keeps nodes.old nodes.new }
        ensures reads { (N.view nodes.new).reads ≤ (N.view nodes.old).reads + most_reads spec.now.grid.w axis.slots }
        ensures faults { (N.view nodes.old).faults ≤ (N.view nodes.new).faults }
        ensures quiet { OnOk result ((N.view nodes.new).faults ≡ (N.view nodes.old).faults) }
        ensures quiet_err { IfErr result (λ e. e ≢ PlanError.Node DiskFault → (N.view nodes.new).faults ≡ (N.view nodes.old).faults) }
    {
        let Some(place) = self.place_of(number) else {
            unreachable!()
        };
        let needed = needed(self.alloc, nodes, axis, spec.grid, lo, hi)?;
        self.sessions[place].plan(self.alloc, spec.series, needed)
    }

    /// Keeps an answered view as the session's last one, and changes its list by the plan that
    /// `plan_view` gave for it; a filtered view has none, and leaves the list. After want of memory the
    /// session is closed.
    #[tactic(auto, using(crate::proofs::Valid::removed_valid, crate::proofs::Valid::removed_set))]
    pub fn apply(
        &mut self,
        number: u32,
        spec: ViewSpec,
        plan: Option<&ViewPlan>,
    ) -> Result<(), AllocError>
        requires opened { IsTrue (is_open number self.old) }
        ensures viewed { OnOk result (self.new ≡ viewed number spec (needed_in (option_copied plan.entry)) self.old) }
        ensures closed { OnErr result (self.new ≡ without number self.old) }
    {
        let Some(place) = self.place_of(number) else {
            unreachable!()
        };
        let session = &mut self.sessions[place];
        let kept = session.keep_view(self.alloc, spec, plan);
        if kept.is_err() {
            self.sessions.remove(place);
        }
        kept
    }
}
