ghost use Rattle.std.specs.Prelude.{◌≡◌, IfOk, IfErr, OnOk};
ghost use Rattle.std.specs.Option.{option_copied};
ghost use Rattle.view_keys.specs.Listed.{AreInOrder};
ghost use Rattle.zoom_session.specs.Planned.{IsInBounds};
ghost use Rattle.zoom_session.specs.Plans.{IsPlan, IsTooLarge};
ghost use Rattle.zoom_session.specs.Sessions.{needed_in, after_view};

use crate::errors::PlanError;
use crate::plan::ViewPlan;
use crate::view_spec::ViewSpec;
use coefficient_cache::CoefficientCache;
use om3_coeff::Coefs;
use std::alloc::{AllocError, Global};
use view_keys::laws::keys_in_order_are_distinct;

/// A session that is open.
#[derive(Drop)]
pub struct Session {
    /// Its number, at least 1.
    pub(crate) number: u32,
    /// The coefficients that its client keeps.
    pub(crate) cache: CoefficientCache,
    /// The view that it was answered last, if any was.
    pub(crate) last: Option<ViewSpec>,
}

impl Session {
    // The plan of a view of a series that needs these keys. It is `TooLarge` exactly where they are
    // more than the client keeps.
    #[tactic(auto, using(crate::proofs::Ordered::bounds_so))]
    pub(crate) fn plan(
        &self,
        alloc: Global,
        series: u16,
        needed: Coefs,
    ) -> Result<ViewPlan, PlanError>
        requires { AreInOrder needed }
        ensures needed { IfOk result (λ plan. plan.needed ≡ needed) }
        ensures planned { IfOk result (IsPlan self.now series) }
        ensures bounds { IfOk result IsInBounds }
        ensures too_large { IfErr result (IsTooLarge self.now needed) }
    {
        let capacity = self.cache.capacity();
        let count = needed.as_slice().len();
        if count > capacity as usize {
            return Err(PlanError::TooLarge {
                needed: count as u64,
                cache: u64::from(capacity),
            });
        }
        let send = self.cache.to_send(alloc, series, needed.as_slice())?;
        Ok(ViewPlan { needed, send })
    }

    // Keeps an answered view as the last one, and changes the list by the keys of its plan, where it has
    // one. After want of memory the session is of no further use.
    pub(crate) fn keep_view(
        &mut self,
        alloc: Global,
        spec: ViewSpec,
        plan: Option<&ViewPlan>,
    ) -> Result<(), AllocError>
        ensures kept { OnOk result (self.new ≡ after_view spec (needed_in (option_copied plan.entry)) self.old) }
        ensures number { self.new.number ≡ self.old.number }
        ensures capacity { self.new.cache.capacity ≡ self.old.cache.capacity }
    {
        keys_in_order_are_distinct();
        let series = spec.series;
        self.last = Some(spec);
        if let Some(plan) = plan {
            self.cache.renew(alloc, series, plan.needed())?;
        }
        Ok(())
    }
}
