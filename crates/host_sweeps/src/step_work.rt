//! A step of a sweep, as a work on a store and on what answers the lines.
ghost use Rattle.std.specs.Prelude.{length};
ghost use Rattle.chart_service.specs.Shown as shown;
ghost use Rattle.host_sweeps.specs.Steps.{StepsService, StepsStore};
ghost use Rattle.series_store.specs.Shown as stored;

use crate::steps::MOST_CLEARS;
use chart_service::StoreWork;
use gate_pages::{PageWorld, Pages};
use live_service::ServiceStepper;
use live_view::StepperWork;
use retention::{Rule, SweepError, SweptSome, sweep_some};
use series_store::Store;

/// A step of the sweep of a rule.
#[derive(Drop)]
pub(crate) struct StepWork<'a> {
    pub(crate) rule: &'a Rule,
}

impl<'a, P: Pages> StoreWork<Store<P>> for StepWork<'a> {
    type Answer = Result<SweptSome, SweepError>;

    ghost series = { λ store. length (stored.catalog store) };

    ghost may = { λ work store. stored.IsSound store };

    ghost does = { λ work old answer done new. StepsStore work.rule.now answer old new };

    fn work(&mut self, store: &mut Store<P>) -> Result<SweptSome, SweepError> {
        sweep_some(store, self.rule, MOST_CLEARS)
    }
}

impl<'a, P: PageWorld> StepperWork<ServiceStepper<P>> for StepWork<'a> {
    type Answer = Result<SweptSome, SweepError>;

    ghost may = { λ work it. (shown.view it.service).fit };

    ghost does = { λ work old answer done new. StepsService work.rule.now answer old.service new.service };

    fn work(&mut self, stepper: &mut ServiceStepper<P>) -> Result<SweptSome, SweepError> {
        let answer = stepper.service.with_store(self);
        stepper.service.is_sound();
        answer
    }
}
