//! A service answers lines, and repeats views.
ghost use Rattle.std.specs.Prelude.{◌≡◌};
ghost use Rattle.series_book.specs.Edits.{id_of};
ghost use Rattle.chart_service.specs.Shown as shown;
ghost use Rattle.live_service.specs.Steps.{AnswersEdits, AnswersLine, LosesEdits, RepeatsView};

use crate::stepper::ServiceStepper;
use chart_frames::Frame;
use chart_service::ServiceError;
use gate_pages::PageWorld;
use live_view::Stepper;
use series_book::{Edit, Name};
use zoom_session::ViewSpec;

impl<P: PageWorld> Stepper for ServiceStepper<P> {
    type Fault = ServiceError;

    ghost sessions = { λ it. shown.sessions it.service };

    /// By each book for which the pages stand, it is the id that the book gives.
    ghost names = { λ it name id. shown.ForSoundBook it.service (λ total book. id ≡ id_of name book) };

    ghost fit = { λ it. (shown.view it.service).fit };

    ghost replies = { λ old line result new. AnswersLine line result old.service new.service };

    ghost repeats = { λ old session result new. RepeatsView session result old.service new.service };

    ghost does_edits = { λ old edits frames new. AnswersEdits edits frames old.service new.service };

    ghost fails_edits = { λ old edits error new. LosesEdits edits error old.service new.service };

    #[tactic(auto, using(crate::proofs::CanKept::line_goes, crate::proofs::CanKept::line_lost))]
    fn step_line(&mut self, line: &[u8]) -> Result<Frame, ServiceError> {
        // It brings in what holds of the open sessions.
        let _cache = self.service.cache(0);
        self.service.step_line(line)
    }

    fn step_edits(&mut self, edits: &[Edit]) -> Result<Vec<Frame>, ServiceError> {
        match self.service.step_edits(edits) {
            Ok(frames) => Ok(frames),
            Err(error) => Err(error),
        }
    }

    #[tactic(auto, using(crate::proofs::CanKept::own_goes, crate::proofs::CanKept::own_shows, crate::proofs::CanKept::line_lost))]
    fn repeat(&mut self, session: u32) -> Result<Frame, ServiceError> {
        // It brings in what holds of the open sessions.
        let _cache = self.service.cache(0);
        self.service.repeat(session)
    }

    fn last_view(&self, session: u32) -> Option<&ViewSpec> {
        self.service.last_view(session)
    }

    fn cache(&self, session: u32) -> Option<u32> {
        self.service.cache(session)
    }

    fn series_id(&self, name: &Name) -> Option<u16> {
        self.service.series_id(name)
    }

    ghost takes_keep = { λ old new takes. takes.sessions };

    ghost sends_keep = { λ count old new sends. sends.sessions };
}
