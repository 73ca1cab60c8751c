//! A line is answered, or its edit is kept back.
ghost use Rattle.std.specs.Prelude.{◌≡◌, ◌≤◌, ◌<◌, ℕ, [], Some, None, length, IfErr, OnOk};
ghost use Rattle.chart_world.specs.Faults.{CountsFault, fault_in};
ghost use Rattle.line_runs.specs.Given.{Line};
ghost use Rattle.series_book.specs.Edits.{IsEdit};
ghost use Rattle.chart_service.specs.Faulting.{answer_fault};
ghost use Rattle.chart_service.specs.Shown as shown;
ghost use Rattle.chart_service.specs.Syncing.{edit_of};
ghost use Rattle.served_lines.specs.Going.{Goes, Harms, IsCause, side_of};
ghost use Rattle.served_lines.specs.Shown.{DoesIn, FitIn, ForSpelled, LeavesIn, StandsIn, StopsFrom};
ghost use Rattle.served_lines.specs.Turning.{Lasting, Stand};

use crate::settling::settle;
use crate::turns::Turns;
use chart_service::{AnswerEnd, Reply, ServeEnd, Service, answer_line, answer_long_line};
use gate_pages::PageWorld;
use series_book::Edit;

/// The most edits that are done together.
const MOST_EDITS: usize = 64;

/// Keeps back the edit that a line spells. As soon as 64 are kept back they are done.
pub(crate) fn keep<P: PageWorld, S, F, R: Reply<S, F>>(
    turns: &mut Turns<'_, R, S, Vec<Edit>>,
    service: &mut Service<P>,
    edit: Edit,
) -> Result<(), AnswerEnd<F>>
    requires fit { FitIn turns.old service.old }
    requires is_edit { IsEdit edit }
    ensures does { (stand : Stand S) → ForSpelled edit (λ it. StandsIn P.sent stand turns.old service.old
        → OnOk result (DoesIn P.sent R.makes stand it turns.new service.old service.new)) }
    ensures stops { (stand : Stand S) → ForSpelled edit (λ it. StandsIn P.sent stand turns.old service.old
        → IfErr result (StopsFrom P.sent R.makes stand it turns.new service.old service.new)) }
    ensures leaves { (stand : Stand S) → ForSpelled edit (λ it. StandsIn P.sent stand turns.old service.old → Lasting stand
        → LeavesIn R.makes stand it service.old service.new) }
    ensures fit { OnOk result (FitIn turns.new service.new) }
    ensures fit_on_err { IfErr result (λ end. (Harms end → ⊥) → FitIn turns.new service.new) }
    ensures goes { Goes (side_of P.Streams service.old) (side_of P.Streams service.new) }
    ensures cause { IfErr result (λ end. IsCause end (side_of P.Streams service.old) (side_of P.Streams service.new)) }
    ensures faults { CountsFault (fault_in answer_fault result) (shown.view service.old) (shown.view service.new) }
    ensures left { P.left (shown.pages service.new) ≡ P.left (shown.pages service.old) }
    ensures pieces { P.pieces (shown.pages service.new) ≡ P.pieces (shown.pages service.old) }
{
    if turns.edits.push(edit).is_err() {
        return Err(AnswerEnd::Serve(ServeEnd::NoMemory));
    }
    if turns.edits.len() < MOST_EDITS {
        return Ok(());
    }
    settle(turns, service)
}

/// Does the edits that are kept back, and then answers a line that spells no edit and isn't empty.
pub(crate) fn answer_other<P: PageWorld, S, F, R: Reply<S, F>>(
    turns: &mut Turns<'_, R, S, Vec<Edit>>,
    service: &mut Service<P>,
    line: &[u8],
) -> Result<(), AnswerEnd<F>>
    requires fit { FitIn turns.old service.old }
    requires short { length line.now ≤ 8192 }
    requires some { 0 < length line.now }
    requires other { edit_of (Some line.now) ≡ [] }
    ensures does { (stand : Stand S) (at : ℕ) → StandsIn P.sent stand turns.old service.old
        → OnOk result (DoesIn P.sent R.makes stand (Line at (Some line.now)) turns.new service.old service.new) }
    ensures stops { (stand : Stand S) (at : ℕ) → StandsIn P.sent stand turns.old service.old
        → IfErr result (StopsFrom P.sent R.makes stand (Line at (Some line.now)) turns.new service.old service.new) }
    ensures leaves { (stand : Stand S) (at : ℕ) → StandsIn P.sent stand turns.old service.old → Lasting stand
        → LeavesIn R.makes stand (Line at (Some line.now)) service.old service.new }
    ensures fit { OnOk result (FitIn turns.new service.new) }
    ensures fit_on_err { IfErr result (λ end. (Harms end → ⊥) → FitIn turns.new service.new) }
    ensures goes { Goes (side_of P.Streams service.old) (side_of P.Streams service.new) }
    ensures cause { IfErr result (λ end. IsCause end (side_of P.Streams service.old) (side_of P.Streams service.new)) }
    ensures faults { CountsFault (fault_in answer_fault result) (shown.view service.old) (shown.view service.new) }
    ensures left { P.left (shown.pages service.new) ≡ P.left (shown.pages service.old) }
    ensures pieces { P.pieces (shown.pages service.new) ≡ P.pieces (shown.pages service.old) }
{
    match settle(turns, service) {
        Ok(()) => {}
        Err(end) => return Err(end),
    }
    answer_line(service, line, turns.reply, turns.kept)
}

/// Does the edits that are kept back, and then refuses a line that is too long.
pub(crate) fn refuse_long<P: PageWorld, S, F, R: Reply<S, F>>(
    turns: &mut Turns<'_, R, S, Vec<Edit>>,
    service: &mut Service<P>,
) -> Result<(), AnswerEnd<F>>
    requires fit { FitIn turns.old service.old }
    ensures does { (stand : Stand S) (at : ℕ) → StandsIn P.sent stand turns.old service.old
        → OnOk result (DoesIn P.sent R.makes stand (Line at None) turns.new service.old service.new) }
    ensures stops { (stand : Stand S) (at : ℕ) → StandsIn P.sent stand turns.old service.old
        → IfErr result (StopsFrom P.sent R.makes stand (Line at None) turns.new service.old service.new) }
    ensures leaves { (stand : Stand S) (at : ℕ) → StandsIn P.sent stand turns.old service.old → Lasting stand
        → LeavesIn R.makes stand (Line at None) service.old service.new }
    ensures fit { OnOk result (FitIn turns.new service.new) }
    ensures fit_on_err { IfErr result (λ end. (Harms end → ⊥) → FitIn turns.new service.new) }
    ensures goes { Goes (side_of P.Streams service.old) (side_of P.Streams service.new) }
    ensures cause { IfErr result (λ end. IsCause end (side_of P.Streams service.old) (side_of P.Streams service.new)) }
    ensures faults { CountsFault (fault_in answer_fault result) (shown.view service.old) (shown.view service.new) }
    ensures left { P.left (shown.pages service.new) ≡ P.left (shown.pages service.old) }
    ensures pieces { P.pieces (shown.pages service.new) ≡ P.pieces (shown.pages service.old) }
{
    match settle(turns, service) {
        Ok(()) => {}
        Err(end) => return Err(end),
    }
    answer_long_line(service, turns.reply, turns.kept)
}
