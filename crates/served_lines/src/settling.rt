//! The edits that are kept back are done together.
ghost use Rattle.std.specs.Prelude.{◌≡◌, ◌≤◌, [], All, length, IfErr, OnOk};
ghost use Rattle.chart_world.specs.Faults.{CountsFault, fault_in};
ghost use Rattle.chart_service.specs.Blaming.{BlamesSo};
ghost use Rattle.chart_service.specs.EditGroups.{SpelledBy};
ghost use Rattle.chart_service.specs.Faulting.{answer_fault};
ghost use Rattle.chart_service.specs.Naming.{GivesBy};
ghost use Rattle.series_book.specs.Edits.{IsEdit};
ghost use Rattle.chart_service.specs.Serving.{most_ahead};
ghost use Rattle.chart_service.specs.Shown as shown;
ghost use Rattle.served_lines.specs.Going.{Goes, Harms, IsCause, side_of};
ghost use Rattle.served_lines.specs.Shown.{HeldIn, LeavesAhead, SettlesIn, UnsettledIn};
ghost use Rattle.served_lines.specs.Turning.{AreTold, Held};

use crate::turns::Turns;
use chart_service::{AnswerEnd, Reply, Service, answer_edits};
use gate_pages::PageWorld;
use series_book::Edit;

/// Does the edits that are kept back, and sends their replies.
pub(crate) fn settle<P: PageWorld, S, F, R: Reply<S, F>>(
    turns: &mut Turns<'_, R, S, Vec<Edit>>,
    service: &mut Service<P>,
) -> Result<(), AnswerEnd<F>>
    requires sound { (shown.view service.old).fit }
    requires few { length turns.old.edits.items ≤ most_ahead }
    requires are_edits { All IsEdit turns.old.edits.items }
    ensures done { (held : Held S) → HeldIn P.sent held turns.old service.old
        → OnOk result (SettlesIn P.sent R.makes held turns.new service.old service.new) }
    ensures stops { (held : Held S) → HeldIn P.sent held turns.old service.old
        → IfErr result (UnsettledIn P.sent R.makes held turns.old.edits.items turns.new service.new) }
    ensures moments { (held : Held S) → HeldIn P.sent held turns.old service.old → AreTold held.sent
        → LeavesAhead R.makes held service.old service.new }
    ensures gives { SpelledBy turns.old.edits.items
        (λ lines. GivesBy R.makes lines turns.old.kept.now turns.new.kept.now service.old.sessions service.new.sessions
        (P.sent (shown.pages service.old)) (P.sent (shown.pages service.new)) result) }
    ensures blames { SpelledBy turns.old.edits.items
        (λ lines. BlamesSo P.sent R.makes lines turns.old.kept.now turns.new.kept.now service.old service.new result) }
    ensures same_reference { turns.new.kept.ghost_name ≡ turns.old.kept.ghost_name }
    ensures none { turns.new.edits.items ≡ [] }
    ensures sound { OnOk result (shown.view service.new).fit }
    ensures sound_on_err { IfErr result (λ end. (Harms end → ⊥) → (shown.view service.new).fit) }
    ensures goes { Goes (side_of P.Streams service.old) (side_of P.Streams service.new) }
    ensures cause { IfErr result (λ end. IsCause end (side_of P.Streams service.old) (side_of P.Streams service.new)) }
    ensures faults { CountsFault (fault_in answer_fault result) (shown.view service.old) (shown.view service.new) }
    ensures left { P.left (shown.pages service.new) ≡ P.left (shown.pages service.old) }
    ensures pieces { P.pieces (shown.pages service.new) ≡ P.pieces (shown.pages service.old) }
{
    if turns.edits.is_empty() {
        return Ok(());
    }
    let answer = answer_edits(service, turns.edits.as_slice(), turns.reply, turns.kept);
    turns.edits.clear();
    answer
}
