//! A line is answered behind the edits that are kept back.
ghost use Rattle.std.specs.Prelude.{◌≡◌, ◌≤◌, ◌<◌, [], ◌∷◌, ◌++◌, All, Some, None, length, IfErr, OnOk};
ghost use Rattle.chart_service.specs.EditGroups.{SpelledBy};
ghost use Rattle.chart_service.specs.Serving.{most_ahead, unless_empty};
ghost use Rattle.chart_service.specs.Syncing.{edit_of};
ghost use Rattle.chart_world.specs.Faults.{CountsFault, fault_in};
ghost use Rattle.host_lines.specs.Grammar.{IsInRange, host_line};
ghost use Rattle.live_service.specs.Shown as its;
ghost use Rattle.live_view.specs.Live as follows;
ghost use Rattle.run_ends.specs.Faults.{end_fault};
ghost use Rattle.series_book.specs.Edits.{IsEdit};
ghost use Rattle.hosted_lines.specs.Answers.{MayAnswerHost, SendsFor, followed_behind};
ghost use Rattle.hosted_lines.specs.Blaming.{BlamesFor, BlamesHost};
ghost use Rattle.hosted_lines.specs.Doing.{Goes, side_of};
ghost use Rattle.hosted_lines.specs.Hosting.{HostsFor};
ghost use Rattle.hosted_lines.specs.Hosts.{IsPassed};
ghost use Rattle.hosted_lines.specs.Shown.{ForSound, pages};
ghost use Rattle.hosted_lines.specs.Working.{CausesEnd};

use crate::answering::{answer_line, refuse_line};
use crate::host_turns::HostTurns;
use crate::reporting::answer_asked;
use crate::settling::settle;
use crate::sweeping::answer_step;
use gate_pages::PageWorld;
use host_lines::HostLine;
use live_service::ServiceStepper;
use live_view::Live;
use run_ends::End;

/// Does the edits that are kept back, and then answers a line that spells no edit and asks nothing of the host alone.
fn answer_other<P: PageWorld>(
    turns: &mut HostTurns,
    live: &mut Live<ServiceStepper<P>>,
    line: &[u8],
) -> Result<(), End>
    requires sound { (its.view live.old).fit }
    requires idle { follows.IsIdle live.old }
    requires few { length turns.old.edits.items ≤ most_ahead }
    requires are_edits { All IsEdit turns.old.edits.items }
    requires short { length line.now ≤ 8192 }
    requires other { edit_of (Some line.now) ≡ [] }
    requires passed { IsPassed (Some line.now) }
    ensures does { SpelledBy turns.old.edits.items (λ lines. ForSound live.old
        (λ total book. HostsFor P.Streams 1 (lines ++ unless_empty (Some line.now)) total book result live.old live.new)) }
    ensures sends { SpelledBy turns.old.edits.items
        (λ lines. OnOk result (SendsFor P.Streams MayAnswerHost followed_behind
        (lines ++ unless_empty (Some line.now)) live.old live.new)) }
    ensures blames { SpelledBy turns.old.edits.items
        (λ lines. IfErr result (BlamesFor P.Streams MayAnswerHost followed_behind BlamesHost
        (lines ++ unless_empty (Some line.now)) live.old live.new)) }
    ensures none { turns.new.edits.items ≡ [] }
    ensures goes { Goes (side_of P.Streams live.old) (side_of P.Streams live.new) }
    ensures cause { IfErr result (λ e. CausesEnd e (side_of P.Streams live.old) (side_of P.Streams live.new)) }
    ensures faults { CountsFault (fault_in end_fault result) (its.view live.old) (its.view live.new) }
    ensures sound { OnOk result (its.view live.new).fit }
    ensures left { P.left (pages live.new) ≡ P.left (pages live.old) }
    ensures pieces { P.pieces (pages live.new) ≡ P.pieces (pages live.old) }
    ensures idle { OnOk result (follows.IsIdle live.new) }
{
    match settle(turns, live) {
        Ok(()) => answer_line(turns.alloc, live, line),
        Err(end) => Err(end),
    }
}

/// Does the edits that are kept back, and then answers a line that spells no edit and isn't empty, by what it asks of the
/// host alone.
pub(crate) fn answer_alone<P: PageWorld>(
    turns: &mut HostTurns,
    live: &mut Live<ServiceStepper<P>>,
    line: &[u8],
    asked: &HostLine,
) -> Result<(), End>
    requires sound { (its.view live.old).fit }
    requires idle { follows.IsIdle live.old }
    requires few { length turns.old.edits.items ≤ most_ahead }
    requires are_edits { All IsEdit turns.old.edits.items }
    requires short { length line.now ≤ 8192 }
    requires some { 0 < length line.now }
    requires other { edit_of (Some line.now) ≡ [] }
    requires asks { asked.now ≡ host_line line.now }
    requires range { IsInRange asked.now }
    ensures does { SpelledBy turns.old.edits.items (λ lines. ForSound live.old
        (λ total book. HostsFor P.Streams 1 (lines ++ unless_empty (Some line.now)) total book result live.old live.new)) }
    ensures sends { SpelledBy turns.old.edits.items
        (λ lines. OnOk result (SendsFor P.Streams MayAnswerHost followed_behind
        (lines ++ unless_empty (Some line.now)) live.old live.new)) }
    ensures blames { SpelledBy turns.old.edits.items
        (λ lines. IfErr result (BlamesFor P.Streams MayAnswerHost followed_behind BlamesHost
        (lines ++ unless_empty (Some line.now)) live.old live.new)) }
    ensures none { turns.new.edits.items ≡ [] }
    ensures goes { Goes (side_of P.Streams live.old) (side_of P.Streams live.new) }
    ensures cause { IfErr result (λ e. CausesEnd e (side_of P.Streams live.old) (side_of P.Streams live.new)) }
    ensures faults { CountsFault (fault_in end_fault result) (its.view live.old) (its.view live.new) }
    ensures sound { OnOk result (its.view live.new).fit }
    ensures left { P.left (pages live.new) ≡ P.left (pages live.old) }
    ensures pieces { P.pieces (pages live.new) ≡ P.pieces (pages live.old) }
    ensures idle { OnOk result (follows.IsIdle live.new) }
{
    match asked {
        HostLine::List | HostLine::Values { .. } | HostLine::Sum { .. } | HostLine::Bad { .. } =>
            answer_asked(turns, live, asked),
        HostLine::Sweep(rule) => answer_step(turns, live, rule),
        HostLine::Other => answer_other(turns, live, line),
    }
}

/// Does the edits that are kept back, and then refuses a line that is too long.
pub(crate) fn refuse_long<P: PageWorld>(
    turns: &mut HostTurns,
    live: &mut Live<ServiceStepper<P>>,
) -> Result<(), End>
    requires sound { (its.view live.old).fit }
    requires idle { follows.IsIdle live.old }
    requires few { length turns.old.edits.items ≤ most_ahead }
    requires are_edits { All IsEdit turns.old.edits.items }
    ensures does { SpelledBy turns.old.edits.items (λ lines. ForSound live.old
        (λ total book. HostsFor P.Streams 1 (lines ++ None ∷ []) total book result live.old live.new)) }
    ensures sends { SpelledBy turns.old.edits.items
        (λ lines. OnOk result (SendsFor P.Streams MayAnswerHost followed_behind (lines ++ None ∷ []) live.old live.new)) }
    ensures blames { SpelledBy turns.old.edits.items
        (λ lines. IfErr result (BlamesFor P.Streams MayAnswerHost followed_behind BlamesHost (lines ++ None ∷ []) live.old live.new)) }
    ensures none { turns.new.edits.items ≡ [] }
    ensures goes { Goes (side_of P.Streams live.old) (side_of P.Streams live.new) }
    ensures cause { IfErr result (λ e. CausesEnd e (side_of P.Streams live.old) (side_of P.Streams live.new)) }
    ensures faults { CountsFault (fault_in end_fault result) (its.view live.old) (its.view live.new) }
    ensures sound { OnOk result (its.view live.new).fit }
    ensures left { P.left (pages live.new) ≡ P.left (pages live.old) }
    ensures pieces { P.pieces (pages live.new) ≡ P.pieces (pages live.old) }
    ensures idle { OnOk result (follows.IsIdle live.new) }
{
    match settle(turns, live) {
        Ok(()) => refuse_line(turns.alloc, live),
        Err(end) => Err(end),
    }
}
