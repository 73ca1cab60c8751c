//! The edits that are kept back are done together, answered and pushed.
ghost use Rattle.std.specs.Prelude.{◌≡◌, ◌≤◌, ◌<◌, [], All, length, IfErr, OnOk};
ghost use Rattle.chart_service.specs.EditGroups.{SpelledBy};
ghost use Rattle.chart_service.specs.Serving.{most_ahead};
ghost use Rattle.chart_world.specs.Faults.{CountsFault, fault_in};
ghost use Rattle.live_service.specs.Shown as its;
ghost use Rattle.live_view.specs.Live as follows;
ghost use Rattle.run_ends.specs.Faults.{end_fault};
ghost use Rattle.series_book.specs.Edits.{IsEdit};
ghost use Rattle.hosted_lines.specs.Answers.{MayAnswerHost, SendsFor, followed_behind};
ghost use Rattle.hosted_lines.specs.Blaming.{BlamesFor, BlamesHost};
ghost use Rattle.hosted_lines.specs.Doing.{Goes, side_of};
ghost use Rattle.hosted_lines.specs.Hosting.{HostsFor};
ghost use Rattle.hosted_lines.specs.Shown.{ForSound, pages};
ghost use Rattle.hosted_lines.specs.Working.{CausesEnd};

use crate::answering::{send_pushes, step_end};
use crate::host_turns::HostTurns;
use crate::sending::send_frames;
use gate_pages::PageWorld;
use live_service::{ServiceStepper, step_edits};
use live_view::Live;
use run_ends::End;
use series_book::Edit;
use std::alloc::Global;

/// Does 1 to 64 edits together, and sends their replies one by one.
fn answer_group<P: PageWorld>(
    alloc: Global,
    live: &mut Live<ServiceStepper<P>>,
    edits: &[Edit],
) -> Result<(), End>
    requires sound { (its.view live.old).fit }
    requires idle { follows.IsIdle live.old }
    requires some { 0 < length edits.now }
    requires few { length edits.now ≤ most_ahead }
    requires are_edits { All IsEdit edits.now }
    ensures does { SpelledBy edits.now (λ lines. ForSound live.old
        (λ total book. HostsFor P.Streams 1 lines total book result live.old live.new)) }
    ensures sends { SpelledBy edits.now (λ lines. OnOk result (SendsFor P.Streams MayAnswerHost followed_behind lines live.old live.new)) }
    ensures blames { SpelledBy edits.now (λ lines. IfErr result
        (BlamesFor P.Streams MayAnswerHost followed_behind BlamesHost lines live.old live.new)) }
    ensures goes { Goes (side_of P.Streams live.old) (side_of P.Streams live.new) }
    ensures cause { IfErr result (λ e. CausesEnd e (side_of P.Streams live.old) (side_of P.Streams live.new)) }
    ensures faults { CountsFault (fault_in end_fault result) (its.view live.old) (its.view live.new) }
    ensures sound { OnOk result (its.view live.new).fit }
    ensures left { P.left (pages live.new) ≡ P.left (pages live.old) }
    ensures pieces { P.pieces (pages live.new) ≡ P.pieces (pages live.old) }
{
    match step_edits(live, edits) {
        Ok(frames) => send_frames(alloc, live, frames.as_slice()),
        Err(error) => Err(step_end(error)),
    }
}

/// Does edits together, sends their replies one by one, and makes the pushes behind them.
fn do_group<P: PageWorld>(
    alloc: Global,
    live: &mut Live<ServiceStepper<P>>,
    edits: &[Edit],
) -> Result<(), End>
    requires sound { (its.view live.old).fit }
    requires idle { follows.IsIdle live.old }
    requires few { length edits.now ≤ most_ahead }
    requires are_edits { All IsEdit edits.now }
    ensures does { SpelledBy edits.now (λ lines. ForSound live.old
        (λ total book. HostsFor P.Streams 1 lines total book result live.old live.new)) }
    ensures sends { SpelledBy edits.now (λ lines. OnOk result (SendsFor P.Streams MayAnswerHost followed_behind lines live.old live.new)) }
    ensures blames { SpelledBy edits.now (λ lines. IfErr result
        (BlamesFor P.Streams MayAnswerHost followed_behind BlamesHost lines live.old live.new)) }
    ensures goes { Goes (side_of P.Streams live.old) (side_of P.Streams live.new) }
    ensures cause { IfErr result (λ e. CausesEnd e (side_of P.Streams live.old) (side_of P.Streams live.new)) }
    ensures faults { CountsFault (fault_in end_fault result) (its.view live.old) (its.view live.new) }
    ensures sound { OnOk result (its.view live.new).fit }
    ensures left { P.left (pages live.new) ≡ P.left (pages live.old) }
    ensures pieces { P.pieces (pages live.new) ≡ P.pieces (pages live.old) }
    ensures idle { OnOk result (follows.IsIdle live.new) }
{
    if edits.is_empty() {
        return Ok(());
    }
    match answer_group(alloc, live, edits) {
        Ok(()) => send_pushes(alloc, live),
        Err(end) => Err(end),
    }
}

/// Does the edits that are kept back.
pub(crate) fn settle<P: PageWorld>(
    turns: &mut HostTurns,
    live: &mut Live<ServiceStepper<P>>,
) -> Result<(), End>
    requires sound { (its.view live.old).fit }
    requires idle { follows.IsIdle live.old }
    requires few { length turns.old.edits.items ≤ most_ahead }
    requires are_edits { All IsEdit turns.old.edits.items }
    ensures does { SpelledBy turns.old.edits.items (λ lines. ForSound live.old
        (λ total book. HostsFor P.Streams 1 lines total book result live.old live.new)) }
    ensures sends { SpelledBy turns.old.edits.items
        (λ lines. OnOk result (SendsFor P.Streams MayAnswerHost followed_behind lines live.old live.new)) }
    ensures blames { SpelledBy turns.old.edits.items
        (λ lines. IfErr result (BlamesFor P.Streams MayAnswerHost followed_behind BlamesHost lines live.old live.new)) }
    ensures none { turns.new.edits.items ≡ [] }
    ensures goes { Goes (side_of P.Streams live.old) (side_of P.Streams live.new) }
    ensures cause { IfErr result (λ e. CausesEnd e (side_of P.Streams live.old) (side_of P.Streams live.new)) }
    ensures faults { CountsFault (fault_in end_fault result) (its.view live.old) (its.view live.new) }
    ensures sound { OnOk result (its.view live.new).fit }
    ensures left { P.left (pages live.new) ≡ P.left (pages live.old) }
    ensures pieces { P.pieces (pages live.new) ≡ P.pieces (pages live.old) }
    ensures idle { OnOk result (follows.IsIdle live.new) }
{
    let answer = do_group(turns.alloc, live, turns.edits.as_slice());
    turns.edits.clear();
    answer
}
