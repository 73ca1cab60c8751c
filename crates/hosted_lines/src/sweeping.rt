//! The step of a sweep that a line asks for is done, answered and pushed.
ghost use Rattle.std.specs.Prelude.{◌≡◌, ◌≤◌, ◌∷◌, ◌++◌, ℕ, List, [], All, Some, length, IfErr, OnOk};
ghost use Rattle.chart_service.specs.EditGroups.{SpelledBy};
ghost use Rattle.chart_service.specs.Serving.{most_ahead};
ghost use Rattle.chart_world.specs.Faults.{CountsFault, fault_in};
ghost use Rattle.host_lines.specs.Grammar.{host_line};
ghost use Rattle.host_lines.specs.declared.asked.HostLine.TheVariants.{Sweep};
ghost use Rattle.live_service.specs.Shown as its;
ghost use Rattle.live_view.specs.Live as follows;
ghost use Rattle.run_ends.specs.Faults.{end_fault};
ghost use Rattle.series_book.specs.Edits.{IsEdit};
ghost use Rattle.hosted_lines.specs.Answers.{MayAnswerHost, SendsFor, followed_behind};
ghost use Rattle.hosted_lines.specs.Blaming.{BlamesFor, BlamesHost};
ghost use Rattle.hosted_lines.specs.Doing.{Goes, side_of};
ghost use Rattle.hosted_lines.specs.Hosting.{HostsFor};
ghost use Rattle.hosted_lines.specs.Shown.{ForSound, pages};
ghost use Rattle.hosted_lines.specs.Working.{CausesEnd};

use crate::answering::{send_frame, send_pushes, step_end};
use crate::host_turns::HostTurns;
use crate::settling::settle;
use gate_pages::PageWorld;
use host_sweeps::sweep_step;
use live_service::ServiceStepper;
use live_view::Live;
use retention::Rule;
use run_ends::End;
use std::alloc::Global;

/// Does a step of a sweep, and sends its frame.
fn send_step<P: PageWorld>(
    alloc: Global,
    live: &mut Live<ServiceStepper<P>>,
    rule: &Rule,
) -> Result<(), End>
    requires sound { (its.view live.old).fit }
    requires idle { follows.IsIdle live.old }
    ensures does { (line : List ℕ) → host_line line ≡ Sweep rule.now
        → ForSound live.old (λ total book. HostsFor P.Streams 0 (Some line ∷ []) total book result live.old live.new) }
    ensures sends { (line : List ℕ) → host_line line ≡ Sweep rule.now
        → OnOk result (SendsFor P.Streams MayAnswerHost followed_behind (Some line ∷ []) live.old live.new) }
    ensures blames { (line : List ℕ) → host_line line ≡ Sweep rule.now
        → IfErr result (BlamesFor P.Streams MayAnswerHost followed_behind BlamesHost (Some line ∷ []) live.old live.new) }
    ensures goes { Goes (side_of P.Streams live.old) (side_of P.Streams live.new) }
    ensures cause { IfErr result (λ e. CausesEnd e (side_of P.Streams live.old) (side_of P.Streams live.new)) }
    ensures faults { CountsFault (fault_in end_fault result) (its.view live.old) (its.view live.new) }
    ensures sound { OnOk result (its.view live.new).fit }
    ensures left { P.left (pages live.new) ≡ P.left (pages live.old) }
    ensures pieces { P.pieces (pages live.new) ≡ P.pieces (pages live.old) }
{
    match sweep_step(live, rule) {
        Ok(frame) => send_frame(alloc, live, &frame),
        Err(error) => Err(step_end(error)),
    }
}

/// Does a step of a sweep, sends its frame, and makes the pushes behind it.
fn do_step<P: PageWorld>(
    alloc: Global,
    live: &mut Live<ServiceStepper<P>>,
    rule: &Rule,
) -> Result<(), End>
    requires sound { (its.view live.old).fit }
    requires idle { follows.IsIdle live.old }
    ensures does { (line : List ℕ) → host_line line ≡ Sweep rule.now
        → ForSound live.old (λ total book. HostsFor P.Streams 0 (Some line ∷ []) total book result live.old live.new) }
    ensures sends { (line : List ℕ) → host_line line ≡ Sweep rule.now
        → OnOk result (SendsFor P.Streams MayAnswerHost followed_behind (Some line ∷ []) live.old live.new) }
    ensures blames { (line : List ℕ) → host_line line ≡ Sweep rule.now
        → IfErr result (BlamesFor P.Streams MayAnswerHost followed_behind BlamesHost (Some line ∷ []) live.old live.new) }
    ensures goes { Goes (side_of P.Streams live.old) (side_of P.Streams live.new) }
    ensures cause { IfErr result (λ e. CausesEnd e (side_of P.Streams live.old) (side_of P.Streams live.new)) }
    ensures faults { CountsFault (fault_in end_fault result) (its.view live.old) (its.view live.new) }
    ensures sound { OnOk result (its.view live.new).fit }
    ensures left { P.left (pages live.new) ≡ P.left (pages live.old) }
    ensures pieces { P.pieces (pages live.new) ≡ P.pieces (pages live.old) }
    ensures idle { OnOk result (follows.IsIdle live.new) }
{
    match send_step(alloc, live, rule) {
        Ok(()) => send_pushes(alloc, live),
        Err(end) => Err(end),
    }
}

/// Does the edits that are kept back, and then the step of a sweep, with the pushes behind each.
pub(crate) fn answer_step<P: PageWorld>(
    turns: &mut HostTurns,
    live: &mut Live<ServiceStepper<P>>,
    rule: &Rule,
) -> Result<(), End>
    requires sound { (its.view live.old).fit }
    requires idle { follows.IsIdle live.old }
    requires few { length turns.old.edits.items ≤ most_ahead }
    requires are_edits { All IsEdit turns.old.edits.items }
    ensures does { (line : List ℕ) → host_line line ≡ Sweep rule.now
        → SpelledBy turns.old.edits.items (λ lines. ForSound live.old
        (λ total book. HostsFor P.Streams 1 (lines ++ Some line ∷ []) total book result live.old live.new)) }
    ensures sends { (line : List ℕ) → host_line line ≡ Sweep rule.now
        → SpelledBy turns.old.edits.items (λ lines. OnOk result
        (SendsFor P.Streams MayAnswerHost followed_behind (lines ++ Some line ∷ []) live.old live.new)) }
    ensures blames { (line : List ℕ) → host_line line ≡ Sweep rule.now
        → SpelledBy turns.old.edits.items (λ lines. IfErr result
        (BlamesFor P.Streams MayAnswerHost followed_behind BlamesHost (lines ++ Some line ∷ []) live.old live.new)) }
    ensures none { turns.new.edits.items ≡ [] }
    ensures goes { Goes (side_of P.Streams live.old) (side_of P.Streams live.new) }
    ensures cause { IfErr result (λ e. CausesEnd e (side_of P.Streams live.old) (side_of P.Streams live.new)) }
    ensures faults { CountsFault (fault_in end_fault result) (its.view live.old) (its.view live.new) }
    ensures sound { OnOk result (its.view live.new).fit }
    ensures left { P.left (pages live.new) ≡ P.left (pages live.old) }
    ensures pieces { P.pieces (pages live.new) ≡ P.pieces (pages live.old) }
    ensures idle { OnOk result (follows.IsIdle live.new) }
{
    match settle(turns, live) {
        Ok(()) => do_step(turns.alloc, live, rule),
        Err(end) => Err(end),
    }
}
