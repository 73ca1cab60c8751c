//! What a line asks of the host alone is reported.
ghost use Rattle.std.specs.Prelude.{◌≡◌, ◌≤◌, ◌∷◌, ◌++◌, ℕ, List, [], All, Some, length, IfErr, OnOk};
ghost use Rattle.chart_service.specs.EditGroups.{SpelledBy};
ghost use Rattle.chart_service.specs.Serving.{most_ahead};
ghost use Rattle.chart_world.specs.Faults.{CountsFault, fault_in};
ghost use Rattle.host_lines.specs.Grammar.{IsInRange, host_line};
ghost use Rattle.host_replies.specs.Replies.{AsksReport};
ghost use Rattle.live_service.specs.Shown as its;
ghost use Rattle.live_view.specs.Live as follows;
ghost use Rattle.run_ends.specs.Faults.{end_fault};
ghost use Rattle.series_book.specs.Edits.{IsEdit};
ghost use Rattle.hosted_lines.specs.Answers.{MayAnswerHost, SendsFor, followed_behind};
ghost use Rattle.hosted_lines.specs.Blaming.{BlamesFor, BlamesHost};
ghost use Rattle.hosted_lines.specs.Doing.{Goes, side_of};
ghost use Rattle.hosted_lines.specs.Hosting.{HostsFor};
ghost use Rattle.hosted_lines.specs.Reporting.{Makes, MayMake};
ghost use Rattle.hosted_lines.specs.Shown.{ForSound, pages};
ghost use Rattle.hosted_lines.specs.Working.{CausesEnd};

use crate::answering::{send_frame, step_end};
use crate::host_turns::HostTurns;
use crate::settling::settle;
use chart_frames::Frame;
use chart_service::ServiceError;
use gate_pages::PageWorld;
use host_lines::HostLine;
use host_replies::answer_report;
use live_service::ServiceStepper;
use live_view::{Live, StepperWork};
use run_ends::End;
use std::alloc::Global;

/// The frame of a report is made on the service below.
#[derive(Drop)]
struct ReportWork<'a> {
    alloc: Global,
    asked: &'a HostLine,
}

impl<'a, P: PageWorld> StepperWork<ServiceStepper<P>> for ReportWork<'a> {
    type Answer = Result<Frame, ServiceError>;

    ghost may = { λ work at. MayMake work.asked.now at.service };

    ghost does = { λ work old answer work' new. Makes work.asked.now answer old.service new.service };

    fn work(&mut self, stepper: &mut ServiceStepper<P>) -> Result<Frame, ServiceError> {
        answer_report(self.alloc, &mut stepper.service, self.asked)
    }
}

/// Makes the frame of a report.
fn make_report<P: PageWorld>(
    alloc: Global,
    live: &mut Live<ServiceStepper<P>>,
    asked: &HostLine,
) -> Result<Frame, ServiceError>
    requires { MayMake asked.now (its.service live.old) }
    ensures makes { Makes asked.now result (its.service live.old) (its.service live.new) }
    ensures followed { follows.followed live.new ≡ follows.followed live.old }
    ensures pending { follows.pending live.new ≡ follows.pending live.old }
{
    let mut work = ReportWork { alloc, asked };
    live.with_stepper(&mut work)
}

/// Reports what a line asks.
fn send_report<P: PageWorld>(
    alloc: Global,
    live: &mut Live<ServiceStepper<P>>,
    asked: &HostLine,
) -> Result<(), End>
    requires may { MayMake asked.now (its.service live.old) }
    requires idle { follows.IsIdle live.old }
    ensures does { (line : List ℕ) → host_line line ≡ asked.now
        → ForSound live.old (λ total book. HostsFor P.Streams 0 (Some line ∷ []) total book result live.old live.new) }
    ensures sends { (line : List ℕ) → host_line line ≡ asked.now
        → OnOk result (SendsFor P.Streams MayAnswerHost followed_behind (Some line ∷ []) live.old live.new) }
    ensures blames { (line : List ℕ) → host_line line ≡ asked.now
        → IfErr result (BlamesFor P.Streams MayAnswerHost followed_behind BlamesHost (Some line ∷ []) live.old live.new) }
    ensures goes { Goes (side_of P.Streams live.old) (side_of P.Streams live.new) }
    ensures cause { IfErr result (λ e. CausesEnd e (side_of P.Streams live.old) (side_of P.Streams live.new)) }
    ensures faults { CountsFault (fault_in end_fault result) (its.view live.old) (its.view live.new) }
    ensures sound { OnOk result (its.view live.new).fit }
    ensures left { P.left (pages live.new) ≡ P.left (pages live.old) }
    ensures pieces { P.pieces (pages live.new) ≡ P.pieces (pages live.old) }
    ensures idle { OnOk result (follows.IsIdle live.new) }
{
    match make_report(alloc, live, asked) {
        Ok(frame) => send_frame(alloc, live, &frame),
        Err(error) => Err(step_end(error)),
    }
}

/// Does the edits that are kept back, and then reports what a line asks.
pub(crate) fn answer_asked<P: PageWorld>(
    turns: &mut HostTurns,
    live: &mut Live<ServiceStepper<P>>,
    asked: &HostLine,
) -> Result<(), End>
    requires sound { (its.view live.old).fit }
    requires idle { follows.IsIdle live.old }
    requires few { length turns.old.edits.items ≤ most_ahead }
    requires are_edits { All IsEdit turns.old.edits.items }
    requires report { AsksReport asked.now }
    requires range { IsInRange asked.now }
    ensures does { (line : List ℕ) → host_line line ≡ asked.now
        → SpelledBy turns.old.edits.items (λ lines. ForSound live.old
        (λ total book. HostsFor P.Streams 1 (lines ++ Some line ∷ []) total book result live.old live.new)) }
    ensures sends { (line : List ℕ) → host_line line ≡ asked.now
        → SpelledBy turns.old.edits.items (λ lines. OnOk result
        (SendsFor P.Streams MayAnswerHost followed_behind (lines ++ Some line ∷ []) live.old live.new)) }
    ensures blames { (line : List ℕ) → host_line line ≡ asked.now
        → SpelledBy turns.old.edits.items (λ lines. IfErr result
        (BlamesFor P.Streams MayAnswerHost followed_behind BlamesHost (lines ++ Some line ∷ []) live.old live.new)) }
    ensures none { turns.new.edits.items ≡ [] }
    ensures goes { Goes (side_of P.Streams live.old) (side_of P.Streams live.new) }
    ensures cause { IfErr result (λ e. CausesEnd e (side_of P.Streams live.old) (side_of P.Streams live.new)) }
    ensures faults { CountsFault (fault_in end_fault result) (its.view live.old) (its.view live.new) }
    ensures sound { OnOk result (its.view live.new).fit }
    ensures left { P.left (pages live.new) ≡ P.left (pages live.old) }
    ensures pieces { P.pieces (pages live.new) ≡ P.pieces (pages live.old) }
    ensures idle { OnOk result (follows.IsIdle live.new) }
{
    match settle(turns, live) {
        Ok(()) => send_report(turns.alloc, live, asked),
        Err(end) => Err(end),
    }
}
