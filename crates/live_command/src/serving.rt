//! The lines of a live service's streams are answered, and the pushes behind them made.
ghost use Rattle.std.specs.Prelude.{◌≡◌, ◌≢◌, ◌≤◌, ◌<◌, ◌^◌, Err, length, IfErr, IfSome, OnOk};
ghost use Rattle.chart_service.specs.Blaming.{Blames};
ghost use Rattle.chart_service.specs.Serving.{told};
ghost use Rattle.chart_world.specs.Faults.{CountsFault, fault_in};
ghost use Rattle.chart_world.specs.Reading.{IsReadUp, unread_input};
ghost use Rattle.live_service.specs.Pushing.{followed_after};
ghost use Rattle.live_service.specs.Kinds.{MayAnswerLive};
ghost use Rattle.live_service.specs.Shown as its;
ghost use Rattle.live_view.specs.Live as follows;
ghost use Rattle.run_ends.specs.Faults.{end_fault};
ghost use Rattle.hosted_lines.specs.Answers.{SendsFor};
ghost use Rattle.hosted_lines.specs.Blaming.{BlamesInput};
ghost use Rattle.hosted_lines.specs.Doing.{Goes, IsCause, side_of};
ghost use Rattle.live_command.specs.Syncs.{SyncsLines};
ghost use Rattle.hosted_lines.specs.Shown.{HoldsSound, pages};
ghost use Rattle.live_command.specs.Shown.{AreAnswered, EndsOn, LastsFor, ReadsFew};

use chart_world::{LineAnswer, Lines};
use gate_pages::PageWorld;
use hosted_lines::{answer_line, refuse_line};
use live_service::ServiceStepper;
use live_view::Live;
use run_ends::{End, input_end};
use std::alloc::Global;

/// Answers each line of the input that isn't empty, in order, and makes the pushes behind it, by sending the spellings of
/// frames; each frame is sent before the next is made. A line of more than 8,192 bytes is refused as too long. After `Done`
/// the input was read to its end.
pub fn serve_live<P: PageWorld>(alloc: Global, live: &mut Live<ServiceStepper<P>>) -> End
    requires sound { (its.view live.old).fit }
    requires idle { follows.IsIdle live.old }
    requires book { HoldsSound live.old }
    ensures ends { its.ForBook live.old (λ total book. EndsOn P.Streams total book live.old live.new result) }
    ensures within { result ≡ End.Done → IfSome (P.left (pages live.old)) (λ input. length input ≤ 2 ^ 32) }
    // at each moment a crash leaves a book with each edit whose Done was sent by then, and at most one edit more
    ensures crash { its.ForBook live.old (λ total book. LastsFor P.Streams total book live.old live.new) }
    // blocks are read by the lines and the pushes alone, by each as few as it may
    ensures reads { its.ForBook live.old (λ total book. ReadsFew P.Streams total book live.old live.new) }
    // the disk is synced for edits alone, at most four times for each
    ensures syncs { IfSome (P.left (pages live.old)) (λ input. SyncsLines input (its.view live.old).syncs (its.view live.new).syncs) }
    // whatever the pages are
    // a page that is called damaged is so for the line behind the answered ones, or for a push
    ensures blames { BlamesInput P.Streams MayAnswerLive followed_after Blames live.old live.new result }
    // each frame names sessions that are open by those before it, and after `Done` one answers each line; the others are pushes
    ensures answers { result ≡ End.Done → IfSome (P.left (pages live.old))
        (λ input. SendsFor P.Streams MayAnswerLive followed_after (told input) live.old live.new) }
    ensures whole { result ≡ End.Done → IsReadUp (P.left (pages live.old)) (P.left (pages live.new)) }
    ensures long { result ≡ End.InputTooLong → IfSome (P.left (pages live.old)) (λ input. 2 ^ 32 < length input) }
    ensures goes { Goes (side_of P.Streams live.old) (side_of P.Streams live.new) }
    ensures cause { result ≢ End.Done → IsCause result (side_of P.Streams live.old) (side_of P.Streams live.new) }
    ensures faults { CountsFault (end_fault result) (its.view live.old) (its.view live.new) }
    ensures sound { result ≢ End.DiskFault → (its.view live.new).fit }
{
    let Ok(mut lines) = Lines::new(alloc) else {
        return End::NoMemory;
    };
    match answer_lines(alloc, live, &mut lines) {
        Ok(()) => End::Done,
        Err(end) => end,
    }
}

/// The same by a reader of lines that has given none.
fn answer_lines<P: PageWorld>(
    alloc: Global,
    live: &mut Live<ServiceStepper<P>>,
    lines: &mut Lines,
) -> Result<(), End>
    requires sound { (its.view live.old).fit }
    requires idle { follows.IsIdle live.old }
    requires book { HoldsSound live.old }
    requires fresh { lines.old ≡ unread_input }
    ensures done { its.ForBook live.old (λ total book. OnOk result (AreAnswered P.Streams total book live.old live.new)) }
    ensures within { OnOk result (IfSome (P.left (pages live.old)) (λ input. length input ≤ 2 ^ 32)) }
    ensures stops { its.ForBook live.old (λ total book. IfErr result (EndsOn P.Streams total book live.old live.new)) }
    ensures crash { its.ForBook live.old (λ total book. LastsFor P.Streams total book live.old live.new) }
    ensures reads { its.ForBook live.old (λ total book. ReadsFew P.Streams total book live.old live.new) }
    ensures syncs { IfSome (P.left (pages live.old)) (λ input. SyncsLines input (its.view live.old).syncs (its.view live.new).syncs) }
    ensures blames { IfErr result (BlamesInput P.Streams MayAnswerLive followed_after Blames live.old live.new) }
    ensures answers { OnOk result (IfSome (P.left (pages live.old))
        (λ input. SendsFor P.Streams MayAnswerLive followed_after (told input) live.old live.new)) }
    ensures whole { OnOk result (IsReadUp (P.left (pages live.old)) (P.left (pages live.new))) }
    ensures long { result ≡ Err End.InputTooLong → IfSome (P.left (pages live.old)) (λ input. 2 ^ 32 < length input) }
    ensures goes { Goes (side_of P.Streams live.old) (side_of P.Streams live.new) }
    ensures cause { IfErr result (λ e. IsCause e (side_of P.Streams live.old) (side_of P.Streams live.new)) }
    ensures faults { CountsFault (fault_in end_fault result) (its.view live.old) (its.view live.new) }
    ensures sound { result ≢ Err End.DiskFault → (its.view live.new).fit }
{
    'lines: loop {
        let answer = match lines.next(live) {
            Ok(answer) => answer,
            Err(fault) => return Err(input_end(fault)),
        };
        match answer {
            LineAnswer::End => return Ok(()),
            LineAnswer::TooLong => match refuse_line(alloc, live) {
                Ok(()) => {}
                Err(end) => return Err(end),
            },
            LineAnswer::Line => match answer_line(alloc, live, lines.line()) {
                Ok(()) => {}
                Err(end) => return Err(end),
            },
        }
    }
}
