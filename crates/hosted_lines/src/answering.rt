//! A line is answered, and the pushes behind it are made: each frame is sent before the next is made.
ghost use Rattle.std.specs.Prelude.{◌≡◌, ◌≢◌, ◌≤◌, ◌<◌, ◌+◌, ◌*◌, [], ◌∷◌, Some, None, Err, length, IfErr, OnOk};
ghost use Rattle.block_disk.specs.Counts.{HasRisen};
ghost use Rattle.block_disk.specs.Streams.{sent_after};
ghost use Rattle.chart_frames.specs.Frames.{Fits, spelling};
ghost use Rattle.chart_service.specs.Blaming.{Blames};
ghost use Rattle.chart_service.specs.Serving.{unless_empty};
ghost use Rattle.chart_service.specs.Shown as shown;
ghost use Rattle.chart_service.specs.Syncing.{edit_of, edits_of};
ghost use Rattle.chart_world.specs.Faults.{CountsFault, fault_in};
ghost use Rattle.live_service.specs.Kinds.{MayAnswerLive};
ghost use Rattle.live_service.specs.Shown as its;
ghost use Rattle.live_view.specs.Live as follows;
ghost use Rattle.run_ends.specs.Faults.{end_fault};
ghost use Rattle.live_service.specs.Pushing.{followed_after};
ghost use Rattle.hosted_lines.specs.Answers.{SendsFor};
ghost use Rattle.hosted_lines.specs.Blaming.{BlamesFor};
ghost use Rattle.hosted_lines.specs.Doing.{DoesFor, FrameStops, Goes, IsCause, side_of, step_end};
ghost use Rattle.hosted_lines.specs.Shown.{ForSound, pages};

use block_disk::Streams;
use chart_frames::{Frame, encode};
use chart_service::{ServiceError, refused};
use gate_pages::PageWorld;
use live_service::{ServiceStepper, push, step_line};
use live_view::Live;
use run_ends::End;
use series_book::Refusal;
use std::alloc::Global;

/// What an error of a step is for the run.
pub(crate) fn step_end(error: ServiceError) -> End
    ensures { result ≡ step_end error }
{
    match error {
        ServiceError::DiskFault => End::DiskFault,
        ServiceError::Damaged { page } => End::DamagedPage { page },
        ServiceError::NoMemory => End::NoMemory,
    }
}

/// Sends the spelling of a frame.
pub(crate) fn send_frame<P: PageWorld>(
    alloc: Global,
    live: &mut Live<ServiceStepper<P>>,
    frame: &Frame,
) -> Result<(), End>
    requires { Fits frame.now }
    ensures whole { OnOk result (P.sent (pages live.new) ≡ sent_after (spelling frame.now) (P.sent (pages live.old))) }
    ensures stops { IfErr result (FrameStops frame.now (P.sent (pages live.old)) (P.sent (pages live.new))) }
    ensures cause { result ≡ Err End.SendFault → HasRisen (P.send_faults (pages live.old)) (P.send_faults (pages live.new)) }
    ensures long { result ≢ Err End.InputTooLong }
    ensures faults { CountsFault (fault_in end_fault result) (its.view live.old) (its.view live.new) }
    ensures send_faults { P.send_faults (pages live.old) ≤ P.send_faults (pages live.new) }
    ensures left { P.left (pages live.new) ≡ P.left (pages live.old) }
    ensures pieces { P.pieces (pages live.new) ≡ P.pieces (pages live.old) }
    ensures read_faults { P.read_faults (pages live.new) ≡ P.read_faults (pages live.old) }
    ensures beside { follows.Keeps (shown.Keeps (P.sends (length (spelling frame.now)) (pages live.old) (pages live.new))
        (its.service live.old) (its.service live.new)) live.old live.new }
{
    let Ok(bytes) = encode(alloc, frame) else {
        return Err(End::NoMemory);
    };
    match live.send(bytes.as_slice()) {
        Ok(()) => Ok(()),
        Err(_) => Err(End::SendFault),
    }
}

/// Refuses a line that is too long.
pub fn refuse_line<P: PageWorld>(
    alloc: Global,
    live: &mut Live<ServiceStepper<P>>,
) -> Result<(), End>
    requires sound { (its.view live.old).fit }
    requires idle { follows.IsIdle live.old }
    ensures does { ForSound live.old (λ total book. DoesFor P.Streams (None ∷ []) total book result live.old live.new) }
    // whatever the pages are
    ensures sends { OnOk result (SendsFor P.Streams MayAnswerLive followed_after (None ∷ []) live.old live.new) }
    ensures blames { IfErr result (BlamesFor P.Streams MayAnswerLive followed_after Blames (None ∷ []) live.old live.new) }
    ensures goes { Goes (side_of P.Streams live.old) (side_of P.Streams live.new) }
    ensures cause { IfErr result (λ e. IsCause e (side_of P.Streams live.old) (side_of P.Streams live.new)) }
    ensures long { result ≢ Err End.InputTooLong }
    ensures faults { CountsFault (fault_in end_fault result) (its.view live.old) (its.view live.new) }
    ensures sound { result ≢ Err End.DiskFault → (its.view live.new).fit }
    ensures syncs { (its.view live.new).syncs ≡ (its.view live.old).syncs }
    ensures idle { OnOk result (follows.IsIdle live.new) }
    ensures left { P.left (pages live.new) ≡ P.left (pages live.old) }
    ensures pieces { P.pieces (pages live.new) ≡ P.pieces (pages live.old) }
{
    send_frame(alloc, live, &refused(Refusal::LineTooLong))
}

/// Answers a line by its frame.
fn answer_frame<P: PageWorld>(
    alloc: Global,
    live: &mut Live<ServiceStepper<P>>,
    line: &[u8],
) -> Result<(), End>
    requires sound { (its.view live.old).fit }
    requires idle { follows.IsIdle live.old }
    requires short { length line.now ≤ 8192 }
    ensures does { ForSound live.old (λ total book. DoesFor P.Streams (Some line.now ∷ []) total book result live.old live.new) }
    ensures sends { OnOk result (SendsFor P.Streams MayAnswerLive followed_after (Some line.now ∷ []) live.old live.new) }
    ensures blames { IfErr result (BlamesFor P.Streams MayAnswerLive followed_after Blames (Some line.now ∷ []) live.old live.new) }
    ensures goes { Goes (side_of P.Streams live.old) (side_of P.Streams live.new) }
    ensures cause { IfErr result (λ e. IsCause e (side_of P.Streams live.old) (side_of P.Streams live.new)) }
    ensures long { result ≢ Err End.InputTooLong }
    ensures faults { CountsFault (fault_in end_fault result) (its.view live.old) (its.view live.new) }
    ensures sound { result ≢ Err End.DiskFault → (its.view live.new).fit }
    ensures syncs { (its.view live.new).syncs ≤ (its.view live.old).syncs + 4 * length (edit_of (Some line.now)) }
    ensures rises { (its.view live.old).syncs ≤ (its.view live.new).syncs }
    ensures left { P.left (pages live.new) ≡ P.left (pages live.old) }
    ensures pieces { P.pieces (pages live.new) ≡ P.pieces (pages live.old) }
{
    match step_line(live, line) {
        Ok(frame) => send_frame(alloc, live, &frame),
        Err(error) => Err(step_end(error)),
    }
}

/// Makes the next pending push.
fn send_push<P: PageWorld>(alloc: Global, live: &mut Live<ServiceStepper<P>>) -> Result<(), End>
    requires sound { (its.view live.old).fit }
    requires some { follows.IsIdle live.old → ⊥ }
    ensures does { ForSound live.old (λ total book. DoesFor P.Streams [] total book result live.old live.new) }
    ensures sends { OnOk result (SendsFor P.Streams MayAnswerLive followed_after [] live.old live.new) }
    ensures blames { IfErr result (BlamesFor P.Streams MayAnswerLive followed_after Blames [] live.old live.new) }
    ensures goes { Goes (side_of P.Streams live.old) (side_of P.Streams live.new) }
    ensures cause { IfErr result (λ e. IsCause e (side_of P.Streams live.old) (side_of P.Streams live.new)) }
    ensures long { result ≢ Err End.InputTooLong }
    ensures faults { CountsFault (fault_in end_fault result) (its.view live.old) (its.view live.new) }
    ensures sound { result ≢ Err End.DiskFault → (its.view live.new).fit }
    ensures syncs { (its.view live.new).syncs ≡ (its.view live.old).syncs }
    ensures left { P.left (pages live.new) ≡ P.left (pages live.old) }
    ensures pieces { P.pieces (pages live.new) ≡ P.pieces (pages live.old) }
    ensures fewer { OnOk result (length (follows.pending live.new) < length (follows.pending live.old)) }
{
    match push(live) {
        Ok(Some(frame)) => send_frame(alloc, live, &frame),
        Ok(None) => Ok(()),
        Err(error) => Err(step_end(error)),
    }
}

/// Makes all pending pushes.
pub(crate) fn send_pushes<P: PageWorld>(
    alloc: Global,
    live: &mut Live<ServiceStepper<P>>,
) -> Result<(), End>
    requires { (its.view live.old).fit }
    ensures does { ForSound live.old (λ total book. DoesFor P.Streams [] total book result live.old live.new) }
    ensures sends { OnOk result (SendsFor P.Streams MayAnswerLive followed_after [] live.old live.new) }
    ensures blames { IfErr result (BlamesFor P.Streams MayAnswerLive followed_after Blames [] live.old live.new) }
    ensures goes { Goes (side_of P.Streams live.old) (side_of P.Streams live.new) }
    ensures cause { IfErr result (λ e. IsCause e (side_of P.Streams live.old) (side_of P.Streams live.new)) }
    ensures long { result ≢ Err End.InputTooLong }
    ensures faults { CountsFault (fault_in end_fault result) (its.view live.old) (its.view live.new) }
    ensures sound { result ≢ Err End.DiskFault → (its.view live.new).fit }
    ensures syncs { (its.view live.new).syncs ≡ (its.view live.old).syncs }
    ensures left { P.left (pages live.new) ≡ P.left (pages live.old) }
    ensures pieces { P.pieces (pages live.new) ≡ P.pieces (pages live.old) }
    ensures idle { OnOk result (follows.IsIdle live.new) }
{
    if live.is_idle() {
        return Ok(());
    }
    match send_push(alloc, live) {
        Ok(()) => send_pushes(alloc, live),
        Err(end) => Err(end),
    }
}

/// Answers a line, unless it is empty, and makes the pushes behind it.
pub fn answer_line<P: PageWorld>(
    alloc: Global,
    live: &mut Live<ServiceStepper<P>>,
    line: &[u8],
) -> Result<(), End>
    requires sound { (its.view live.old).fit }
    requires idle { follows.IsIdle live.old }
    requires short { length line.now ≤ 8192 }
    ensures does { ForSound live.old (λ total book. DoesFor P.Streams (unless_empty (Some line.now)) total book result live.old live.new) }
    // whatever the pages are
    ensures sends { OnOk result (SendsFor P.Streams MayAnswerLive followed_after (unless_empty (Some line.now)) live.old live.new) }
    // a page that is called damaged is so for the line, or for a push behind it
    ensures blames { IfErr result (BlamesFor P.Streams MayAnswerLive followed_after Blames
        (unless_empty (Some line.now)) live.old live.new) }
    ensures goes { Goes (side_of P.Streams live.old) (side_of P.Streams live.new) }
    ensures cause { IfErr result (λ e. IsCause e (side_of P.Streams live.old) (side_of P.Streams live.new)) }
    ensures long { result ≢ Err End.InputTooLong }
    ensures faults { CountsFault (fault_in end_fault result) (its.view live.old) (its.view live.new) }
    ensures sound { result ≢ Err End.DiskFault → (its.view live.new).fit }
    ensures syncs { (its.view live.new).syncs ≤ (its.view live.old).syncs + 4 * length (edits_of (unless_empty (Some line.now))) }
    ensures rises { (its.view live.old).syncs ≤ (its.view live.new).syncs }
    ensures left { P.left (pages live.new) ≡ P.left (pages live.old) }
    ensures pieces { P.pieces (pages live.new) ≡ P.pieces (pages live.old) }
    ensures idle { OnOk result (follows.IsIdle live.new) }
{
    if line.is_empty() {
        return Ok(());
    }
    match answer_frame(alloc, live, line) {
        Ok(()) => send_pushes(alloc, live),
        Err(end) => Err(end),
    }
}
