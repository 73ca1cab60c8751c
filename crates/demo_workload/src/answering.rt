//! One request of a workload: the service answers it, and a client draws what it is sent.
ghost use Rattle.std.specs.Prelude.{◌≡◌, ◌≢◌, ◌+◌, ◌<◌, ◌^◌, ℕ, None, Some, IfOk, IfErr, OnOk, Err};
ghost use Rattle.chart_world.specs.Faults.{CountsFault, fault_in};
ghost use Rattle.gate_pages.specs.Pages.{GoesOn};
ghost use Rattle.run_ends.specs.Faults.{end_fault};
ghost use Rattle.request_lines.specs.Requests.{IsInRange};
ghost use Rattle.chart_frames.specs.Frames.{Fits};
ghost use Rattle.chart_client.specs.Holdings.{holding_of};
ghost use Rattle.chart_client.specs.Accepting.{Accepts, session_in};
ghost use Rattle.chart_service.specs.Shown as shown;
ghost use Rattle.chart_service.specs.Stepping.{RepliedTo, IsBeforeOrAfter, ReadsFew, Steps};
ghost use Rattle.demo_workload.specs.Summaries.{IsSmall};
ghost use Rattle.demo_workload.specs.Ending.{IfStopped, IsOutside, end_of_step};
ghost use Rattle.demo_workload.specs.Answering.{ForMirrored, KnowsOpen, AnswersOne, AcceptsOne, RejectsAs, IsOneCause};

use crate::summaries::Summary;
use chart_client::laws::{frames_change_one_session, frames_have_one_answer};
use chart_client::{Client, ClientError};
use chart_frames::laws::frames_are_limited;
use chart_frames::{Frame, encode};
use chart_service::{Service, ServiceError};
use drawn_replies::laws::clients_draw_requests;
use gate_pages::Pages;
use line_raster::Bitmap;
use request_lines::Request;
use run_ends::End;
use std::alloc::Global;

/// Answers a request, gives the frame to the client, and adds both to the summary. The client holds what
/// it was sent of each session that is open. After an error the book is as it was, or as the reply leaves it.
pub(crate) fn answer<P: Pages>(
    alloc: Global,
    service: &mut Service<P>,
    request: &Request,
    client: &mut Client,
    summary: &mut Summary,
) -> Result<(), End>
    requires fit { (shown.view service.old).fit }
    requires range { IsInRange request.now }
    requires known { KnowsOpen (shown.sessions service.old) client.old }
    requires few { summary.old.requests < 2 ^ 32 }
    requires small { IsSmall summary.old }
    ensures answered { ForMirrored service.old client.old
        (λ total old. OnOk result (shown.StandsSo total service.new
        (λ new. AnswersOne request.now old new client.new summary.old summary.new))) }
    ensures standing { ForMirrored service.old client.old (λ total old. IfErr result IsOutside) }
    ensures moments { shown.ForBook service.old (λ total book. shown.PassesBy (RepliedTo request.now) total book service.old service.new) }
    ensures left { shown.ForBook service.old (λ total book. IfStopped result
        (IsBeforeOrAfter (RepliedTo request.now) total book (shown.sessions service.old) (shown.image service.new))) }
    ensures reads { shown.ForBook service.old (λ total book. ReadsFew request.now book (shown.sessions service.old)
        (shown.view service.old).reads (shown.view service.new).reads) }
    // whatever the pages are
    ensures known { OnOk result (KnowsOpen (shown.sessions service.new) client.new) }
    ensures accepts { OnOk result (AcceptsOne client.old client.new) }
    ensures cause { IfErr result (λ end. IsOneCause end client.old (shown.IsTold service.new) (shown.view service.old)
        (shown.view service.new)) }
    ensures faults { CountsFault (fault_in end_fault result) (shown.view service.old) (shown.view service.new) }
    ensures steps { Steps (shown.IsTold service.old) (shown.IsTold service.new) (shown.view service.old) (shown.view service.new) }
    ensures goes_on { GoesOn (shown.under service.old) (shown.under service.new) }
    ensures fit { result ≢ Err End.DiskFault → (shown.view service.new).fit }
    ensures total { shown.total service.new ≡ shown.total service.old }
    ensures small { OnOk result (IsSmall summary.new) }
    ensures requests { OnOk result (summary.new.requests ≡ summary.old.requests + 1) }
{
    clients_draw_requests();
    frames_change_one_session();
    frames_are_limited();
    let frame = match service.step(request) {
        Ok(frame) => frame,
        Err(error) => return Err(end_of_step(error)),
    };
    let Ok(bytes) = encode(alloc, &frame) else {
        return Err(End::NoMemory);
    };
    let picture = match draw(client, &frame) {
        Ok(picture) => picture,
        Err(end) => return Err(end),
    };
    summary.add(&frame, bytes.len() as u64, &picture);
    Ok(())
}

/// What an error of a step is for the workload.
fn end_of_step(error: ServiceError) -> End
    ensures { result ≡ end_of_step error }
{
    match error {
        ServiceError::DiskFault => End::DiskFault,
        ServiceError::Damaged { page } => End::DamagedPage { page },
        ServiceError::NoMemory => End::NoMemory,
    }
}

/// Gives a frame to the client, which knows its session.
fn draw(client: &mut Client, frame: &Frame) -> Result<Option<Bitmap>, End>
    requires fits { Fits frame.now }
    requires named { (n : ℕ) → session_in frame.now ≡ Some n → holding_of n client.old ≡ None → ⊥ }
    ensures accepted { IfOk result (λ drawing. Accepts frame.now drawing client.old client.new) }
    ensures rejected { IfErr result (RejectsAs frame.now client.old) }
{
    frames_have_one_answer();
    match client.accept(frame) {
        Ok(picture) => Ok(picture),
        Err(ClientError::Missing { key }) => Err(End::Missing { key: key.number() }),
        Err(ClientError::BadCoefficient { key }) => Err(End::BadCoefficient { key: key.number() }),
        Err(ClientError::UnknownSession { .. }) => unreachable!(),
        Err(ClientError::NoMemory) => Err(End::NoMemory),
    }
}
