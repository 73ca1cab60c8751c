//! The lines of a service's streams are answered.
ghost use Rattle.std.specs.Prelude.{◌≡◌, ◌≢◌, ◌≤◌, ◌<◌, ◌+◌, ◌*◌, ℕ, Bool, [], All, Some, None, length, IfErr, IfSome, OnOk};
ghost use Rattle.block_disk.specs.Counts.{HasRisen};
ghost use Rattle.chart_frames.specs.Frames.{Fits};
ghost use Rattle.chart_world.specs.Faults.{CountsFault, fault_in};
ghost use Rattle.gate_pages.specs.Pages.{GoesOn};
ghost use Rattle.series_book.specs.Edits.{IsEdit};
ghost use Rattle.series_book.specs.EditLists.{after_edits};
ghost use Rattle.series_store.specs.Results.{IsUnchanged};
ghost use Rattle.stored_book.specs.Standing.{StandsForBook};
ghost use Rattle.chart_service.specs.Answering.{EndsAtBad, AnswersOn, StopsOn, LeavesBy, LeavesTold, ReadsAsFirst};
ghost use Rattle.chart_service.specs.Blaming.{BlamesSo};
ghost use Rattle.chart_service.specs.Knowing.{Follows, KnowsOpen, EndsKnown};
ghost use Rattle.chart_service.specs.EditGroups.{IsEditReply, SpelledBy};
ghost use Rattle.chart_service.specs.Faulting.{answer_fault};
ghost use Rattle.chart_service.specs.Making.{FrameSent, FrameStops, FramesCut, FramesMoments, FramesSent, IsReplyEnd, FrameMoments};
ghost use Rattle.chart_service.specs.Naming.{GivesBy};
ghost use Rattle.chart_service.specs.Serving.{KeepsPages, Serves, most_ahead, unless_empty};
ghost use Rattle.chart_service.specs.Shown as shown;
ghost use Rattle.chart_service.specs.Syncing.{edit_of, group_syncs};

use crate::failure::{AnswerEnd, ServeEnd};
use crate::refusals::refused;
use crate::replying::Reply;
use crate::service::Service;
use block_disk::Streams;
use chart_frames::Frame;
use gate_pages::PageWorld;
use series_book::{Edit, Refusal};

/// Answers the lines that spell these edits: does the edits, and then sends their replies one by one.
pub fn answer_edits<P: PageWorld, S, F, R: Reply<S, F>>(
    service: &mut Service<P>,
    edits: &[Edit],
    reply: &R,
    kept: &mut S,
) -> Result<(), AnswerEnd<F>>
    requires sound { (shown.view service.old).fit }
    requires some { 0 < length edits.now }
    requires few { length edits.now ≤ most_ahead }
    requires are_edits { All IsEdit edits.now }
    ensures done { SpelledBy edits.now (λ lines. shown.ForBook service.old
        (λ total book. OnOk result (AnswersOn P.sent R.makes lines kept.old kept.new total book service.old service.new))) }
    ensures stops { SpelledBy edits.now (λ lines. shown.ForBook service.old
        (λ total book. IfErr result (StopsOn P.sent R.makes lines kept.old kept.new total book service.old service.new))) }
    ensures moments { SpelledBy edits.now (λ lines. shown.ForBook service.old
        (λ total book. LeavesTold P.sent R.makes kept.old lines total book service.old service.new)) }
    ensures reads { shown.ForBook service.old (λ total book.
        (shown.view service.new).reads ≤ (shown.view service.old).reads + 96 * length edits.now) }
    ensures rises { (shown.view service.old).reads ≤ (shown.view service.new).reads }
    ensures syncs { shown.ForBook service.old (λ total book.
        (shown.view service.new).syncs ≤ (shown.view service.old).syncs + group_syncs total book edits.now) }
    ensures behind { shown.ForBook service.old (λ total book. OnOk result
        (StandsForBook (shown.image service.new) total (after_edits total book edits.now))) }
    ensures known { (knows : S → ℕ → Bool) → Follows R.makes knows → KnowsOpen knows kept.old service.old.sessions
        → OnOk result (KnowsOpen knows kept.new service.new.sessions) }
    ensures named { (knows : S → ℕ → Bool) → Follows R.makes knows → KnowsOpen knows kept.old service.old.sessions
        → IfErr result (EndsKnown R.makes knows) }
    ensures gives { SpelledBy edits.now (λ lines. GivesBy R.makes lines kept.old kept.new service.old.sessions service.new.sessions
        (P.sent (shown.pages service.old)) (P.sent (shown.pages service.new)) result) }
    // a page is called damaged by one of the lines
    ensures blames { SpelledBy edits.now (λ lines. BlamesSo P.sent R.makes lines kept.old kept.new service.old service.new result) }
    ensures send { result ≡ Err (AnswerEnd.Serve ServeEnd.SendFault)
        → HasRisen (P.send_faults (shown.pages service.old)) (P.send_faults (shown.pages service.new)) }
    ensures disk { result ≡ Err (AnswerEnd.Serve ServeEnd.DiskFault)
        → HasRisen (shown.view service.old).faults (shown.view service.new).faults }
    ensures faults { CountsFault (fault_in answer_fault result) (shown.view service.old) (shown.view service.new) }
    ensures read { result ≢ Err (AnswerEnd.Serve ServeEnd.ReadFault) }
    ensures long { result ≢ Err (AnswerEnd.Serve ServeEnd.InputTooLong) }
    ensures bad { IfErr result (EndsAtBad (shown.IsTold service.new) (shown.view service.new).size (shown.image service.new)) }
    ensures serves { Serves (shown.IsTold service.old) (shown.IsTold service.new) (shown.view service.old) (shown.view service.new) }
    ensures goes_on { GoesOn (shown.under service.old) (shown.under service.new) }
    ensures sound { result ≢ Err (AnswerEnd.Serve ServeEnd.DiskFault) → (shown.view service.new).fit }
    ensures total { shown.total service.new ≡ shown.total service.old }
    ensures left { P.left (shown.pages service.new) ≡ P.left (shown.pages service.old) }
    ensures read_faults { P.read_faults (shown.pages service.new) ≡ P.read_faults (shown.pages service.old) }
    ensures send_faults { P.send_faults (shown.pages service.old) ≤ P.send_faults (shown.pages service.new) }
    ensures pieces { P.pieces (shown.pages service.new) ≡ P.pieces (shown.pages service.old) }
{
    let frames = service.step_edits(edits)?;
    send_replies(service, frames.as_slice(), reply, kept)
}

/// Sends the bytes that `reply` makes of the frames that tell what edits gave, one after the other.
fn send_replies<P: PageWorld, S, F, R: Reply<S, F>>(
    service: &mut Service<P>,
    frames: &[Frame],
    reply: &R,
    kept: &mut S,
) -> Result<(), AnswerEnd<F>>
    requires fits { All Fits frames.now }
    requires replies { All IsEditReply frames.now }
    ensures done { OnOk result (FramesSent R.makes frames.now kept.old kept.new (P.sent (shown.pages service.old))
        (P.sent (shown.pages service.new))) }
    ensures stops { IfErr result (FramesCut R.makes frames.now kept.old kept.new (P.sent (shown.pages service.old))
        (P.sent (shown.pages service.new))) }
    // a crash leaves what it might have left before
    ensures moments { IfSome (P.sent (shown.pages service.old))
        (λ _. FramesMoments R.makes kept.old frames.now (shown.view service.old) (shown.view service.new)) }
    ensures known { (knows : S → ℕ → Bool) → Follows R.makes knows → KnowsOpen knows kept.old service.old.sessions
        → OnOk result (KnowsOpen knows kept.new service.new.sessions) }
    ensures named { (knows : S → ℕ → Bool) → Follows R.makes knows → KnowsOpen knows kept.old service.old.sessions
        → IfErr result (EndsKnown R.makes knows) }
    ensures ends { IfErr result IsReplyEnd }
    ensures send { result ≡ Err (AnswerEnd.Serve ServeEnd.SendFault)
        → HasRisen (P.send_faults (shown.pages service.old)) (P.send_faults (shown.pages service.new)) }
    ensures faults { CountsFault (fault_in answer_fault result) (shown.view service.old) (shown.view service.new) }
    ensures keeps { KeepsPages (shown.IsTold service.old) (shown.IsTold service.new) (shown.view service.old) (shown.view service.new)
        (shown.under service.old) (shown.under service.new) }
    ensures total { shown.total service.new ≡ shown.total service.old }
    ensures sessions { service.new.sessions ≡ service.old.sessions }
    ensures left { P.left (shown.pages service.new) ≡ P.left (shown.pages service.old) }
    ensures read_faults { P.read_faults (shown.pages service.new) ≡ P.read_faults (shown.pages service.old) }
    ensures send_faults { P.send_faults (shown.pages service.old) ≤ P.send_faults (shown.pages service.new) }
    ensures pieces { P.pieces (shown.pages service.new) ≡ P.pieces (shown.pages service.old) }
{
    match frames.split_first() {
        Some((frame, later)) => {
            send_reply(service, frame, reply, kept)?;
            send_replies(service, later, reply, kept)
        }
        None => Ok(()),
    }
}

/// Answers a line, unless it is empty.
pub fn answer_line<P: PageWorld, S, F, R: Reply<S, F>>(
    service: &mut Service<P>,
    line: &[u8],
    reply: &R,
    kept: &mut S,
) -> Result<(), AnswerEnd<F>>
    requires sound { (shown.view service.old).fit }
    requires short { length line.now ≤ 8192 }
    ensures done { shown.ForBook service.old (λ total book. OnOk result
        (AnswersOn P.sent R.makes (unless_empty (Some line.now)) kept.old kept.new total book service.old service.new)) }
    ensures stops { shown.ForBook service.old (λ total book. IfErr result
        (StopsOn P.sent R.makes (unless_empty (Some line.now)) kept.old kept.new total book service.old service.new)) }
    ensures moments { shown.ForBook service.old (λ total book. LeavesBy R.makes kept.old
        (unless_empty (Some line.now)) total book service.old service.new) }
    ensures reads { shown.ForBook service.old (λ total book. ReadsAsFirst
        (unless_empty (Some line.now)) total book service.old service.new) }
    ensures idle { edit_of (Some line.now) ≡ [] → IsUnchanged (shown.IsTold service.old) (shown.view service.old) (shown.view service.new) }
    ensures known { (knows : S → ℕ → Bool) → Follows R.makes knows → KnowsOpen knows kept.old service.old.sessions
        → OnOk result (KnowsOpen knows kept.new service.new.sessions) }
    ensures named { (knows : S → ℕ → Bool) → Follows R.makes knows → KnowsOpen knows kept.old service.old.sessions
        → IfErr result (EndsKnown R.makes knows) }
    ensures gives { GivesBy R.makes (unless_empty (Some line.now)) kept.old kept.new service.old.sessions service.new.sessions
        (P.sent (shown.pages service.old)) (P.sent (shown.pages service.new)) result }
    ensures blames { BlamesSo P.sent R.makes (unless_empty (Some line.now)) kept.old kept.new service.old service.new result }
    ensures send { result ≡ Err (AnswerEnd.Serve ServeEnd.SendFault)
        → HasRisen (P.send_faults (shown.pages service.old)) (P.send_faults (shown.pages service.new)) }
    ensures disk { result ≡ Err (AnswerEnd.Serve ServeEnd.DiskFault)
        → HasRisen (shown.view service.old).faults (shown.view service.new).faults }
    ensures faults { CountsFault (fault_in answer_fault result) (shown.view service.old) (shown.view service.new) }
    ensures read { result ≢ Err (AnswerEnd.Serve ServeEnd.ReadFault) }
    ensures long { result ≢ Err (AnswerEnd.Serve ServeEnd.InputTooLong) }
    ensures bad { IfErr result (EndsAtBad (shown.IsTold service.new) (shown.view service.new).size (shown.image service.new)) }
    ensures serves { Serves (shown.IsTold service.old) (shown.IsTold service.new) (shown.view service.old) (shown.view service.new) }
    ensures goes_on { GoesOn (shown.under service.old) (shown.under service.new) }
    ensures sound { result ≢ Err (AnswerEnd.Serve ServeEnd.DiskFault) → (shown.view service.new).fit }
    ensures total { shown.total service.new ≡ shown.total service.old }
    ensures left { P.left (shown.pages service.new) ≡ P.left (shown.pages service.old) }
    ensures read_faults { P.read_faults (shown.pages service.new) ≡ P.read_faults (shown.pages service.old) }
    ensures send_faults { P.send_faults (shown.pages service.old) ≤ P.send_faults (shown.pages service.new) }
    ensures pieces { P.pieces (shown.pages service.new) ≡ P.pieces (shown.pages service.old) }
{
    if line.is_empty() {
        return Ok(());
    }
    let frame = service.step_line(line)?;
    send_reply(service, &frame, reply, kept)
}

/// Answers a line that is too long.
pub fn answer_long_line<P: PageWorld, S, F, R: Reply<S, F>>(
    service: &mut Service<P>,
    reply: &R,
    kept: &mut S,
) -> Result<(), AnswerEnd<F>>
    requires { (shown.view service.old).fit }
    ensures done { shown.ForBook service.old (λ total book. OnOk result
        (AnswersOn P.sent R.makes (unless_empty None) kept.old kept.new total book service.old service.new)) }
    ensures stops { shown.ForBook service.old (λ total book. IfErr result
        (StopsOn P.sent R.makes (unless_empty None) kept.old kept.new total book service.old service.new)) }
    ensures moments { shown.ForBook service.old (λ total book. LeavesBy R.makes kept.old
        (unless_empty None) total book service.old service.new) }
    ensures known { (knows : S → ℕ → Bool) → Follows R.makes knows → KnowsOpen knows kept.old service.old.sessions
        → OnOk result (KnowsOpen knows kept.new service.new.sessions) }
    ensures named { (knows : S → ℕ → Bool) → Follows R.makes knows → KnowsOpen knows kept.old service.old.sessions
        → IfErr result (EndsKnown R.makes knows) }
    ensures gives { GivesBy R.makes (unless_empty None) kept.old kept.new service.old.sessions service.new.sessions
        (P.sent (shown.pages service.old)) (P.sent (shown.pages service.new)) result }
    ensures blames { BlamesSo P.sent R.makes (unless_empty None) kept.old kept.new service.old service.new result }
    ensures ends { IfErr result IsReplyEnd }
    ensures send { result ≡ Err (AnswerEnd.Serve ServeEnd.SendFault)
        → HasRisen (P.send_faults (shown.pages service.old)) (P.send_faults (shown.pages service.new)) }
    ensures faults { CountsFault (fault_in answer_fault result) (shown.view service.old) (shown.view service.new) }
    ensures keeps { KeepsPages (shown.IsTold service.old) (shown.IsTold service.new) (shown.view service.old) (shown.view service.new)
        (shown.under service.old) (shown.under service.new) }
    ensures total { shown.total service.new ≡ shown.total service.old }
    ensures left { P.left (shown.pages service.new) ≡ P.left (shown.pages service.old) }
    ensures read_faults { P.read_faults (shown.pages service.new) ≡ P.read_faults (shown.pages service.old) }
    ensures send_faults { P.send_faults (shown.pages service.old) ≤ P.send_faults (shown.pages service.new) }
    ensures pieces { P.pieces (shown.pages service.new) ≡ P.pieces (shown.pages service.old) }
{
    service.is_sound();
    send_reply(service, &refused(Refusal::LineTooLong), reply, kept)
}

/// Sends the bytes that `reply` makes of a frame.
fn send_reply<P: PageWorld, S, F, R: Reply<S, F>>(
    service: &mut Service<P>,
    frame: &Frame,
    reply: &R,
    kept: &mut S,
) -> Result<(), AnswerEnd<F>>
    requires { Fits frame.now }
    ensures done { OnOk result (FrameSent R.makes frame.now kept.old kept.new (P.sent (shown.pages service.old))
        (P.sent (shown.pages service.new))) }
    ensures stops { IfErr result (FrameStops R.makes frame.now kept.old kept.new (P.sent (shown.pages service.old))
        (P.sent (shown.pages service.new))) }
    // a crash leaves what it might have left before
    ensures moments { FrameMoments R.makes kept.old frame.now (shown.view service.old) (shown.view service.new) }
    ensures ends { IfErr result IsReplyEnd }
    ensures send { result ≡ Err (AnswerEnd.Serve ServeEnd.SendFault)
        → HasRisen (P.send_faults (shown.pages service.old)) (P.send_faults (shown.pages service.new)) }
    ensures faults { CountsFault (fault_in answer_fault result) (shown.view service.old) (shown.view service.new) }
    ensures keeps { KeepsPages (shown.IsTold service.old) (shown.IsTold service.new) (shown.view service.old) (shown.view service.new)
        (shown.under service.old) (shown.under service.new) }
    ensures total { shown.total service.new ≡ shown.total service.old }
    ensures catalog { shown.catalog service.new ≡ shown.catalog service.old }
    ensures sessions { service.new.sessions ≡ service.old.sessions }
    ensures left { P.left (shown.pages service.new) ≡ P.left (shown.pages service.old) }
    ensures read_faults { P.read_faults (shown.pages service.new) ≡ P.read_faults (shown.pages service.old) }
    ensures send_faults { P.send_faults (shown.pages service.old) ≤ P.send_faults (shown.pages service.new) }
    ensures pieces { P.pieces (shown.pages service.new) ≡ P.pieces (shown.pages service.old) }
{
    let bytes = match reply.make(frame, kept) {
        Ok(bytes) => bytes,
        Err(error) => return Err(AnswerEnd::Reply(error)),
    };
    if service.send(bytes.as_slice()).is_err() {
        return Err(AnswerEnd::Serve(ServeEnd::SendFault));
    }
    Ok(())
}
