//! The lines of a service's streams are answered by the spellings of frames.
ghost use Rattle.std.specs.Prelude.{◌≡◌, ◌≢◌, ◌≤◌, ◌<◌, ◌^◌, Ok, length, IfErr, IfSome, OnOk};
ghost use Rattle.block_disk.specs.Counts.{HasRisen};
ghost use Rattle.block_disk.specs.View.{Now, Only};
ghost use Rattle.chart_frames.specs.Frames.{spelling};
ghost use Rattle.chart_world.specs.Faults.{CountsFault, fault_in};
ghost use Rattle.chart_world.specs.Reading.{IsReadUp};
ghost use Rattle.gate_pages.specs.Pages.{GoesOn};
ghost use Rattle.chart_service.specs.Answering.{SendsWhole, ServeEndsBy, LastsBy, ReadsByLines, SyncsByLines};
ghost use Rattle.chart_service.specs.Faulting.{serve_fault};
ghost use Rattle.chart_service.specs.Naming.{SendsAnswers, SendsNamed};
ghost use Rattle.chart_service.specs.Serving.{AreSpelled, EndsAtBad, Serves};
ghost use Rattle.chart_service.specs.Shown as shown;
ghost use Rattle.chart_service.specs.Spelled.{serve_end};
ghost use Rattle.served_lines.specs.Blaming.{ServeBlamesOf};

use crate::answers::answer_lines;
use chart_frames::{Frame, encode};
use chart_service::{AnswerEnd, Reply, ServeEnd, Service};
use gate_pages::PageWorld;
use std::alloc::{AllocError, Global};

/// Replies are the spellings of their frames.
#[derive(Drop)]
struct Spelling {
    alloc: Global,
}

impl Reply<(), AllocError> for Spelling {
    ghost makes = { λ old frame made new. OnOk made (made ≡ Ok (spelling frame)) };

    fn make(&self, frame: &Frame, _kept: &mut ()) -> Result<Vec<u8>, AllocError> {
        match encode(self.alloc, frame) {
            Ok(bytes) => Ok(bytes),
            Err(_) => Err(AllocError),
        }
    }
}

/// Answers each line of the input that isn't empty, in order, by sending the spelling of its frame. A
/// line of more than 8,192 bytes is refused as too long. After `Ok` the input was read to its end.
pub fn serve<P: PageWorld>(alloc: Global, service: &mut Service<P>) -> Result<(), ServeEnd>
    requires { (shown.view service.old).fit }
    ensures done { shown.ForBook service.old (λ total book. OnOk result
        (SendsWhole P.left P.sent AreSpelled total book service.old service.new)) }
    ensures within { OnOk result (IfSome (P.left (shown.pages service.old)) (λ input. length input ≤ 2 ^ 32)) }
    ensures ends { shown.ForBook service.old (λ total book. IfErr result (ServeEndsBy P.left P.sent total book service.old service.new)) }
    // at each moment a crash leaves a book with each edit whose reply was sent by then, and at most 64 edits more
    ensures crash { shown.ForBook service.old (λ total book. LastsBy P.left P.sent AreSpelled total book service.old service.new) }
    // blocks are read for lines alone, for each as few as its request may read
    ensures reads { shown.ForBook service.old (λ total book. ReadsByLines P.left total book service.old service.new) }
    // edits whose lines stand ready are committed together
    ensures syncs { shown.ForBook service.old (λ total book. SyncsByLines P.left P.pieces total book service.old service.new) }
    // whatever the pages are
    // each frame that closes a session or answers in it names one that is open by those before it
    // and after `Ok` each may answer its line, one a line
    ensures answers { OnOk result (IfSome (P.left (shown.pages service.old))
        (λ input. SendsAnswers service.old.sessions input (P.sent (shown.pages service.old)) (P.sent (shown.pages service.new)))) }
    ensures named { SendsNamed service.old.sessions (P.sent (shown.pages service.old)) (P.sent (shown.pages service.new)) }
    ensures whole { OnOk result (IsReadUp (P.left (shown.pages service.old)) (P.left (shown.pages service.new))) }
    ensures long { result ≡ Err ServeEnd.InputTooLong → IfSome (P.left (shown.pages service.old)) (λ input. 2 ^ 32 < length input) }
    ensures read { result ≡ Err ServeEnd.ReadFault → HasRisen (P.read_faults (shown.pages service.old))
        (P.read_faults (shown.pages service.new)) }
    ensures send { result ≡ Err ServeEnd.SendFault → HasRisen (P.send_faults (shown.pages service.old))
        (P.send_faults (shown.pages service.new)) }
    ensures disk { result ≡ Err ServeEnd.DiskFault → HasRisen (shown.view service.old).faults (shown.view service.new).faults }
    ensures faults { CountsFault (fault_in serve_fault result) (shown.view service.old) (shown.view service.new) }
    // a page is called damaged by the line behind the answered ones
    ensures blames { IfErr result (ServeBlamesOf P.left P.sent service.old service.new) }
    ensures bad { IfErr result (EndsAtBad (shown.IsTold service.new) (shown.view service.new).size (shown.image service.new)) }
    ensures serves { Serves (shown.IsTold service.old) (shown.IsTold service.new) (shown.view service.old) (shown.view service.new) }
    ensures goes_on { GoesOn (shown.under service.old) (shown.under service.new) }
    ensures sound { result ≢ Err ServeEnd.DiskFault → (shown.view service.new).fit }
    ensures rests { result ≢ Err ServeEnd.DiskFault → Only (shown.image service.new) (Now (shown.view service.new)) }
    ensures total { shown.total service.new ≡ shown.total service.old }
{
    let spelling = Spelling { alloc };
    let answer = answer_lines(alloc, service, &spelling, &mut ());
    served(answer)
}

/// What the answering of lines by spellings answers, as a serving ends.
fn served(answer: Result<(), AnswerEnd<AllocError>>) -> Result<(), ServeEnd>
    ensures { result ≡ serve_end answer }
{
    match answer {
        Ok(()) => Ok(()),
        Err(AnswerEnd::Serve(end)) => Err(end),
        Err(AnswerEnd::Reply(_)) => Err(ServeEnd::NoMemory),
    }
}
