ghost use Rattle.std.specs.Prelude.{◌≡◌, ◌≢◌, ◌≤◌, ◌<◌, ◌^◌, ℕ, Bool, length, IfErr, IfOk, IfSome, OnOk};
ghost use Rattle.block_disk.specs.Counts.{HasRisen};
ghost use Rattle.chart_frames.specs.Frames.{Fits};
ghost use Rattle.chart_world.specs.Faults.{CountsFault, fault_in};
ghost use Rattle.chart_world.specs.Reading.{IsReadUp};
ghost use Rattle.gate_pages.specs.Pages.{GoesOn};
ghost use Rattle.chart_service.specs.Answering.{SendsAll, LastsBy, ReadsByLines, SyncsByLines};
ghost use Rattle.chart_service.specs.Knowing.{KnowsOpen};
ghost use Rattle.chart_service.specs.Serving.{Serves};
ghost use Rattle.chart_service.specs.Shown as shown;
ghost use Rattle.chart_program.specs.Blamed.{ShowBlamesOf};
ghost use Rattle.chart_program.specs.Faulting.{run_fault};
ghost use Rattle.chart_program.specs.Known.{Follows, EndsKnown, ShowsBy};
ghost use Rattle.chart_program.specs.LineAnswers.{ShowsEach};
ghost use Rattle.chart_program.specs.Runs.{AreShown, AreShownFrom, EndsAtBad, IsShown, IsShownText, MakesText, RunEndsBy, TextStops};
ghost use Rattle.chart_program.specs.Runs.{run_answer};

use crate::reply_text::reply_text;
use crate::run_end::RunEnd;
use chart_client::Show;
use chart_frames::{Frame, encode};
use chart_service::{AnswerEnd, Reply, ServeEnd, Service};
use gate_pages::PageWorld;
use served_lines::answer_lines;
use std::alloc::Global;

/// Replies are the texts of what a `Show` shows for the spellings of their frames, with the pictures.
#[derive(Drop)]
struct Texts {
    alloc: Global,
}

impl<V: Show> Reply<V, RunEnd> for Texts {
    ghost makes = { λ old frame made new. MakesText V.gives old frame made new };

    fn make(&self, frame: &Frame, kept: &mut V) -> Result<Vec<u8>, RunEnd> {
        shown_text(self.alloc, frame, kept)
    }
}

/// Answers each line of the input that isn't empty, in order: gives the spelling of its frame to
/// `show`, and sends the text of what that shows, with its picture. A line of more than 8,192 bytes is
/// refused as too long. After `Ok` the input was read to its end.
pub fn run_on<P: PageWorld, V: Show>(
    alloc: Global,
    service: &mut Service<P>,
    show: &mut V,
) -> Result<(), RunEnd>
    requires { (shown.view service.old).fit }
    ensures done { shown.ForBook service.old (λ total book. OnOk result
        (SendsAll P.left P.sent (AreShown V.gives show.old show.new) total book service.old service.new)) }
    ensures within { OnOk result (IfSome (P.left (shown.pages service.old)) (λ input. length input ≤ 2 ^ 32)) }
    ensures ends { shown.ForBook service.old (λ total book. IfErr result
        (RunEndsBy P.left P.sent V.gives show.old show.new total book service.old service.new)) }
    // at each moment a crash leaves a book with each edit whose text was sent by then, and at most 64 edits more
    ensures crash { shown.ForBook service.old (λ total book. LastsBy P.left P.sent
        (AreShownFrom V.gives show.old) total book service.old service.new) }
    // blocks are read for lines alone, for each as few as its request may read
    ensures reads { shown.ForBook service.old (λ total book. ReadsByLines P.left total book service.old service.new) }
    // edits whose lines stand ready are committed together
    ensures syncs { shown.ForBook service.old (λ total book. SyncsByLines P.left P.pieces total book service.old service.new) }
    // whatever the pages are
    ensures whole { OnOk result (IsReadUp (P.left (shown.pages service.old)) (P.left (shown.pages service.new))) }
    ensures long { result ≡ Err (RunEnd.Serve ServeEnd.InputTooLong)
        → IfSome (P.left (shown.pages service.old)) (λ input. 2 ^ 32 < length input) }
    ensures read { result ≡ Err (RunEnd.Serve ServeEnd.ReadFault)
        → HasRisen (P.read_faults (shown.pages service.old)) (P.read_faults (shown.pages service.new)) }
    ensures send { result ≡ Err (RunEnd.Serve ServeEnd.SendFault)
        → HasRisen (P.send_faults (shown.pages service.old)) (P.send_faults (shown.pages service.new)) }
    ensures disk { result ≡ Err (RunEnd.Serve ServeEnd.DiskFault)
        → HasRisen (shown.view service.old).faults (shown.view service.new).faults }
    ensures faults { CountsFault (fault_in run_fault result) (shown.view service.old) (shown.view service.new) }
    ensures shown { IfErr result (IsShown V.gives) }
    // where `show` knows the open sessions, each frame that it wasn't able to show names known ones
    ensures known { (knows : V → ℕ → Bool) → Follows V.gives knows → KnowsOpen knows show.old (shown.sessions service.old)
        → IfErr result (EndsKnown V.gives knows) }
    // each frame that closes a session or answers in it names one that is open by those before it, the one that isn't shown too
    ensures named { ShowsBy V.gives show.old show.new (shown.sessions service.old) (P.sent (shown.pages service.old))
        (P.sent (shown.pages service.new)) result }
    // with `Ok` there is one a line, and each may answer its line
    ensures answers { OnOk result (IfSome (P.left (shown.pages service.old))
        (λ input. ShowsEach V.gives show.old show.new (shown.sessions service.old) input (P.sent (shown.pages service.old))
        (P.sent (shown.pages service.new)))) }
    // a page is called damaged by the line behind the answered ones
    ensures blames { IfErr result (ShowBlamesOf P.left P.sent V.gives show.old show.new service.old service.new) }
    ensures bad { IfErr result (EndsAtBad (shown.IsTold service.new) (shown.view service.new).size (shown.image service.new)) }
    ensures serves { Serves (shown.IsTold service.old) (shown.IsTold service.new) (shown.view service.old) (shown.view service.new) }
    ensures goes_on { GoesOn (shown.under service.old) (shown.under service.new) }
    ensures sound { result ≢ Err (RunEnd.Serve ServeEnd.DiskFault) → (shown.view service.new).fit }
    ensures total { shown.total service.new ≡ shown.total service.old }
{
    let texts = Texts { alloc };
    let answer = answer_lines(alloc, service, &texts, show);
    of_answers(answer)
}

/// What the answering of lines by texts answers, as the end of a run.
fn of_answers(answer: Result<(), AnswerEnd<RunEnd>>) -> Result<(), RunEnd>
    ensures { result ≡ run_answer answer }
{
    match answer {
        Ok(()) => Ok(()),
        Err(AnswerEnd::Serve(end)) => Err(RunEnd::Serve(end)),
        Err(AnswerEnd::Reply(end)) => Err(end),
    }
}

/// The text of what `show` shows for the spelling of a frame.
fn shown_text<V: Show>(alloc: Global, frame: &Frame, show: &mut V) -> Result<Vec<u8>, RunEnd>
    requires { Fits frame.now }
    ensures text { IfOk result (λ text. IsShownText V.gives frame.now show.old show.new text.items) }
    ensures stops { IfErr result (TextStops V.gives frame.now show.old show.new) }
{
    let bytes = encode(alloc, frame)?;
    let shown = show.show(bytes.as_slice())?;
    reply_text(alloc, &shown, bytes.len())
}
