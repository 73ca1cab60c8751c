//! The lines of a service's streams are answered.
ghost use Rattle.std.specs.Prelude.{◌≡◌, ◌≢◌, ◌≤◌, ◌<◌, ◌^◌, ℕ, Bool, [], Err, length, IfErr, IfSome, OnOk};
ghost use Rattle.block_disk.specs.Counts.{HasRisen};
ghost use Rattle.block_disk.specs.View.{Now, Only};
ghost use Rattle.chart_world.specs.Faults.{CountsFault, fault_in};
ghost use Rattle.chart_world.specs.Reading.{IsReadUp, unread_input};
ghost use Rattle.gate_pages.specs.Pages.{GoesOn};
ghost use Rattle.chart_service.specs.Answering.{SendsAll, EndsBy, LastsBy, ReadsByLines, SyncsByLines, EndsAtBad};
ghost use Rattle.chart_service.specs.Knowing.{Follows, KnowsOpen, EndsKnown};
ghost use Rattle.chart_service.specs.Faulting.{answer_fault};
ghost use Rattle.chart_service.specs.Making.{AreMade, AreMadeFrom};
ghost use Rattle.chart_service.specs.Naming.{GivesTold};
ghost use Rattle.chart_service.specs.Serving.{Serves};
ghost use Rattle.chart_service.specs.Shown as shown;
ghost use Rattle.served_lines.specs.Blaming.{BlamesOf};
ghost use Rattle.served_lines.specs.Ending.{answer_of};

use crate::turns::Turns;
use chart_service::{AnswerEnd, Reply, ServeEnd, Service};
use chart_world::{LineFault, Lines};
use gate_pages::PageWorld;
use line_runs::{LinesStop, run_lines};
use series_book::Edit;
use std::alloc::Global;

/// Answers each line of the input that isn't empty, in order, by sending the bytes that `reply` makes of
/// its frame. A line of more than 8,192 bytes is refused as too long. After `Ok` the input was read to its
/// end.
///
/// Edits whose lines stand ready are done together, up to 64, and then answered; nothing is taken from the
/// input before.
pub fn answer_lines<P: PageWorld, S, F, R: Reply<S, F>>(
    alloc: Global,
    service: &mut Service<P>,
    reply: &R,
    kept: &mut S,
) -> Result<(), AnswerEnd<F>>
    requires { (shown.view service.old).fit }
    ensures done { shown.ForBook service.old (λ total book. OnOk result
        (SendsAll P.left P.sent (AreMade R.makes kept.old kept.new) total book service.old service.new)) }
    ensures within { OnOk result (IfSome (P.left (shown.pages service.old)) (λ input. length input ≤ 2 ^ 32)) }
    ensures ends { shown.ForBook service.old (λ total book. IfErr result
        (EndsBy P.left P.sent R.makes kept.old kept.new total book service.old service.new)) }
    // at each moment a crash leaves a book with each edit whose bytes were sent by then, and at most 64 edits more
    ensures crash { shown.ForBook service.old (λ total book. LastsBy P.left P.sent
        (AreMadeFrom R.makes kept.old) total book service.old service.new) }
    // blocks are read for lines alone, for each as few as its request may read
    ensures reads { shown.ForBook service.old (λ total book. ReadsByLines P.left total book service.old service.new) }
    // edits whose lines stand ready are committed together
    ensures syncs { shown.ForBook service.old (λ total book. SyncsByLines P.left P.pieces total book service.old service.new) }
    // whatever the pages are
    ensures whole { OnOk result (IsReadUp (P.left (shown.pages service.old)) (P.left (shown.pages service.new))) }
    ensures long { result ≡ Err (AnswerEnd.Serve ServeEnd.InputTooLong)
        → IfSome (P.left (shown.pages service.old)) (λ input. 2 ^ 32 < length input) }
    ensures read { result ≡ Err (AnswerEnd.Serve ServeEnd.ReadFault)
        → HasRisen (P.read_faults (shown.pages service.old)) (P.read_faults (shown.pages service.new)) }
    ensures send { result ≡ Err (AnswerEnd.Serve ServeEnd.SendFault)
        → HasRisen (P.send_faults (shown.pages service.old)) (P.send_faults (shown.pages service.new)) }
    ensures disk { result ≡ Err (AnswerEnd.Serve ServeEnd.DiskFault)
        → HasRisen (shown.view service.old).faults (shown.view service.new).faults }
    ensures faults { CountsFault (fault_in answer_fault result) (shown.view service.old) (shown.view service.new) }
    // where the open sessions are known, a frame whose bytes weren't made names known ones
    ensures known { (knows : S → ℕ → Bool) → Follows R.makes knows → KnowsOpen knows kept.old service.old.sessions
        → IfErr result (EndsKnown R.makes knows) }
    // each frame may answer its line, and names a session that is open by those before it; after `Ok` there is one a line
    ensures gives { GivesTold R.makes (P.left (shown.pages service.old)) kept.old kept.new service.old.sessions service.new.sessions
        (P.sent (shown.pages service.old)) (P.sent (shown.pages service.new)) result }
    // a page is called damaged by the line behind the answered ones
    ensures blames { IfErr result (BlamesOf P.left P.sent R.makes kept.old kept.new service.old service.new) }
    ensures bad { IfErr result (EndsAtBad (shown.IsTold service.new) (shown.view service.new).size (shown.image service.new)) }
    ensures serves { Serves (shown.IsTold service.old) (shown.IsTold service.new) (shown.view service.old) (shown.view service.new) }
    ensures goes_on { GoesOn (shown.under service.old) (shown.under service.new) }
    ensures sound { result ≢ Err (AnswerEnd.Serve ServeEnd.DiskFault) → (shown.view service.new).fit }
    ensures rests { result ≢ Err (AnswerEnd.Serve ServeEnd.DiskFault) → Only (shown.image service.new) (Now (shown.view service.new)) }
    ensures total { shown.total service.new ≡ shown.total service.old }
{
    let mut lines = match Lines::new(alloc) {
        Ok(lines) => lines,
        Err(_) => return Err(AnswerEnd::Serve(ServeEnd::NoMemory)),
    };
    let mut turns = Turns {
        alloc,
        reply,
        kept,
        edits: Vec::new(alloc),
    };
    let answer = answer_turns(&mut turns, service, &mut lines);
    let _kept = turns.into_kept();
    answer
}

/// Gives the lines of the input to the work of `turns`, which has kept none back.
fn answer_turns<P: PageWorld, S, F, R: Reply<S, F>>(
    turns: &mut Turns<'_, R, S, Vec<Edit>>,
    service: &mut Service<P>,
    lines: &mut Lines,
) -> Result<(), AnswerEnd<F>>
    requires sound { (shown.view service.old).fit }
    requires none { turns.old.edits.items ≡ [] }
    requires fresh { lines.old ≡ unread_input }
    ensures same_reference { turns.new.kept.ghost_name ≡ turns.old.kept.ghost_name }
    ensures done { shown.ForBook service.old (λ total book. OnOk result
        (SendsAll P.left P.sent (AreMade R.makes turns.old.kept.now turns.new.kept.now) total book service.old service.new)) }
    ensures within { OnOk result (IfSome (P.left (shown.pages service.old)) (λ input. length input ≤ 2 ^ 32)) }
    ensures ends { shown.ForBook service.old (λ total book. IfErr result
        (EndsBy P.left P.sent R.makes turns.old.kept.now turns.new.kept.now total book service.old service.new)) }
    ensures crash { shown.ForBook service.old (λ total book. LastsBy P.left P.sent
        (AreMadeFrom R.makes turns.old.kept.now) total book service.old service.new) }
    ensures reads { shown.ForBook service.old (λ total book. ReadsByLines P.left total book service.old service.new) }
    ensures syncs { shown.ForBook service.old (λ total book. SyncsByLines P.left P.pieces total book service.old service.new) }
    ensures whole { OnOk result (IsReadUp (P.left (shown.pages service.old)) (P.left (shown.pages service.new))) }
    ensures long { result ≡ Err (AnswerEnd.Serve ServeEnd.InputTooLong)
        → IfSome (P.left (shown.pages service.old)) (λ input. 2 ^ 32 < length input) }
    ensures read { result ≡ Err (AnswerEnd.Serve ServeEnd.ReadFault)
        → HasRisen (P.read_faults (shown.pages service.old)) (P.read_faults (shown.pages service.new)) }
    ensures send { result ≡ Err (AnswerEnd.Serve ServeEnd.SendFault)
        → HasRisen (P.send_faults (shown.pages service.old)) (P.send_faults (shown.pages service.new)) }
    ensures disk { result ≡ Err (AnswerEnd.Serve ServeEnd.DiskFault)
        → HasRisen (shown.view service.old).faults (shown.view service.new).faults }
    ensures faults { CountsFault (fault_in answer_fault result) (shown.view service.old) (shown.view service.new) }
    ensures known { (knows : S → ℕ → Bool) → Follows R.makes knows → KnowsOpen knows turns.old.kept.now service.old.sessions
        → IfErr result (EndsKnown R.makes knows) }
    ensures gives { GivesTold R.makes (P.left (shown.pages service.old)) turns.old.kept.now turns.new.kept.now service.old.sessions
        service.new.sessions (P.sent (shown.pages service.old)) (P.sent (shown.pages service.new)) result }
    ensures blames { IfErr result (BlamesOf P.left P.sent R.makes turns.old.kept.now turns.new.kept.now service.old service.new) }
    ensures bad { IfErr result (EndsAtBad (shown.IsTold service.new) (shown.view service.new).size (shown.image service.new)) }
    ensures serves { Serves (shown.IsTold service.old) (shown.IsTold service.new) (shown.view service.old) (shown.view service.new) }
    ensures goes_on { GoesOn (shown.under service.old) (shown.under service.new) }
    ensures sound { result ≢ Err (AnswerEnd.Serve ServeEnd.DiskFault) → (shown.view service.new).fit }
    ensures rests { result ≢ Err (AnswerEnd.Serve ServeEnd.DiskFault) → Only (shown.image service.new) (Now (shown.view service.new)) }
    ensures total { shown.total service.new ≡ shown.total service.old }
{
    service.is_sound();
    answer_of(run_lines(turns, service, lines))
}

/// How the answering of lines ended.
fn answer_of<F>(answer: Result<(), LinesStop<AnswerEnd<F>>>) -> Result<(), AnswerEnd<F>>
    ensures { result ≡ answer_of answer }
{
    match answer {
        Ok(()) => Ok(()),
        Err(LinesStop::Fault(LineFault::ReadFault)) => Err(AnswerEnd::Serve(ServeEnd::ReadFault)),
        Err(LinesStop::Fault(LineFault::InputTooLong)) => Err(AnswerEnd::Serve(
            ServeEnd::InputTooLong,
        )),
        Err(LinesStop::Work(end)) => Err(end),
    }
}
