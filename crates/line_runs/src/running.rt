//! The lines of an input are given to a work.
ghost use Rattle.std.specs.Prelude.{◌≡◌, ◌≤◌, ◌<◌, length, IfErr, IfSome, OnOk};
ghost use Rattle.chart_world.specs.Faults.{CountsFault, fault_in};
ghost use Rattle.chart_world.specs.Reading.{IsReadUp, unread_up_to};
ghost use Rattle.line_runs.specs.Runs.{cause_of, fault_of, harms_of};
ghost use Rattle.line_runs.specs.Given.{Pause};
ghost use Rattle.line_runs.specs.Shown.{LastsOn, LeavesOn, PausesOn, RunsAll, StopsOn};

use crate::line_work::LineWork;
use crate::lines_stop::LinesStop;
use block_disk::Streams;
use chart_world::{LineAnswer, LineFault, Lines};

/// Pauses the work, unless the next line stands ready.
fn pause_for<S: Streams, E, W: LineWork<S, E>>(
    work: &mut W,
    from: &mut S,
    lines: &Lines,
) -> Result<(), E>
    requires fit { W.fit work.old from.old lines.now.given }
    requires within { lines.now.given ≤ W.limit }
    ensures does { (state : W.State) → W.stands state work.old from.old
        → OnOk result (PausesOn S.sent W.stands W.does state lines.now work.new from.old from.new) }
    ensures stops { (state : W.State) → W.stands state work.old from.old
        → IfErr result (λ end. W.stops state Pause end work.new from.new (S.sent from.old)) }
    ensures leaves { (state : W.State) → W.stands state work.old from.old → W.lasting state
        → LeavesOn W.view W.leaves state Pause from.old from.new }
    ensures fit { OnOk result (W.fit work.new from.new lines.now.given) }
    ensures fit_on_err { IfErr result (λ end. (W.harms end → ⊥) → W.fit work.new from.new W.limit) }
    ensures goes { W.goes from.old from.new }
    ensures cause { IfErr result (λ end. W.cause end from.old from.new) }
    ensures faults { CountsFault (fault_in W.fault result) (W.view from.old) (W.view from.new) }
    ensures left { S.left from.new ≡ S.left from.old }
    ensures pieces { S.pieces from.old ≤ S.pieces from.new }
{
    if lines.ready() {
        return Ok(());
    }
    work.pause(from)
}

/// Gives each line of the input to the work, in order, and then the end, by a reader of lines that has given none. Where the
/// next line doesn't stand ready the work is paused first. After `Ok` the input was read to its end.
pub fn run_lines<S: Streams, E, W: LineWork<S, E>>(
    work: &mut W,
    from: &mut S,
    lines: &mut Lines,
) -> Result<(), LinesStop<E>>
    requires fit { W.fit work.old from.old 0 }
    requires fresh { lines.old ≡ unread_up_to W.limit }
    ensures done { (state : W.State) → W.stands state work.old from.old
        → OnOk result (RunsAll S.left S.sent S.pieces W.stands W.does state work.new from.old from.new) }
    ensures within { OnOk result (IfSome (S.left from.old) (λ input. length input ≤ W.limit)) }
    ensures stops { (state : W.State) → W.stands state work.old from.old
        → IfErr result (StopsOn S.left S.sent S.pieces W.stands W.does state work.new from.old from.new W.limit W.stops) }
    // at each moment a crash leaves what some first lines left, or what the next one leaves on its way
    ensures crash { (state : W.State) → W.stands state work.old from.old → W.lasting state
        → LastsOn W.limit S.left S.sent W.view W.does W.rests W.leaves state from.old from.new }
    // whatever the state is
    ensures whole { OnOk result (IsReadUp (S.left from.old) (S.left from.new)) }
    ensures long { result ≡ Err (LinesStop.Fault LineFault.InputTooLong) → IfSome (S.left from.old) (λ input. W.limit < length input) }
    ensures fit { OnOk result (W.fit work.new from.new W.limit) }
    ensures fit_on_err { IfErr result (λ stop. (harms_of W.harms stop → ⊥) → W.fit work.new from.new W.limit) }
    ensures goes { W.goes from.old from.new }
    ensures cause { IfErr result (cause_of W.cause from.old from.new) }
    ensures faults { CountsFault (fault_in (fault_of W.fault) result) (W.view from.old) (W.view from.new) }
{
    'lines: loop {
        match pause_for(work, from, lines) {
            Ok(()) => {}
            Err(end) => return Err(LinesStop::Work(end)),
        }
        let answer = match lines.next(from) {
            Ok(answer) => answer,
            Err(fault) => return Err(LinesStop::Fault(fault)),
        };
        match answer {
            LineAnswer::End => match work.finish(from) {
                Ok(()) => return Ok(()),
                Err(end) => return Err(LinesStop::Work(end)),
            },
            LineAnswer::TooLong => match work.long_line(from, lines.offset()) {
                Ok(()) => {}
                Err(end) => return Err(LinesStop::Work(end)),
            },
            LineAnswer::Line => match work.line(from, lines.offset(), lines.line()) {
                Ok(()) => {}
                Err(end) => return Err(LinesStop::Work(end)),
            },
        }
    }
}
