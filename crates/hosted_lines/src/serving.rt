//! The lines of a live service's streams are answered, edits that stand ready together, and the pushes behind them made.
ghost use Rattle.std.specs.Prelude.{◌≡◌, ◌≢◌, ◌≤◌, ◌<◌, length, IfSome};
ghost use Rattle.chart_service.specs.Serving.{told};
ghost use Rattle.chart_world.specs.Faults.{CountsFault};
ghost use Rattle.chart_world.specs.Reading.{IsReadUp};
ghost use Rattle.live_service.specs.Shown as its;
ghost use Rattle.live_view.specs.Live as follows;
ghost use Rattle.run_ends.specs.Faults.{end_fault};
ghost use Rattle.hosted_lines.specs.Answers.{MayAnswerHost, SendsFor, followed_behind};
ghost use Rattle.hosted_lines.specs.Blaming.{BlamesHost, BlamesInput};
ghost use Rattle.hosted_lines.specs.Doing.{Goes, side_of};
ghost use Rattle.hosted_lines.specs.HostCauses.{IsHostCause};
ghost use Rattle.hosted_lines.specs.Input.{most_bytes};
ghost use Rattle.hosted_lines.specs.Served.{CostsFew, EndsOn, LastsFor};
ghost use Rattle.hosted_lines.specs.Shown.{HoldsSound, pages};

use crate::host_turns::HostTurns;
use chart_world::Lines;
use gate_pages::PageWorld;
use line_runs::{run_end, run_lines};
use live_service::ServiceStepper;
use live_view::Live;
use run_ends::End;
use std::alloc::Global;

/// The most bytes of input that a host takes.
pub const MOST_BYTES: u64 = 9_223_372_036_854_775_807;

/// Answers each line of the input that isn't empty, in order, by sending the spellings of frames. Edits whose lines stand
/// ready are done together, up to 64, and answered in order; behind them the pushes are made, of which each frame is sent
/// before the next is made. A line that asks for the list, for values or for a sum is reported. A line of more than 8,192
/// bytes is refused as too long. After `Done` the input was read to its end, which may come after 2^63 - 1 bytes.
pub fn host_lines<P: PageWorld>(alloc: Global, live: &mut Live<ServiceStepper<P>>) -> End
    requires sound { (its.view live.old).fit }
    requires idle { follows.IsIdle live.old }
    requires book { HoldsSound live.old }
    ensures ends { its.ForBook live.old (λ total book. EndsOn P.Streams total book live.old live.new result) }
    ensures within { result ≡ End.Done → IfSome (P.left (pages live.old)) (λ input. length input ≤ most_bytes) }
    // at each moment a crash leaves a book with each edit whose Done was sent by then, and at most 64 edits more
    ensures crash { its.ForBook live.old (λ total book. LastsFor P.Streams total book live.old live.new) }
    // blocks are read, and the disk is synced, by lines, groups and pushes alone, by each as seldom as it may
    ensures costs { its.ForBook live.old (λ total book. CostsFew P.Streams total book live.old live.new) }
    // whatever the pages are
    // each frame names sessions that are open by those before it, and after `Done` one answers each line; the others are pushes
    ensures answers { result ≡ End.Done → IfSome (P.left (pages live.old))
        (λ input. SendsFor P.Streams MayAnswerHost followed_behind (told input) live.old live.new) }
    // a page that is called damaged is so for the line behind the answered ones, or for a push
    ensures blames { BlamesInput P.Streams MayAnswerHost followed_behind BlamesHost live.old live.new result }
    ensures whole { result ≡ End.Done → IsReadUp (P.left (pages live.old)) (P.left (pages live.new)) }
    ensures long { result ≡ End.InputTooLong → IfSome (P.left (pages live.old)) (λ input. most_bytes < length input) }
    ensures goes { Goes (side_of P.Streams live.old) (side_of P.Streams live.new) }
    ensures cause { result ≢ End.Done → IsHostCause result (side_of P.Streams live.old) (side_of P.Streams live.new) }
    ensures faults { CountsFault (end_fault result) (its.view live.old) (its.view live.new) }
    ensures sound { result ≢ End.DiskFault → (its.view live.new).fit }
{
    let Ok(mut lines) = Lines::up_to(alloc, MOST_BYTES) else {
        return End::NoMemory;
    };
    let mut turns = HostTurns {
        alloc,
        edits: Vec::new(alloc),
    };
    let answer = run_lines(&mut turns, live, &mut lines);
    run_end(answer)
}
