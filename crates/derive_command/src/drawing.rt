//! The lines of a store's streams are answered.
ghost use Rattle.std.specs.Prelude.{◌≡◌, ◌≢◌, ◌≤◌, ◌<◌, ◌^◌, length, IfSome};
ghost use Rattle.chart_world.specs.Faults.{CountsFault};
ghost use Rattle.chart_world.specs.Reading.{IsReadUp};
ghost use Rattle.run_ends.specs.Faults.{end_fault};
ghost use Rattle.series_store.specs.Shown as shown;
ghost use Rattle.store_commands.specs.Sides.{side_of};
ghost use Rattle.derive_command.specs.Answers.{by_book};
ghost use Rattle.derive_command.specs.Catalogs.{by_memory};
ghost use Rattle.derive_command.specs.Doing.{Goes, IsCause};
ghost use Rattle.derive_command.specs.Shown.{EndsOn};

use crate::request_work::RequestWork;
use chart_world::Lines;
use gate_pages::PageWorld;
use line_runs::{run_end, run_lines};
use run_ends::End;
use series_store::Store;
use std::alloc::Global;

/// Sends the picture that each line of the input asks for, in order; empty lines are passed over. After `Done` the input
/// was read to its end. Nothing is written to the pages of the store.
pub fn draw_lines<P: PageWorld>(alloc: Global, store: &mut Store<P>) -> End
    requires sound { shown.IsSound store.old }
    ensures ends { shown.ForBook store.old (λ total book. EndsOn P.Streams (by_book book) store.old store.new result) }
    ensures within { result ≡ End.Done → IfSome (P.left (shown.pages store.old)) (λ input. length input ≤ 2 ^ 32) }
    // whatever the pages are, by the catalog that was read
    ensures lines { EndsOn P.Streams (by_memory (shown.catalog store.old) (side_of P.Streams store.new)) store.old store.new result }
    // a crash leaves at each moment what it might have left before
    ensures whole { result ≡ End.Done → IsReadUp (P.left (shown.pages store.old)) (P.left (shown.pages store.new)) }
    ensures long { result ≡ End.InputTooLong → IfSome (P.left (shown.pages store.old)) (λ input. 2 ^ 32 < length input) }
    ensures goes { Goes (side_of P.Streams store.old) (side_of P.Streams store.new) }
    ensures cause { result ≢ End.Done → IsCause result (side_of P.Streams store.old) (side_of P.Streams store.new) }
    ensures faults { CountsFault (end_fault result) (shown.view store.old) (shown.view store.new) }
{
    let Ok(mut lines) = Lines::new(alloc) else {
        return End::NoMemory;
    };
    let mut work = RequestWork { alloc };
    let answer = run_lines(&mut work, store, &mut lines);
    run_end(answer)
}
