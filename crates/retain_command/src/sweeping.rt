//! The lines of a store's streams are swept and answered.
ghost use Rattle.std.specs.Prelude.{◌≡◌, ◌≢◌, ◌≤◌, ◌<◌, ◌^◌, length, IfSome};
ghost use Rattle.chart_world.specs.Faults.{CountsFault};
ghost use Rattle.chart_world.specs.Reading.{IsReadUp};
ghost use Rattle.run_ends.specs.Faults.{end_fault};
ghost use Rattle.series_store.specs.Shown as shown;
ghost use Rattle.store_commands.specs.Sides.{side_of};
ghost use Rattle.retain_command.specs.Doing.{Goes, IsCause};
ghost use Rattle.retain_command.specs.Shown.{CostsOn, EndsOn, IsAnsweredSo, IsAtFault, LastsFor};

use crate::rule_work::RuleWork;
use chart_world::Lines;
use gate_pages::PageWorld;
use line_runs::{run_end, run_lines};
use run_ends::End;
use series_store::Store;
use std::alloc::Global;

/// Sweeps the rule of each line of the input that isn't empty, in order, and sends `swept CLEARS USED` for it once it
/// is done. After `Done` the input was read to its end.
pub fn sweep_lines<P: PageWorld>(alloc: Global, store: &mut Store<P>) -> End
    requires sound { shown.IsSound store.old }
    ensures ends { shown.ForBook store.old (λ total book. EndsOn P.Streams total book store.old store.new result) }
    ensures within { result ≡ End.Done → IfSome (P.left (shown.pages store.old)) (λ input. length input ≤ 2 ^ 32) }
    // at each moment a crash leaves the book with each line whose answer was sent by then, and some first clears more
    ensures crash { shown.ForBook store.old (λ total book. LastsFor P.Streams total book store.old store.new) }
    // each clear is one commit, and comes behind a look
    ensures costs { shown.ForBook store.old (λ total book. CostsOn P.Streams total book store.old store.new) }
    // whatever the pages are
    ensures faulty { IsAtFault P.Streams store.old store.new result }
    ensures answered { IsAnsweredSo P.Streams store.old store.new result }
    ensures whole { result ≡ End.Done → IsReadUp (P.left (shown.pages store.old)) (P.left (shown.pages store.new)) }
    ensures long { result ≡ End.InputTooLong → IfSome (P.left (shown.pages store.old)) (λ input. 2 ^ 32 < length input) }
    ensures goes { Goes (side_of P.Streams store.old) (side_of P.Streams store.new) }
    ensures cause { result ≢ End.Done → IsCause result (side_of P.Streams store.old) (side_of P.Streams store.new) }
    // no count of faults rises but that of the call that the end tells
    ensures faults { CountsFault (end_fault result) (shown.view store.old) (shown.view store.new) }
    ensures sound { result ≢ End.DiskFault → shown.IsSound store.new }
{
    let Ok(mut lines) = Lines::new(alloc) else {
        return End::NoMemory;
    };
    let mut work = RuleWork { alloc };
    let answer = run_lines(&mut work, store, &mut lines);
    run_end(answer)
}
