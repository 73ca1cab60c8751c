//! The command `check`: every page of the store is read, and what it holds is counted and sent.
ghost use Rattle.std.specs.Prelude.{◌≡◌, IfOk};
ghost use Rattle.chart_world.specs.Faults.{CountsFault};
ghost use Rattle.gate_pages.specs.Shown.{AreSound, count, disk};
ghost use Rattle.series_store.specs.Shown as shown;
ghost use Rattle.store_commands.specs.Checked.{CheckEnds, counts_text};
ghost use Rattle.store_commands.specs.Checking.{ChecksOn, check_end};
ghost use Rattle.run_ends.specs.Faults.{end_fault};
ghost use Rattle.run_ends.specs.Statuses.{status_of};
ghost use Rattle.store_commands.specs.Away.{TurnsAway};
ghost use Rattle.store_commands.specs.Traffic.{traffic};

use crate::opening::opening_end;
use crate::sending::send_text;
use block_disk::{Back, World};
use disk_store::{disk_of, open_store};
use gate_pages::GatePages;
use run_ends::End;
use series_store::{Counts, Store, StoreError};
use std::alloc::{AllocError, Global};

/// Reads every page of the store of the world's disk, and sends three lines: `series N`, `values N` and
/// `pages USED of TOTAL`.
pub fn check_store<W: World>(alloc: Global, world: W) -> (End, W)
    ensures ends { CheckEnds (W.view world) (W.view result.1) (W.sent world) (W.sent result.1) (W.send_faults world)
        (W.send_faults result.1) result.0 }
    ensures away { TurnsAway (W.view world) (traffic W.left W.sent W.read_faults W.send_faults world result.1) (status_of result.0) }
    ensures untaken { W.left result.1 ≡ W.left world }
    ensures faults { CountsFault (end_fault result.0) (W.view world) (W.view result.1) }
{
    match open_store(alloc, world) {
        Ok(store) => check_opened(alloc, store),
        Err(Back { value, cause }) => (opening_end(cause), value),
    }
}

/// The same over a store that is open.
fn check_opened<W: World>(alloc: Global, mut store: Store<GatePages<W>>) -> (End, W)
    requires { AreSound (shown.pages store) }
    ensures checks { let at = shown.pages store in ChecksOn (count at) (W.view (disk at)) (W.view result.1)
        (traffic W.left W.sent W.read_faults W.send_faults (disk at) result.1) result.0 }
    ensures untaken { W.left result.1 ≡ W.left (disk (shown.pages store)) }
    ensures faults { CountsFault (end_fault result.0) (W.view (disk (shown.pages store))) (W.view result.1) }
{
    let counted = store.check();
    let world = disk_of(store);
    match counted {
        Ok(counts) => send_text(counts_text(alloc, counts), world),
        Err(error) => (check_end(error), world),
    }
}

/// The three lines of a check.
#[tactic(auto, unfolding(crate::specs::Checked::counts_text))]
fn counts_text(alloc: Global, counts: Counts) -> Result<Vec<u8>, AllocError>
    ensures { IfOk result (λ text. text.items ≡ counts_text counts) }
{
    let text = format!(in alloc;
        "series {}\nvalues {}\npages {} of {}\n",
        counts.series, counts.values, counts.used, counts.total
    )?;
    Ok(text.into_bytes())
}

/// The end where a store wasn't counted. `NotAStore` and `Refused` come from no check.
fn check_end(error: StoreError) -> End
    ensures { result ≡ check_end error }
{
    match error {
        StoreError::Damaged { page } => End::DamagedPage { page },
        StoreError::DiskFault => End::DiskFault,
        StoreError::NotAStore | StoreError::Refused(_) | StoreError::NoMemory => End::NoMemory,
    }
}
