//! The command `load`: the readings of the input are stored in a series, and their number is sent.
ghost use Rattle.std.specs.Prelude.{◌≡◌, ◌≢◌, IfOk};
ghost use Rattle.chart_world.specs.Faults.{CountsFault, fault_in};
ghost use Rattle.gate_pages.specs.Shown.{AreSound, disk};
ghost use Rattle.gate_pages.specs.Journal.{page_count};
ghost use Rattle.run_ends.specs.Faults.{end_fault};
ghost use Rattle.run_ends.specs.Statuses.{status_of};
ghost use Rattle.series_store.specs.Shown as shown;
ghost use Rattle.store_commands.specs.Loaded.{LoadEnds, loaded_text};
ghost use Rattle.store_commands.specs.Storing.{CostsOn, StoresOn};
ghost use Rattle.store_commands.specs.Away.{TurnsAway};
ghost use Rattle.store_commands.specs.Books.{HoldsAgain};
ghost use Rattle.store_commands.specs.Traffic.{traffic};

use crate::opening::opening_end;
use crate::sending::send_text;
use block_disk::{Back, World};
use disk_store::{disk_of, open_store};
use gate_pages::GatePages;
use run_ends::End;
use series_book::Name;
use series_load::load;
use series_store::Store;
use std::alloc::{AllocError, Global};

/// Stores the readings of the input, CSV lines, in the series of this name in the store of the world's disk,
/// and sends how many there were: `loaded N` and a line feed.
pub fn load_series<W: World>(alloc: Global, name: &Name, world: W) -> (End, W)
    ensures ends { LoadEnds name.now (W.view world) (W.view result.1)
        (traffic W.left W.sent W.read_faults W.send_faults world result.1) result.0 }
    ensures holds { result.0 ≢ End.DiskFault → HoldsAgain (page_count (W.view world).size) (W.view world) (W.view result.1) }
    ensures away { TurnsAway (W.view world) (traffic W.left W.sent W.read_faults W.send_faults world result.1) (status_of result.0) }
    ensures faults { CountsFault (end_fault result.0) (W.view world) (W.view result.1) }
{
    match open_store(alloc, world) {
        Ok(store) => {
            let (answer, world) = load_store(alloc, name, store);
            match answer {
                Ok(readings) => send_text(loaded_text(alloc, readings), world),
                Err(end) => (end, world),
            }
        }
        Err(Back { value, cause }) => (opening_end(cause), value),
    }
}

/// Loads the input into a series of a store: how many readings it had, and the disk.
fn load_store<W: World>(
    alloc: Global,
    name: &Name,
    mut store: Store<GatePages<W>>,
) -> (Result<u64, End>, W)
    requires { AreSound (shown.pages store) }
    ensures stores { let pages = shown.pages store in
        StoresOn name.now W.view pages result.1 (traffic W.left W.sent W.read_faults W.send_faults (disk pages) result.1) result.0 }
    ensures costs { CostsOn name.now W.view W.left (shown.pages store) result.1 }
    ensures faults { CountsFault (fault_in end_fault result.0) (W.view (disk (shown.pages store))) (W.view result.1) }
{
    let answer = load(alloc, &mut store, name);
    (answer, disk_of(store))
}

/// What is said of so many readings.
fn loaded_text(alloc: Global, readings: u64) -> Result<Vec<u8>, AllocError>
    ensures { IfOk result (λ text. text.items ≡ loaded_text readings) }
{
    Ok(format!(in alloc; "loaded {readings}\n")?.into_bytes())
}
