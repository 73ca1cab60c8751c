//! The command `export`: the stored values of a series are sent as lines that a load reads.
ghost use Rattle.std.specs.Prelude.{◌≡◌};
ghost use Rattle.chart_world.specs.Faults.{CountsFault};
ghost use Rattle.gate_pages.specs.Shown.{AreSound, disk};
ghost use Rattle.series_store.specs.Shown as shown;
ghost use Rattle.run_ends.specs.Faults.{end_fault};
ghost use Rattle.run_ends.specs.Statuses.{status_of};
ghost use Rattle.store_commands.specs.Away.{TurnsAway};
ghost use Rattle.store_commands.specs.Exported.{ExportEnds};
ghost use Rattle.store_commands.specs.Exporting.{ExportsOn, export_end};
ghost use Rattle.store_commands.specs.Traffic.{traffic};

use crate::opening::opening_end;
use block_disk::{Back, World};
use disk_store::{disk_of, open_store};
use gate_pages::GatePages;
use run_ends::End;
use series_book::Name;
use series_export::{Window, export_series};
use series_store::{SendError, Store};
use std::alloc::Global;

/// Sends the header and the lines of the stored values of the series of this name in the store of the
/// world's disk, or of those whose times are in the window.
pub fn export_values<W: World>(
    alloc: Global,
    name: &Name,
    window: Option<Window>,
    world: W,
) -> (End, W)
    ensures ends { ExportEnds name.now window (W.view world) (W.view result.1) (W.sent world) (W.sent result.1) (W.send_faults world)
        (W.send_faults result.1) result.0 }
    ensures away { TurnsAway (W.view world) (traffic W.left W.sent W.read_faults W.send_faults world result.1) (status_of result.0) }
    ensures untaken { W.left result.1 ≡ W.left world }
    ensures faults { CountsFault (end_fault result.0) (W.view world) (W.view result.1) }
{
    match open_store(alloc, world) {
        Ok(store) => export_opened(alloc, name, window, store),
        Err(Back { value, cause }) => (opening_end(cause), value),
    }
}

/// The same over a store that is open.
fn export_opened<W: World>(
    alloc: Global,
    name: &Name,
    window: Option<Window>,
    mut store: Store<GatePages<W>>,
) -> (End, W)
    requires { AreSound (shown.pages store) }
    ensures exports { let pages = shown.pages store in
        ExportsOn name.now window W.view pages result.1 (traffic W.left W.sent W.read_faults W.send_faults (disk pages) result.1) result.0 }
    ensures untaken { W.left result.1 ≡ W.left (disk (shown.pages store)) }
    ensures faults { CountsFault (end_fault result.0) (W.view (disk (shown.pages store))) (W.view result.1) }
{
    let Some(info) = store.series(name) else {
        return (End::UnknownSeries, disk_of(store));
    };
    let answer = export_series(alloc, &mut store, info.id, window);
    (export_end(answer), disk_of(store))
}

/// The end by what sending a series answers.
fn export_end(answer: Result<(), SendError>) -> End
    ensures { result ≡ export_end answer }
{
    match answer {
        Ok(()) => End::Done,
        Err(SendError::SendFault) => End::SendFault,
        Err(SendError::DiskFault) => End::DiskFault,
        Err(SendError::Damaged { page }) => End::DamagedPage { page },
        Err(SendError::NoMemory) => End::NoMemory,
    }
}
