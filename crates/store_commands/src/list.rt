//! The command `list`: a line for each series of the store is sent.
ghost use Rattle.std.specs.Prelude.{◌≡◌, IfOk, flat_map, map};
ghost use Rattle.chart_world.specs.Faults.{CountsFault};
ghost use Rattle.series_catalog.specs.Catalogs.{entry_of};
ghost use Rattle.series_store.specs.Shown as shown;
ghost use Rattle.run_ends.specs.Faults.{end_fault};
ghost use Rattle.run_ends.specs.Statuses.{status_of};
ghost use Rattle.store_commands.specs.Away.{TurnsAway};
ghost use Rattle.store_commands.specs.Listed.{ListEnds, entry_line, list_text};
ghost use Rattle.store_commands.specs.Traffic.{traffic};

use crate::opening::opening_end;
use crate::sending::send_text;
use block_disk::{Back, World};
use disk_store::{disk_of, open_store};
use gate_pages::Pages;
use reading_lines::add_series;
use run_ends::End;
use series_store::Store;
use std::alloc::{AllocError, Global};

/// Sends a line for each series in the store of the world's disk, in the order of their creation:
/// `NAME START STEP SCALE SLOTS`.
pub fn list_series<W: World>(alloc: Global, world: W) -> (End, W)
    ensures ends { ListEnds (W.view world) (W.view result.1) (W.sent world) (W.sent result.1) (W.send_faults world)
        (W.send_faults result.1) result.0 }
    ensures away { TurnsAway (W.view world) (traffic W.left W.sent W.read_faults W.send_faults world result.1) (status_of result.0) }
    ensures untaken { W.left result.1 ≡ W.left world }
    ensures faults { CountsFault (end_fault result.0) (W.view world) (W.view result.1) }
{
    match open_store(alloc, world) {
        Ok(store) => {
            let text = list_text(alloc, &store);
            send_text(text, disk_of(store))
        }
        Err(Back { value, cause }) => (opening_end(cause), value),
    }
}

/// The lines of the series of a store.
fn list_text<P: Pages>(alloc: Global, store: &Store<P>) -> Result<Vec<u8>, AllocError>
    ensures books { shown.ForSoundBook store.now (λ total book. IfOk result (λ text. text.items ≡ list_text book)) }
    ensures records { IfOk result (λ text. text.items ≡ flat_map entry_line (map entry_of (shown.catalog store.now))) }
{
    let mut text = Vec::new(alloc);
    for id in 0..store.len() {
        if let Some(series) = store.series_at(id as u16) {
            add_series(&mut text, series.name, &series.axis, series.scale)?;
        }
    }
    Ok(text)
}
