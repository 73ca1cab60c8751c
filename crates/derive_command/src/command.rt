//! The command `derive`: a picture for each line of the input, drawn of the store of a disk.
ghost use Rattle.chart_world.specs.Faults.{CountsFault};
ghost use Rattle.run_ends.specs.Faults.{end_fault};
ghost use Rattle.run_ends.specs.Statuses.{status_of};
ghost use Rattle.store_commands.specs.Away.{TurnsAway};
ghost use Rattle.store_commands.specs.Traffic.{traffic};
ghost use Rattle.derive_command.specs.Derived.{DeriveEnds};

use crate::drawing::draw_lines;
use block_disk::{Back, World};
use disk_store::{disk_of, open_store};
use run_ends::End;
use std::alloc::Global;
use store_commands::opening_end;

/// Sends a raw PBM for each line `NAME NAME A B W H T0 T1 RANGE` of the input: the chart of A times the first series and B
/// times the second, of the store of the world's disk.
pub fn derive<W: World>(alloc: Global, world: W) -> (End, W)
    ensures ends { DeriveEnds (W.view world) (W.view result.1) (traffic W.left W.sent W.read_faults W.send_faults world result.1) result.0 }
    ensures away { TurnsAway (W.view world) (traffic W.left W.sent W.read_faults W.send_faults world result.1) (status_of result.0) }
    // a count of faults has risen just where the end tells of such a fault
    ensures faults { CountsFault (end_fault result.0) (W.view world) (W.view result.1) }
{
    match open_store(alloc, world) {
        Ok(mut store) => {
            let end = draw_lines(alloc, &mut store);
            (end, disk_of(store))
        }
        Err(Back { value, cause }) => (opening_end(cause), value),
    }
}
