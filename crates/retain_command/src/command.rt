//! The command `retain`: the rules of the input are swept over the store of a disk, and each is answered.
ghost use Rattle.chart_world.specs.Faults.{CountsFault};
ghost use Rattle.run_ends.specs.Faults.{end_fault};
ghost use Rattle.run_ends.specs.Statuses.{status_of};
ghost use Rattle.store_commands.specs.Away.{TurnsAway};
ghost use Rattle.store_commands.specs.Traffic.{traffic};
ghost use Rattle.retain_command.specs.Retained.{RetainEnds};

use crate::sweeping::sweep_lines;
use block_disk::{Back, World};
use disk_store::{disk_of, open_store};
use run_ends::End;
use std::alloc::Global;
use store_commands::opening_end;

/// Sweeps the rule of each line of the input over the store of the world's disk, sends `swept CLEARS USED` for each, and
/// says how that ended.
pub fn retain<W: World>(alloc: Global, world: W) -> (End, W)
    ensures ends { RetainEnds (W.view world) (W.view result.1) (traffic W.left W.sent W.read_faults W.send_faults world result.1) result.0 }
    ensures away { TurnsAway (W.view world) (traffic W.left W.sent W.read_faults W.send_faults world result.1) (status_of result.0) }
    // no count of faults rises but that of the call that the end tells
    ensures faults { CountsFault (end_fault result.0) (W.view world) (W.view result.1) }
{
    match open_store(alloc, world) {
        Ok(mut store) => {
            let end = sweep_lines(alloc, &mut store);
            (end, disk_of(store))
        }
        Err(Back { value, cause }) => (opening_end(cause), value),
    }
}
