//! The text of a command is sent.
ghost use Rattle.std.specs.Prelude.{◌≡◌};
ghost use Rattle.chart_world.specs.Faults.{CountsFault};
ghost use Rattle.run_ends.specs.Faults.{end_fault};
ghost use Rattle.store_commands.specs.Sending.{SendsMade};

use block_disk::World;
use run_ends::End;

/// Sends a text, where there was memory to make it, and says how that ended.
pub fn send_text<W: World, E: Drop>(made: Result<Vec<u8>, E>, mut world: W) -> (End, W)
    ensures sends { SendsMade made (W.view world) (W.view result.1) (W.sent world) (W.sent result.1) (W.send_faults world)
        (W.send_faults result.1) result.0 }
    ensures left { W.left result.1 ≡ W.left world }
    ensures faults { CountsFault (end_fault result.0) (W.view world) (W.view result.1) }
{
    let Ok(text) = made else {
        return (End::NoMemory, world);
    };
    match world.send(text.as_slice()) {
        Ok(()) => (End::Done, world),
        Err(_) => (End::SendFault, world),
    }
}
