//! A disk of blocks.
ghost use Rattle.std.specs.Prelude.{◌≡◌, ◌<◌, IfOk, OnOk, OnErr};
ghost use Rattle.block_disk.specs.Blocks.{IsBlock};
ghost use Rattle.block_disk.specs.Counts.{HasRisen};
ghost use Rattle.block_disk.specs.View.{View, Now, Honest, Only, Moves, Nowhere, At};

use crate::Failed;

/// The bytes of a block.
pub const BLOCK: usize = 4096;

/// A disk of blocks of 4,096 bytes each. A block that was written is pending until a sync: a crash
/// may leave any bytes in it. `Failed` comes exactly where a fault is counted.
pub trait Disk: Drop {
    /// What reads give, and what a crash at each moment so far may leave.
    ghost view: { Self → View };

    /// The number of blocks. It never changes.
    fn blocks(&mut self) -> Result<u32, Failed>
        ensures size { IfOk result (λ count. count ≡ (view self.new).size) }
        ensures moves { Moves Nowhere 0 0 0 (view self.old) (view self.new) }
        ensures cause { OnErr result (HasRisen (view self.old).faults (view self.new).faults) }
        ensures quiet { OnOk result ((view self.new).faults ≡ (view self.old).faults) };

    /// Reads a block. After `Failed`, `out` may hold anything.
    fn read_block(&mut self, no: u32, out: &mut [u8]) -> Result<(), Failed>
        requires no_in_size { no < (view self.old).size }
        requires whole { IsBlock out.old }
        ensures bytes { Honest (view self.old) → OnOk result (out.new ≡ (view self.old).image no) }
        ensures moves { Moves Nowhere 1 0 0 (view self.old) (view self.new) }
        ensures cause { OnErr result (HasRisen (view self.old).faults (view self.new).faults) }
        ensures quiet { OnOk result ((view self.new).faults ≡ (view self.old).faults) };

    /// Writes a block, which is pending afterwards. After `Failed` it may read as anything.
    fn write_block(&mut self, no: u32, from: &[u8]) -> Result<(), Failed>
        requires no_in_size { no < (view self.old).size }
        requires whole { IsBlock from.now }
        ensures written { Honest (view self.old) → OnOk result ((view self.new).image no ≡ from.now) }
        ensures moves { Moves (At no) 0 0 1 (view self.old) (view self.new) }
        ensures cause { OnErr result (HasRisen (view self.old).faults (view self.new).faults) }
        ensures quiet { OnOk result ((view self.new).faults ≡ (view self.old).faults) };

    /// After `Ok` nothing is pending; after `Failed` the pending blocks stay pending.
    fn sync(&mut self) -> Result<(), Failed>
        ensures durable { OnOk result (Only (view self.new).image (Now (view self.new))) }
        ensures moves { Moves Nowhere 0 1 0 (view self.old) (view self.new) }
        ensures cause { OnErr result (HasRisen (view self.old).faults (view self.new).faults) }
        ensures quiet { OnOk result ((view self.new).faults ≡ (view self.old).faults) };
}
