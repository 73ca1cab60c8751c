//! Pages behind a gate on a disk.
ghost use Rattle.std.specs.Prelude.{◌≤◌, ◌<◌, ◌+◌, ◌^◌, IsTrue};
ghost use Rattle.block_disk.specs.Blocks.{IsBlock};
ghost use Rattle.gate_pages.specs.GatePages.{IsClosed};

use block_disk::Disk;

/// Pages on a disk, committed through a journal. A disk of more than 2^32 - 1 blocks is used up to them.
///
/// While they are sound, nothing is pending on the disk and the gate is closed.
#[derive(Drop)]
pub struct GatePages<D: Disk> {
    pub(crate) disk: D,
    pub(crate) buffer: Vec<u8>,
    pub(crate) count: u32,
    pub(crate) sound: bool,
    ghost whole: { IsBlock buffer.items },
    ghost few: { count + 66 < 2 ^ 32 },
    ghost within: { count + 66 ≤ (D.view disk).size },
    ghost at_rest: { IsTrue sound → IsClosed (D.view disk) },
}
