//! A disk in memory.
ghost use Rattle.std.specs.Prelude.{◌≤◌, ◌*◌, length, IsTrue};
ghost use Rattle.std.specs.List.{list_all};
ghost use Rattle.block_disk.specs.Blocks.{block_size};
ghost use Rattle.block_disk.specs.Record.{call_fits};

use std::alloc::Global;

/// A call that was made. A block that was written is kept as it was before.
#[derive(Drop)]
pub enum Call {
    Wrote(u32, Vec<u8>),
    Synced,
    Asked,
}

/// A disk in memory, which keeps a record of all calls.
///
/// Its calls are counted from 0, and those that its list names fail. A write that fails so leaves its
/// block as it is, and pending. A call that finds no memory for the record fails too, and changes
/// nothing.
#[derive(Drop)]
pub struct MemDisk {
    pub(crate) alloc: Global,
    pub(crate) blocks: u32,
    pub(crate) bytes: Vec<u8>,
    pub(crate) record: Vec<Call>,
    pub(crate) fails: Vec<u64>,
    pub(crate) calls: u64,
    pub(crate) reads: u64,
    pub(crate) syncs: u64,
    pub(crate) writes: u64,
    pub(crate) faults: u64,
    ghost within: { block_size * blocks ≤ length bytes.items },
    ghost noted: { IsTrue (list_all (call_fits blocks) record.items) },
}
