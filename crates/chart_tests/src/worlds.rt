//! Worlds in memory, and what is done to them.

use block_disk::MemDisk;
use chart_service::Service;
use chart_world::MemWorld;
use disk_store::{disk_of, open_store};
use empty_store::make_store;
use served_lines::serve;
use std::alloc::Global;
use std::test::Fail;

/// The disk of an empty store, of so many blocks.
pub(crate) fn empty_of(alloc: Global, blocks: u32) -> Result<MemDisk, Fail> {
    match make_store(alloc, MemDisk::new(alloc, blocks, Vec::new(alloc))?) {
        Ok(disk) => Ok(disk),
        Err(_) => Err(Fail::new("no store was made")),
    }
}

/// The disk of an empty store, of 128 blocks.
pub(crate) fn empty(alloc: Global) -> Result<MemDisk, Fail> {
    empty_of(alloc, 128)
}

/// A world of this disk and this input, of which the takes of these numbers fail.
pub(crate) fn world_of(
    alloc: Global,
    disk: MemDisk,
    input: &[u8],
    take_fails: &[u64],
) -> Result<MemWorld<MemDisk>, Fail> {
    let input = Vec::from_slice(alloc, input)?;
    let take_fails = Vec::from_slice(alloc, take_fails)?;
    Ok(MemWorld::new(alloc, disk, input, take_fails, Vec::new(alloc))?)
}

/// The disk behind `serve` on these lines over an empty store.
pub(crate) fn behind(alloc: Global, lines: &[u8]) -> Result<MemDisk, Fail> {
    behind_on(alloc, empty(alloc)?, lines)
}

/// The disk behind `serve` on these lines over the store of a disk.
pub(crate) fn behind_on(alloc: Global, disk: MemDisk, lines: &[u8]) -> Result<MemDisk, Fail> {
    let world = world_of(alloc, disk, lines, &[])?;
    let Ok(store) = open_store(alloc, world) else {
        return Err(Fail::new("no store"));
    };
    let Ok(mut service) = Service::new(alloc, store) else {
        return Err(Fail::new("no service"));
    };
    if !service.is_sound() || serve(alloc, &mut service).is_err() {
        return Err(Fail::new("the lines weren't answered"));
    }
    Ok(disk_of(service.into_store()).into_disk())
}
