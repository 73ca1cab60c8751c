//! What a crash makes of the pending blocks of a disk in memory.
ghost use Rattle.std.specs.Prelude.{◌≡◌, ◌≤◌, ◌+◌, ◌-◌, ◌*◌, ◌<◌, ◌↔◌, ◌++◌, length, drop, take, IsTrue, IfOk, OnOk};
ghost use Rattle.std.specs.List.{list_all};
ghost use Rattle.block_disk.specs.Blocks.{block_size, IsBlock};
ghost use Rattle.block_disk.specs.MemDisk.{blocks_of, before, before_all, HasNoSync, mem_view};
ghost use Rattle.block_disk.specs.Record.{call_fits};
ghost use Rattle.block_disk.specs.Tear.{torn, after_tear, EndsSynced, Crashed, TornBy};
ghost use Rattle.block_disk.specs.View.{Now, Only};

use crate::BLOCK;
use crate::mem_calls::replace_block;
use crate::mem_disk::{Call, MemDisk};
use std::alloc::{AllocError, Global};

/// What a crash leaves of each pending block.
#[derive(Clone, Copy, Debug)]
pub enum Tear {
    /// What it was at the last sync.
    Old,
    /// What was written.
    New,
    /// The first 2,048 bytes of what was written, and the others of what it was.
    Half,
    /// This byte throughout.
    Junk(u8),
}

/// What a crash leaves of a block.
fn torn_block(alloc: Global, tear: Tear, old: &[u8], new: &[u8]) -> Result<Vec<u8>, AllocError>
    requires old_block { IsBlock old.now }
    requires new_block { IsBlock new.now }
    ensures block { IfOk result (λ block. block.items ≡ torn tear old.now new.now) }
    ensures len { IfOk result (λ block. IsBlock block.items) }
{
    match tear {
        Tear::Old => Ok(Vec::from_slice(alloc, old)?),
        Tear::New => Ok(Vec::from_slice(alloc, new)?),
        Tear::Half => half_block(alloc, old, new),
        Tear::Junk(byte) => Ok(vec![in alloc; byte; BLOCK]?),
    }
}

/// The front half of a block, and the other half of another.
fn half_block(alloc: Global, old: &[u8], new: &[u8]) -> Result<Vec<u8>, AllocError>
    requires old_block { IsBlock old.now }
    requires new_block { IsBlock new.now }
    ensures block { IfOk result (λ block. block.items ≡ take 2048 new.now ++ drop 2048 old.now) }
    ensures len { IfOk result (λ block. IsBlock block.items) }
{
    let (front, _) = new.split_at(BLOCK / 2);
    let (_, back) = old.split_at(BLOCK / 2);
    let mut block = Vec::from_slice(alloc, front)?;
    block.extend_from_slice(back)?;
    Ok(block)
}

/// Undoes the calls after the last sync, and answers how many came before them.
fn undo(bytes: &mut Vec<u8>, calls: &[Call], blocks: u32) -> usize
    requires fits { IsTrue (list_all (call_fits blocks) calls.now) }
    requires within { block_size * blocks ≤ length bytes.old.items }
    ensures some { result ≤ length calls.now }
    ensures synced { EndsSynced (take result calls.now) }
    ensures since { HasNoSync (drop result calls.now) }
    ensures undone { blocks_of bytes.new.items ≡ before_all (drop result calls.now) (blocks_of bytes.old.items) }
    ensures len { length bytes.new.items ≡ length bytes.old.items }
{
    let mut at = calls.len();
    while at > 0 {
        let call = &calls[at - 1];
        if is_sync(call) {
            break;
        }
        undo_call(bytes, call, blocks);
        at -= 1;
    }
    at
}

fn is_sync(call: &Call) -> bool
    ensures { IsTrue result ↔ (call.now ≡ Call.Synced) }
{
    matches!(call, Call::Synced)
}

/// Undoes one call.
fn undo_call(bytes: &mut Vec<u8>, call: &Call, blocks: u32)
    requires fits { IsTrue (call_fits blocks call.now) }
    requires within { block_size * blocks ≤ length bytes.old.items }
    ensures undone { blocks_of bytes.new.items ≡ before call.now (blocks_of bytes.old.items) }
    ensures len { length bytes.new.items ≡ length bytes.old.items }
{
    match call {
        Call::Wrote(no, block) => replace_block(bytes, *no, block.as_slice()),
        Call::Synced | Call::Asked => {}
    }
}

/// Tears one block, where the call wrote one.
fn tear_call(
    alloc: Global,
    left: &mut Vec<u8>,
    call: &Call,
    blocks: u32,
    tear: Tear,
    old: &[u8],
    new: &[u8],
) -> Result<(), AllocError>
    requires fits { IsTrue (call_fits blocks call.now) }
    requires within { block_size * blocks ≤ length left.old.items }
    requires old_within { block_size * blocks ≤ length old.now }
    requires new_within { block_size * blocks ≤ length new.now }
    ensures torn { OnOk result (blocks_of left.new.items ≡ after_tear tear call.now (blocks_of old.now) (blocks_of new.now)
        (blocks_of left.old.items)) }
    ensures len { length left.new.items ≡ length left.old.items }
{
    match call {
        Call::Wrote(no, _) => {
            let block = torn_at(alloc, tear, *no as usize, old, new)?;
            replace_block(left, *no, block.as_slice());
        }
        Call::Synced | Call::Asked => {}
    }
    Ok(())
}

/// What a crash leaves of the block with this number.
fn torn_at(
    alloc: Global,
    tear: Tear,
    no: usize,
    old: &[u8],
    new: &[u8],
) -> Result<Vec<u8>, AllocError>
    requires old_within { block_size * no + block_size ≤ length old.now }
    requires new_within { block_size * no + block_size ≤ length new.now }
    ensures block { IfOk result (λ block. block.items ≡ torn tear (blocks_of old.now no) (blocks_of new.now no)) }
    ensures len { IfOk result (λ block. IsBlock block.items) }
{
    torn_block(alloc, tear, block_at(old, no), block_at(new, no))
}

/// The block with this number.
fn block_at(bytes: &[u8], no: usize) -> &[u8]
    requires { block_size * no + block_size ≤ length bytes.now }
    ensures block { result.now ≡ blocks_of bytes.now no }
    ensures len { IsBlock result.now }
{
    let (_, rest) = bytes.split_at(BLOCK * no);
    let (block, _) = rest.split_at(BLOCK);
    block
}

/// Tears each block that one of these calls wrote, once, in a copy of what is there.
fn tear_all(
    alloc: Global,
    calls: &[Call],
    blocks: u32,
    tear: Tear,
    old: &[u8],
    new: &[u8],
) -> Result<Vec<u8>, AllocError>
    requires fits { IsTrue (list_all (call_fits blocks) calls.now) }
    requires old_within { block_size * blocks ≤ length old.now }
    requires new_within { block_size * blocks ≤ length new.now }
    ensures torn { IfOk result (λ left. TornBy tear calls.now (blocks_of old.now) (blocks_of new.now) (blocks_of left.items)) }
    ensures len { IfOk result (λ left. length left.items ≡ length new.now) }
{
    let mut left = Vec::from_slice(alloc, new)?;
    for call in calls {
        tear_call(alloc, &mut left, call, blocks, tear, old, new)?;
    }
    Ok(left)
}

impl MemDisk {
    /// What is there after a crash now that leaves the pending blocks so. It is called from 0 again,
    /// and no call of it fails.
    pub fn after_crash(self, tear: Tear) -> Result<MemDisk, AllocError>
        ensures left { IfOk result (λ disk. Crashed tear self.record.items (mem_view self).image (mem_view disk).image) }
        ensures possible { IfOk result (λ disk. Now (mem_view self) (mem_view disk).image) }
        ensures rests { IfOk result (λ disk. Only (mem_view disk).image (Now (mem_view disk))) }
        ensures size { IfOk result (λ disk. (mem_view disk).size ≡ (mem_view self).size) }
    {
        let MemDisk {
            alloc,
            blocks,
            bytes,
            record,
            ..
        } = self;
        let mut old = Vec::from_slice(alloc, bytes.as_slice())?;
        let synced = undo(&mut old, record.as_slice(), blocks);
        let calls = record.as_slice();
        let bytes = tear_all(
            alloc,
            &calls[synced..],
            blocks,
            tear,
            old.as_slice(),
            bytes.as_slice(),
        )?;
        Ok(MemDisk {
            alloc,
            blocks,
            bytes,
            record: Vec::new(alloc),
            fails: Vec::new(alloc),
            calls: 0,
            reads: 0,
            syncs: 0,
            writes: 0,
            faults: 0,
        })
    }
}
