//! Disks in memory are made, and tell how often they were called.
ghost use Rattle.std.specs.Prelude.{◌≡◌, ◌<◌, ◌-◌, ◌%◌, ◌/◌, ◌^◌, ℕ, min, length, replicate, IfOk};
ghost use Rattle.block_disk.specs.Blocks.{block_size};
ghost use Rattle.block_disk.specs.View.{Now, Only};
ghost use Rattle.block_disk.specs.MemDisk.{mem_view, blocks_of};

use crate::BLOCK;
use crate::mem_disk::MemDisk;
use std::alloc::{AllocError, Global};

impl MemDisk {
    /// A disk of so many blocks, all zero. Calls are counted from 0, and those that `fails` names fail.
    pub fn new(alloc: Global, blocks: u32, fails: Vec<u64>) -> Result<MemDisk, AllocError>
        ensures size { IfOk result (λ disk. (mem_view disk).size ≡ blocks) }
        ensures zero { IfOk result (λ disk. (number : ℕ) → number < blocks → (mem_view disk).image number ≡ replicate block_size 0) }
        ensures rests { IfOk result (λ disk. Only (mem_view disk).image (Now (mem_view disk))) }
        ensures fails { IfOk result (λ disk. disk.fails.items ≡ fails.items) }
        ensures counts { IfOk result (λ disk. (disk.calls ≡ 0) × (disk.reads ≡ 0) × (disk.syncs ≡ 0) × (disk.writes ≡ 0)
            × (disk.faults ≡ 0)) }
    {
        let bytes = vec![in alloc; 0; BLOCK * blocks as usize]?;
        Ok(MemDisk {
            alloc,
            blocks,
            bytes,
            record: Vec::new(alloc),
            fails,
            calls: 0,
            reads: 0,
            syncs: 0,
            writes: 0,
            faults: 0,
        })
    }

    /// A disk of the blocks that lie in these bytes one after another.
    pub fn from_bytes(alloc: Global, image: Vec<u8>, fails: Vec<u64>) -> MemDisk
        requires { length image.items % block_size ≡ 0 }
        ensures size { (mem_view result).size ≡ min (length image.items / block_size) (2 ^ 32 - 1) }
        ensures bytes { (number : ℕ) → (mem_view result).image number ≡ blocks_of image.items number }
        ensures rests { Only (mem_view result).image (Now (mem_view result)) }
        ensures fails { result.fails.items ≡ fails.items }
        ensures counts { (result.calls ≡ 0) × (result.reads ≡ 0) × (result.syncs ≡ 0) × (result.writes ≡ 0) × (result.faults ≡ 0) }
    {
        let blocks = (image.len() / BLOCK).min(u32::MAX as usize) as u32;
        MemDisk {
            alloc,
            blocks,
            bytes: image,
            record: Vec::new(alloc),
            fails,
            calls: 0,
            reads: 0,
            syncs: 0,
            writes: 0,
            faults: 0,
        }
    }

    /// How often it was called so far.
    pub fn calls(&self) -> u64
        ensures { result ≡ self.now.calls }
    {
        self.calls
    }

    /// How often a block was read so far.
    pub fn reads(&self) -> u64
        ensures { result ≡ (mem_view self.now).reads }
    {
        self.reads
    }

    /// How often it was synced so far.
    pub fn syncs(&self) -> u64
        ensures { result ≡ (mem_view self.now).syncs }
    {
        self.syncs
    }
}
