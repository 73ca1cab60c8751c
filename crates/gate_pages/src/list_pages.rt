//! Pages in memory.
ghost use Rattle.std.specs.Prelude.{◌≡◌, ◌*◌, ◌<◌, ℕ, length, replicate, IfOk};
ghost use Rattle.block_disk.specs.Blocks.{block_size};
ghost use Rattle.block_disk.specs.MemDisk.{blocks_of};

use block_disk::BLOCK;
use std::alloc::{AllocError, Global};

/// Pages in memory. No call of them fails. A crash leaves nothing of them.
#[derive(Drop)]
pub struct ListPages {
    pub(crate) count: u32,
    pub(crate) bytes: Vec<u8>,
    ghost whole: { length bytes.items ≡ block_size * count },
}

impl ListPages {
    /// So many pages, all zero.
    pub fn new(alloc: Global, count: u32) -> Result<ListPages, AllocError>
        ensures count { IfOk result (λ pages. pages.count ≡ count) }
        ensures zero { IfOk result (λ pages. (p : ℕ) → p < count → blocks_of pages.bytes.items p ≡ replicate block_size 0) }
    {
        let bytes = vec![in alloc; 0; BLOCK * count as usize]?;
        Ok(ListPages { count, bytes })
    }
}
