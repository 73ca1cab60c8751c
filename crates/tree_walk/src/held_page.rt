//! A page that was read, with its number.
ghost use Rattle.block_disk.specs.Blocks.{IsBlock};

use block_disk::BLOCK;
use std::alloc::{AllocError, Global};

/// A page that was read, with its number.
#[derive(Drop)]
pub struct HeldPage {
    pub(crate) number: u32,
    pub(crate) bytes: Vec<u8>,
    ghost whole: { IsBlock bytes.items },
}

impl HeldPage {
    /// A buffer for a page.
    pub(crate) fn new(alloc: Global) -> Result<HeldPage, AllocError> {
        let bytes = vec![in alloc; 0; BLOCK]?;
        Ok(HeldPage { number: 0, bytes })
    }
}
