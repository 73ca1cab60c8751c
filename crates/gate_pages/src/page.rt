//! A page with its number.
ghost use Rattle.std.specs.Prelude.{◌≡◌};
ghost use Rattle.block_disk.specs.Blocks.{IsBlock};

use block_disk::BLOCK;
use std::alloc::{AllocError, Global};

/// A page of 4,096 bytes with its number.
#[derive(Drop)]
pub struct Page {
    pub(crate) number: u32,
    pub(crate) bytes: Vec<u8>,
    ghost whole: { IsBlock bytes.items },
}

impl Page {
    /// Page 0, all zero.
    pub(crate) fn new(alloc: Global) -> Result<Page, AllocError> {
        let bytes = vec![in alloc; 0; BLOCK]?;
        Ok(Page { number: 0, bytes })
    }

    /// Becomes the page of this number and these bytes.
    pub(crate) fn set(&mut self, number: u32, bytes: &[u8])
        requires { IsBlock bytes.now }
        ensures number { self.new.number ≡ number }
        ensures bytes { self.new.bytes.items ≡ bytes.now }
    {
        self.number = number;
        self.bytes.as_mut_slice().copy_from_slice(bytes);
    }
}
