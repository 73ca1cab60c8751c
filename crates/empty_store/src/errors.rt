//! Why no store was made.
use thiserror::Error;

/// Why no store was made.
#[derive(Clone, Copy, Debug, Error)]
pub enum InitCause {
    /// The disk has fewer than 128 blocks: so many.
    #[error("a disk of {0} blocks is too small for a store")]
    TooSmall(u32),
    /// Page 0 has the magic of a store already, of either version.
    #[error("there is a store already")]
    IsStore,
    /// A call of the disk failed: its count of faults has risen.
    #[error("a call of the disk failed")]
    DiskFault,
    /// There was no memory.
    #[error("out of memory")]
    NoMemory,
}
