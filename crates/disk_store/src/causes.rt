//! Why a store wasn't opened.
use thiserror::Error;

/// Why no store was opened.
#[derive(Clone, Copy, Debug, Error)]
pub enum OpeningCause {
    /// The disk has fewer than 128 blocks: so many.
    #[error("a disk of {0} blocks is too small for a store")]
    TooSmall(u32),
    /// This block breaks its layout: 1 is the directory of the journal, and page p is block 66 + p. It is
    /// 66 too where there is no store.
    #[error("block {block} is damaged")]
    Damaged { block: u64 },
    /// A call of the disk failed: its count of faults has risen.
    #[error("a call of the disk failed")]
    DiskFault,
    /// There was no memory.
    #[error("out of memory")]
    NoMemory,
}
