//! Why a tree wasn't changed.
use thiserror::Error;

/// Why a tree wasn't changed.
#[derive(Clone, Copy, Debug, Error)]
pub enum RepairError {
    /// The changed tree needs so many pages with all others in use, and there are so many.
    #[error("{needed} pages are needed and there are {have}")]
    Full { needed: u64, have: u64 },
    /// A call of the disk failed: its count of faults has risen.
    #[error("a call of the disk failed")]
    DiskFault,
    /// This page is damaged.
    #[error("page {page} is damaged")]
    Damaged { page: u32 },
    /// There was no memory.
    #[error("out of memory")]
    NoMemory,
}
