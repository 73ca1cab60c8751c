//! Why a store wasn't opened or an edit not done.
use series_book::Refusal;
use thiserror::Error;

/// Why a store wasn't opened or an edit not done. `NotAStore` comes from opening alone, `Refused` from
/// edits alone.
#[derive(Clone, Copy, Debug, Error)]
pub enum StoreError {
    /// The edit is refused, and nothing is changed.
    #[error("refused: {0}")]
    Refused(Refusal),
    /// Page 0 lacks the magic of a store.
    #[error("this is no store")]
    NotAStore,
    /// A call of the disk failed: its count of faults has risen.
    #[error("a call of the disk failed")]
    DiskFault,
    /// This page is damaged.
    #[error("page {page} is damaged")]
    Damaged { page: u32 },
    /// There was no memory.
    #[error("out of memory")]
    NoMemory,
}
