use crate::key::Key;
use thiserror::Error;

/// The coefficient splits the span for no two halves.
#[derive(Clone, Copy, Debug, Error)]
#[error("the coefficient doesn't fit the span")]
pub struct BadCoef;

/// Why nodes gave no coefficient.
#[derive(Clone, Copy, Debug, Error)]
pub enum NodeError {
    /// The disk failed: its count of faults has risen.
    #[error("the disk failed")]
    DiskFault,
    /// A page of the disk breaks its layout.
    #[error("page {page} is damaged")]
    Damaged { page: u32 },
    /// The key's coefficient isn't held.
    #[error("the coefficient of {key:?} is missing")]
    Missing { key: Key },
    /// The key's coefficient doesn't split the key's span.
    #[error("the coefficient of {key:?} doesn't fit its span")]
    BadCoefficient { key: Key },
}
