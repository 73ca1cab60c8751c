//! Why there is no chart of a sum.
ghost use Rattle.std.specs.Prelude.{◌≡◌};
ghost use Rattle.series_pair.specs.declared.sum_error.SumError.TheVariants.{NoMemory};

use std::alloc::AllocError;
use thiserror::Error;

/// Why there is no chart of a sum. The book stays what it is.
#[derive(Clone, Copy, Debug, Error)]
pub enum SumError {
    /// The sum at this time is more than 10^18 in size, and none before it in the window is.
    #[error("the sum at the time {time} is too large")]
    TooLarge { time: i64 },
    /// A call of the disk failed: its count of faults has risen.
    #[error("a call of the disk failed")]
    DiskFault,
    /// This page is damaged.
    #[error("page {page} is damaged")]
    Damaged { page: u32 },
    /// There was no memory.
    #[error("out of memory")]
    NoMemory,
}

impl From<AllocError> for SumError {
    ghost from_gives = { λ _ error. error ≡ NoMemory };

    fn from(_error: AllocError) -> SumError {
        SumError::NoMemory
    }
}
