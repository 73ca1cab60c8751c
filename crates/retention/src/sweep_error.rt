//! Why a sweep ended before all of its clears were done.
use std::alloc::AllocError;
use thiserror::Error;

/// Why not all clears of a rule were done. Those that were stay.
#[derive(Clone, Copy, Debug, Error)]
pub enum SweepError {
    /// No series has the name of the rule. Nothing was done.
    #[error("no such series")]
    UnknownSeries,
    /// A call of the disk failed: its count of faults has risen.
    #[error("a call of the disk failed")]
    DiskFault,
    /// This page is damaged.
    #[error("page {page} is damaged")]
    Damaged { page: u32 },
    /// There was no memory.
    #[error("out of memory")]
    NoMemory,
}

impl From<AllocError> for SweepError {
    ghost use Rattle.std.specs.Prelude.{◌≡◌};
    ghost use Rattle.retention.specs.declared.sweep_error.SweepError.TheVariants.{NoMemory};

    ghost from_gives = { λ _ error. error ≡ NoMemory };

    fn from(_error: AllocError) -> SweepError {
        SweepError::NoMemory
    }
}
