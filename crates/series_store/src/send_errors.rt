//! Why not all values of a series were sent.
ghost use Rattle.series_store.specs.declared.send_errors.SendError.TheVariants.{NoMemory as AtMemory};

use crate::errors::StoreError;
use std::alloc::AllocError;
use thiserror::Error;

/// Why not all values of a series were sent.
#[derive(Clone, Copy, Debug, Error)]
pub enum SendError {
    /// A send failed: its count of faults has risen.
    #[error("the output could not be written")]
    SendFault,
    /// A call of the disk failed: its count of faults has risen.
    #[error("a call of the disk failed")]
    DiskFault,
    /// This page is damaged.
    #[error("page {page} is damaged")]
    Damaged { page: u32 },
    /// There was no memory.
    #[error("out of memory")]
    NoMemory,
}

impl From<AllocError> for SendError {
    ghost use Rattle.std.specs.Prelude.{◌≡◌};

    ghost from_gives = { λ _ e. e ≡ AtMemory };

    fn from(_: AllocError) -> SendError {
        SendError::NoMemory
    }
}

impl From<StoreError> for SendError {
    ghost use Rattle.std.specs.Prelude.{◌≡◌};
    ghost use Rattle.series_store.specs.Sending.{send_error_of};

    ghost from_gives = { λ error e. e ≡ send_error_of error };

    fn from(error: StoreError) -> SendError {
        match error {
            StoreError::DiskFault => SendError::DiskFault,
            StoreError::Damaged { page } => SendError::Damaged { page },
            StoreError::Refused(_) | StoreError::NotAStore | StoreError::NoMemory => {
                SendError::NoMemory
            }
        }
    }
}
