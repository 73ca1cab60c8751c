ghost use Rattle.std.specs.Prelude.{◌≡◌};
ghost use Rattle.chart_client.specs.declared.errors.ClientError.TheVariants as client;

use om3_coeff::Key;
use std::alloc::{AllocError, AllocFailed};
use thiserror::Error;

/// Why a frame wasn't accepted.
#[derive(Clone, Copy, Debug, Error)]
pub enum ClientError {
    /// The coefficient of a key that the view wants was neither sent nor held. It is the first such
    /// key, from the top level down and then from left to right, whose coefficient can't be used.
    #[error("the coefficient of {key:?} is missing")]
    Missing { key: Key },
    /// The same, where there is a coefficient that doesn't fit the key's span.
    #[error("the coefficient of {key:?} doesn't fit")]
    BadCoefficient { key: Key },
    /// The frame names a session that isn't open.
    #[error("session {session} isn't open")]
    UnknownSession { session: u32 },
    /// There was no memory. Nothing is held any more.
    #[error("out of memory")]
    NoMemory,
}

impl From<AllocError> for ClientError {
    ghost from_gives = { λ _ e. e ≡ client.NoMemory };

    fn from(_error: AllocError) -> ClientError {
        ClientError::NoMemory
    }
}

impl<T: Drop> From<AllocFailed<T>> for ClientError {
    ghost from_gives = { λ _ e. e ≡ client.NoMemory };

    fn from(_error: AllocFailed<T>) -> ClientError {
        ClientError::NoMemory
    }
}
