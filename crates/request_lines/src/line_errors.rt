use std::alloc::{AllocError, AllocFailed};
use thiserror::Error;

/// Why a line gives no request.
#[derive(Clone, Copy, Debug, Error)]
pub enum LineError {
    /// The line isn't in the grammar; `at` is the offset of the first token that isn't what its
    /// place allows, or the line's length where a token is missing.
    #[error("bad line at {at}")]
    BadLine { at: u32 },
    /// Want of memory.
    #[error("out of memory")]
    NoMemory,
}

impl From<AllocError> for LineError {
    ghost use Rattle.std.specs.Prelude.{◌≡◌};
    ghost use Rattle.request_lines.specs.declared.line_errors.LineError.TheVariants.{NoMemory};

    ghost from_gives = { λ _ error. error ≡ NoMemory };

    fn from(_error: AllocError) -> LineError {
        LineError::NoMemory
    }
}

impl<T: Drop> From<AllocFailed<T>> for LineError {
    ghost use Rattle.std.specs.Prelude.{◌≡◌};
    ghost use Rattle.request_lines.specs.declared.line_errors.LineError.TheVariants.{NoMemory};

    ghost from_gives = { λ _ error. error ≡ NoMemory };

    fn from(_error: AllocFailed<T>) -> LineError {
        LineError::NoMemory
    }
}
