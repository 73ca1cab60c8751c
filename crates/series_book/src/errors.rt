use crate::refusals::Refusal;
use std::alloc::AllocError;
use thiserror::Error;

/// Why bytes are no name.
#[derive(Clone, Copy, Debug, Error)]
pub enum NameError {
    /// The bytes break the rule of names.
    #[error("not a name")]
    NotAName,
    /// Want of memory.
    #[error("out of memory")]
    NoMemory,
}

impl From<AllocError> for NameError {
    ghost use Rattle.std.specs.Prelude.{◌≡◌};
    ghost use Rattle.series_book.specs.declared.errors.NameError.TheVariants.{NoMemory};

    ghost from_gives = { λ _ error. error ≡ NoMemory };

    fn from(_error: AllocError) -> NameError {
        NameError::NoMemory
    }
}

/// Why an edit was not done. The book is as it was.
#[derive(Clone, Copy, Debug, Error)]
pub enum BookError {
    /// The edit is refused.
    #[error("{0}")]
    Refused(Refusal),
    /// Want of memory.
    #[error("out of memory")]
    NoMemory,
}

impl From<AllocError> for BookError {
    ghost use Rattle.std.specs.Prelude.{◌≡◌};
    ghost use Rattle.series_book.specs.declared.errors.BookError.TheVariants.{NoMemory};

    ghost from_gives = { λ _ error. error ≡ NoMemory };

    fn from(_error: AllocError) -> BookError {
        BookError::NoMemory
    }
}
