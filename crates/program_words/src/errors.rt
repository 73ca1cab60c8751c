use std::alloc::{AllocError, AllocFailed};
use thiserror::Error;

/// Why the words of a command line weren't read.
#[derive(Clone, Copy, Debug, Error)]
pub(crate) enum WordsError {
    /// `clap` refuses them: one is a flag, or there is no command.
    #[error("the words aren't a command")]
    Refused,
    /// Want of memory.
    #[error("out of memory")]
    NoMemory,
}

impl From<AllocError> for WordsError {
    ghost use Rattle.std.specs.Prelude.{◌≡◌};
    ghost use Rattle.program_words.specs.declared.errors.WordsError.TheVariants.{NoMemory};

    ghost from_gives = { λ _ error. error ≡ NoMemory };

    fn from(_error: AllocError) -> WordsError {
        WordsError::NoMemory
    }
}

impl<T: Drop> From<AllocFailed<T>> for WordsError {
    ghost use Rattle.std.specs.Prelude.{◌≡◌};
    ghost use Rattle.program_words.specs.declared.errors.WordsError.TheVariants.{NoMemory};

    ghost from_gives = { λ _ error. error ≡ NoMemory };

    fn from(_error: AllocFailed<T>) -> WordsError {
        WordsError::NoMemory
    }
}
