use std::alloc::{AllocError, AllocFailed};
use thiserror::Error;

/// Why a text gives no filter.
#[derive(Clone, Copy, Debug, Error)]
pub enum FilterFault {
    /// The text isn't in the grammar. `at` is the offset of the first byte of the first piece that is
    /// no token or can't stand there, or the text's length where the text ends too early.
    #[error("no filter from byte {at} on")]
    At { at: u32 },
    /// Want of memory.
    #[error("no memory for the filter")]
    NoMemory,
}

impl From<AllocError> for FilterFault {
    ghost use Rattle.std.specs.Prelude.{◌≡◌};
    ghost use Rattle.value_filter.specs.declared.faults.FilterFault.TheVariants.{NoMemory};

    ghost from_gives = { λ _ fault. fault ≡ NoMemory };

    fn from(_error: AllocError) -> FilterFault {
        FilterFault::NoMemory
    }
}

impl<T: Drop> From<AllocFailed<T>> for FilterFault {
    ghost use Rattle.std.specs.Prelude.{◌≡◌};
    ghost use Rattle.value_filter.specs.declared.faults.FilterFault.TheVariants.{NoMemory};

    ghost from_gives = { λ _ fault. fault ≡ NoMemory };

    fn from(_error: AllocFailed<T>) -> FilterFault {
        FilterFault::NoMemory
    }
}
