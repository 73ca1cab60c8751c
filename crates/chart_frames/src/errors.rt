use std::alloc::{AllocError, AllocFailed};
use thiserror::Error;

/// Why no frame was given.
#[derive(Clone, Copy, Debug, Error)]
pub enum FrameFault {
    /// A complete field breaks its rule. `at` is the offset in the stream of the field's first byte.
    #[error("the field at {at} breaks its rule")]
    BadFrame { at: u64 },
    /// Want of memory.
    #[error("out of memory")]
    NoMemory,
}

impl From<AllocError> for FrameFault {
    ghost use Rattle.std.specs.Prelude.{◌≡◌};
    ghost use Rattle.chart_frames.specs.declared.errors.FrameFault.TheVariants.{NoMemory};

    ghost from_gives = { λ _ error. error ≡ NoMemory };

    fn from(_error: AllocError) -> FrameFault {
        FrameFault::NoMemory
    }
}

impl<T: Drop> From<AllocFailed<T>> for FrameFault {
    ghost use Rattle.std.specs.Prelude.{◌≡◌};
    ghost use Rattle.chart_frames.specs.declared.errors.FrameFault.TheVariants.{NoMemory};

    ghost from_gives = { λ _ error. error ≡ NoMemory };

    fn from(_error: AllocFailed<T>) -> FrameFault {
        FrameFault::NoMemory
    }
}
