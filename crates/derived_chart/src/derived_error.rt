ghost use Rattle.std.specs.Prelude.{◌≡◌};
ghost use Rattle.derived_chart.specs.declared.derived_error.DerivedError.TheVariants.{Node, NoMemory};

use om3_coeff::NodeError;
use std::alloc::{AllocError, AllocFailed};
use thiserror::Error;

/// Why there are no rows of a sum.
#[derive(Clone, Copy, Debug, Error)]
pub enum DerivedError {
    /// The sum at this time is more than 10^18 in size, and none before it in the window is.
    #[error("the sum at the time {time} is too large")]
    TooLarge { time: i64 },
    /// The trees gave no coefficient.
    #[error("a coefficient wasn't given: {0}")]
    Node(NodeError),
    /// No memory was left for the rows.
    #[error("no memory for the rows of a sum")]
    NoMemory,
}

impl From<NodeError> for DerivedError {
    ghost from_gives = { λ error e. e ≡ Node error };

    fn from(error: NodeError) -> DerivedError {
        DerivedError::Node(error)
    }
}

impl From<AllocError> for DerivedError {
    ghost from_gives = { λ _ e. e ≡ NoMemory };

    fn from(_error: AllocError) -> DerivedError {
        DerivedError::NoMemory
    }
}

impl<T: Drop> From<AllocFailed<T>> for DerivedError {
    ghost from_gives = { λ _ e. e ≡ NoMemory };

    fn from(_error: AllocFailed<T>) -> DerivedError {
        DerivedError::NoMemory
    }
}
