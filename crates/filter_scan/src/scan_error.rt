ghost use Rattle.std.specs.Prelude.{◌≡◌};
ghost use Rattle.filter_scan.specs.declared.scan_error.ScanError.TheVariants.{Node, NoMemory};

use om3_coeff::NodeError;
use std::alloc::{AllocError, AllocFailed};
use thiserror::Error;

/// Why a filtered view got no rows.
#[derive(Clone, Copy, Debug, Error)]
pub enum ScanError {
    /// The nodes gave no coefficient.
    #[error("a coefficient wasn't given: {0}")]
    Node(NodeError),
    /// No memory was left for the rows or the plan.
    #[error("no memory for the rows of a filtered view")]
    NoMemory,
}

impl From<NodeError> for ScanError {
    ghost from_gives = { λ error e. e ≡ Node error };

    fn from(error: NodeError) -> ScanError {
        ScanError::Node(error)
    }
}

impl From<AllocError> for ScanError {
    ghost from_gives = { λ _ e. e ≡ NoMemory };

    fn from(_error: AllocError) -> ScanError {
        ScanError::NoMemory
    }
}

impl<T: Drop> From<AllocFailed<T>> for ScanError {
    ghost from_gives = { λ _ e. e ≡ NoMemory };

    fn from(_error: AllocFailed<T>) -> ScanError {
        ScanError::NoMemory
    }
}
