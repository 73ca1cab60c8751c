ghost use Rattle.std.specs.Prelude.{◌≡◌};
ghost use Rattle.needed_nodes.specs.declared.scan_of.ScanOf.TheVariants.{Node, NoMemory};

use om3_coeff::NodeError;
use std::alloc::{AllocError, AllocFailed};
use thiserror::Error;

/// Why a view got no keys or rows.
#[derive(Clone, Copy, Debug, Error)]
pub enum ScanOf {
    /// The nodes gave no coefficient.
    #[error("a coefficient wasn't given: {0}")]
    Node(NodeError),
    /// No memory was left for the keys or the rows.
    #[error("no memory for the keys or rows of a view")]
    NoMemory,
}

impl From<NodeError> for ScanOf {
    ghost from_gives = { λ error e. e ≡ Node error };

    fn from(error: NodeError) -> ScanOf {
        ScanOf::Node(error)
    }
}

impl From<AllocError> for ScanOf {
    ghost from_gives = { λ _ e. e ≡ NoMemory };

    fn from(_error: AllocError) -> ScanOf {
        ScanOf::NoMemory
    }
}

impl<T: Drop> From<AllocFailed<T>> for ScanOf {
    ghost from_gives = { λ _ e. e ≡ NoMemory };

    fn from(_error: AllocFailed<T>) -> ScanOf {
        ScanOf::NoMemory
    }
}
