ghost use Rattle.std.specs.Prelude.{◌≡◌};
ghost use Rattle.zoom_session.specs.declared.errors.SessionError.TheVariants as session;
ghost use Rattle.zoom_session.specs.declared.errors.PlanError.TheVariants as plan;
ghost use Rattle.zoom_session.specs.Plans.{plan_error_of};

use needed_nodes::ScanOf;
use om3_coeff::NodeError;
use series_book::Refusal;
use std::alloc::{AllocError, AllocFailed};
use thiserror::Error;

/// Why a session wasn't opened. The sessions are as they were.
#[derive(Debug, Drop, Error)]
pub enum SessionError {
    /// The session is open already, 16 are open, or the cache isn't 1 to 131,072.
    #[error("refused")]
    Refused(Refusal),
    /// There was no memory.
    #[error("out of memory")]
    NoMemory,
}

/// Why a view wasn't planned.
#[derive(Clone, Copy, Debug, Error)]
pub enum PlanError {
    /// The view needs more keys than the session's client keeps.
    #[error("the view needs {needed} coefficients, and the cache has {cache}")]
    TooLarge { needed: u64, cache: u64 },
    /// What the nodes answered to an ask.
    #[error("{0}")]
    Node(NodeError),
    /// There was no memory.
    #[error("out of memory")]
    NoMemory,
}

impl From<AllocError> for SessionError {
    ghost from_gives = { λ _ e. e ≡ session.NoMemory };

    fn from(_error: AllocError) -> SessionError {
        SessionError::NoMemory
    }
}

impl<T: Drop> From<AllocFailed<T>> for SessionError {
    ghost from_gives = { λ _ e. e ≡ session.NoMemory };

    fn from(_error: AllocFailed<T>) -> SessionError {
        SessionError::NoMemory
    }
}

impl From<AllocError> for PlanError {
    ghost from_gives = { λ _ e. e ≡ plan.NoMemory };

    fn from(_error: AllocError) -> PlanError {
        PlanError::NoMemory
    }
}

impl From<ScanOf> for PlanError {
    ghost from_gives = { λ error e. e ≡ plan_error_of error };

    fn from(error: ScanOf) -> PlanError {
        match error {
            ScanOf::Node(error) => PlanError::Node(error),
            ScanOf::NoMemory => PlanError::NoMemory,
        }
    }
}
