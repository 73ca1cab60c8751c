//! The one fault of the outside.

use thiserror::Error;

/// A call of the outside failed. It comes only where the count of faults of that call has risen.
#[derive(Clone, Copy, Debug, Error)]
#[error("a call of the outside failed")]
pub struct Failed;
