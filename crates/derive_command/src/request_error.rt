//! Why a line gives no request.
use thiserror::Error;

/// Why a line gives no request.
#[derive(Clone, Copy, Debug, Error)]
pub enum RequestError {
    /// The line spells none.
    #[error("the line is no request")]
    NoRequest,
    /// There was no memory.
    #[error("out of memory")]
    NoMemory,
}
