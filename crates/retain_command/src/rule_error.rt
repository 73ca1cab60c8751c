//! Why a line gives no rule.
use thiserror::Error;

/// Why a line gives no rule.
#[derive(Clone, Copy, Debug, Error)]
pub enum RuleError {
    /// The line spells none.
    #[error("the line is no rule")]
    NoRule,
    /// There was no memory.
    #[error("out of memory")]
    NoMemory,
}
