use crate::run_end::RunEnd;
use disk_store::OpeningCause;
use thiserror::Error;

/// Why a serving command didn't answer all lines of its input.
#[derive(Clone, Copy, Debug, Error)]
pub enum LinesEnd {
    /// The store of its disk wasn't opened, for this cause.
    #[error("{0}")]
    Opening(OpeningCause),
    /// The answering of lines ended so.
    #[error("{0}")]
    Answering(RunEnd),
}
