use std::alloc::{AllocError, AllocFailed};
use thiserror::Error;

/// Why a request wasn't answered.
#[derive(Clone, Copy, Debug, Error)]
pub enum ServiceError {
    /// A call of the disk failed: its count of faults has risen.
    #[error("a call of the disk failed")]
    DiskFault,
    /// This page is damaged.
    #[error("page {page} is damaged")]
    Damaged { page: u32 },
    /// There was no memory. The book is as it was, or as some first edits left it that were to be done together.
    #[error("out of memory")]
    NoMemory,
}

/// Why serving didn't answer all lines of its input. What the lines before did stays.
#[derive(Clone, Copy, Debug, Error)]
pub enum ServeEnd {
    /// A take failed. Each line that ended before was answered.
    #[error("the input could not be read")]
    ReadFault,
    /// A send failed. The first bytes of the frames were sent, and edits behind them may have been done.
    #[error("the frame could not be sent")]
    SendFault,
    /// A call of the disk failed. The lines before were answered, and the store has to be opened again.
    #[error("a call of the disk failed")]
    DiskFault,
    /// This page is damaged. The lines before were answered.
    #[error("page {page} is damaged")]
    Damaged { page: u32 },
    /// A byte past 2^32 was taken. Each line that ended before it was answered.
    #[error("the input has more than 2^32 bytes")]
    InputTooLong,
    /// There was no memory. The lines before were answered, and edits behind them may have been done.
    #[error("out of memory")]
    NoMemory,
}

/// Why not all lines of an input were answered. What the lines before did stays.
#[derive(Drop)]
pub enum AnswerEnd<F> {
    /// As a serving ends.
    Serve(ServeEnd),
    /// The bytes of a reply weren't made, for this cause.
    Reply(F),
}

impl<T: Drop> From<AllocFailed<T>> for ServiceError {
    ghost use Rattle.std.specs.Prelude.{◌≡◌};
    ghost use Rattle.chart_service.specs.declared.failure.ServiceError.TheVariants.{NoMemory};

    ghost from_gives = { λ _ error. error ≡ NoMemory };

    fn from(_error: AllocFailed<T>) -> ServiceError {
        ServiceError::NoMemory
    }
}

impl From<AllocError> for ServiceError {
    ghost use Rattle.std.specs.Prelude.{◌≡◌};
    ghost use Rattle.chart_service.specs.declared.failure.ServiceError.TheVariants.{NoMemory};

    ghost from_gives = { λ _ error. error ≡ NoMemory };

    fn from(_error: AllocError) -> ServiceError {
        ServiceError::NoMemory
    }
}

impl From<AllocError> for ServeEnd {
    ghost use Rattle.std.specs.Prelude.{◌≡◌};
    ghost use Rattle.chart_service.specs.declared.failure.ServeEnd.TheVariants.{NoMemory};

    ghost from_gives = { λ _ end. end ≡ NoMemory };

    fn from(_error: AllocError) -> ServeEnd {
        ServeEnd::NoMemory
    }
}

impl From<ServiceError> for ServeEnd {
    ghost use Rattle.std.specs.Prelude.{◌≡◌};
    ghost use Rattle.chart_service.specs.Serving.{end_of_step};

    ghost from_gives = { λ error end. end ≡ end_of_step error };

    fn from(error: ServiceError) -> ServeEnd {
        match error {
            ServiceError::DiskFault => ServeEnd::DiskFault,
            ServiceError::Damaged { page } => ServeEnd::Damaged { page },
            ServiceError::NoMemory => ServeEnd::NoMemory,
        }
    }
}

impl<F> From<AllocError> for AnswerEnd<F> {
    ghost use Rattle.std.specs.Prelude.{◌≡◌};
    ghost use Rattle.chart_service.specs.declared.failure.AnswerEnd.TheVariants.{Serve};
    ghost use Rattle.chart_service.specs.declared.failure.ServeEnd.TheVariants.{NoMemory};

    ghost from_gives = { λ _ end. end ≡ Serve NoMemory };

    fn from(_error: AllocError) -> AnswerEnd<F> {
        AnswerEnd::Serve(ServeEnd::NoMemory)
    }
}

impl<F> From<ServiceError> for AnswerEnd<F> {
    ghost use Rattle.std.specs.Prelude.{◌≡◌};
    ghost use Rattle.chart_service.specs.Serving.{end_of_step};
    ghost use Rattle.chart_service.specs.declared.failure.AnswerEnd.TheVariants.{Serve};

    ghost from_gives = { λ error end. end ≡ Serve (end_of_step error) };

    fn from(error: ServiceError) -> AnswerEnd<F> {
        AnswerEnd::Serve(ServeEnd::from(error))
    }
}
