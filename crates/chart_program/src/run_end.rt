ghost use Rattle.std.specs.Prelude.{◌≡◌};
ghost use Rattle.chart_service.specs.declared.failure.ServeEnd.TheVariants.{NoMemory};
ghost use Rattle.chart_service.specs.Serving.{end_of_step};
ghost use Rattle.chart_program.specs.declared.run_end.RunEnd.TheVariants.{Serve, Show};

use chart_client::ClientError;
use chart_service::{ServeEnd, ServiceError};
use std::alloc::AllocError;
use thiserror::Error;

/// Why `run_on` didn't answer all lines of its input. What the lines before did stays, and what they
/// were answered was sent.
#[derive(Clone, Copy, Debug, Error)]
pub enum RunEnd {
    /// As the serving of lines ends.
    #[error("{0}")]
    Serve(ServeEnd),
    /// The bytes of a reply's frame weren't shown, for this cause.
    #[error("{0}")]
    Show(ClientError),
}

impl From<ClientError> for RunEnd {
    ghost from_gives = { λ e end. end ≡ Show e };

    fn from(error: ClientError) -> RunEnd {
        RunEnd::Show(error)
    }
}

impl From<ServiceError> for RunEnd {
    ghost from_gives = { λ error end. end ≡ Serve (end_of_step error) };

    fn from(error: ServiceError) -> RunEnd {
        RunEnd::Serve(ServeEnd::from(error))
    }
}

impl From<AllocError> for RunEnd {
    ghost from_gives = { λ _ end. end ≡ Serve NoMemory };

    fn from(_error: AllocError) -> RunEnd {
        RunEnd::Serve(ServeEnd::NoMemory)
    }
}
