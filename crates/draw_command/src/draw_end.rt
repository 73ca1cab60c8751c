ghost use Rattle.std.specs.Prelude.{◌≡◌};
ghost use Rattle.draw_command.specs.declared.draw_end.DrawEnd.TheVariants.{NoMemory};
ghost use Rattle.draw_command.specs.Draws.{client_end, frame_end};

use chart_client::ClientError;
use chart_frames::FrameFault;
use om3_coeff::Key;
use std::alloc::{AllocError, AllocFailed};
use thiserror::Error;

/// Why not all frames of the input were drawn. The pictures of the frames before were sent, and their covers where covers
/// are asked for.
#[derive(Clone, Copy, Debug, Error)]
pub enum DrawEnd {
    /// There was no memory.
    #[error("out of memory")]
    NoMemory,
    /// A take failed.
    #[error("the input could not be read")]
    ReadFault,
    /// A send failed. The first bytes of the picture or of a cover were sent.
    #[error("the picture could not be sent")]
    SendFault,
    /// A byte past 2^32 was taken, and the bytes before it end within a frame or with one.
    #[error("the input has more than 2^32 bytes")]
    InputTooLong,
    /// The field at this offset of the input breaks its rule, or the input ends here within a frame.
    #[error("the input at byte {at} is no frame")]
    BadFrame { at: u64 },
    /// The first coefficient that a view wants and can't use was neither sent nor held.
    #[error("the coefficient of {key:?} is missing")]
    Missing { key: Key },
    /// It was, and doesn't fit.
    #[error("the coefficient of {key:?} doesn't fit")]
    BadCoefficient { key: Key },
    /// A frame names a session that isn't open.
    #[error("session {session} isn't open")]
    UnknownSession { session: u32 },
}

impl From<ClientError> for DrawEnd {
    ghost from_gives = { λ e end. end ≡ client_end e };

    fn from(error: ClientError) -> DrawEnd {
        match error {
            ClientError::Missing { key } => DrawEnd::Missing { key },
            ClientError::BadCoefficient { key } => DrawEnd::BadCoefficient { key },
            ClientError::UnknownSession { session } => DrawEnd::UnknownSession { session },
            ClientError::NoMemory => DrawEnd::NoMemory,
        }
    }
}

impl From<FrameFault> for DrawEnd {
    ghost from_gives = { λ fault end. end ≡ frame_end fault };

    fn from(fault: FrameFault) -> DrawEnd {
        match fault {
            FrameFault::BadFrame { at } => DrawEnd::BadFrame { at },
            FrameFault::NoMemory => DrawEnd::NoMemory,
        }
    }
}

impl From<AllocError> for DrawEnd {
    ghost from_gives = { λ _ end. end ≡ NoMemory };

    fn from(_error: AllocError) -> DrawEnd {
        DrawEnd::NoMemory
    }
}

impl<T: Drop> From<AllocFailed<T>> for DrawEnd {
    ghost from_gives = { λ _ end. end ≡ NoMemory };

    fn from(_error: AllocFailed<T>) -> DrawEnd {
        DrawEnd::NoMemory
    }
}
