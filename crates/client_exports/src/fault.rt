use chart_client::ClientError;
use std::alloc::AllocError;

/// Why nothing was drawn.
#[derive(Clone, Copy, Debug)]
pub enum Fault {
    /// The client doesn't accept the frame, or there was no memory for it.
    Client(ClientError),
    /// There was no memory for the picture's bytes.
    NoMemory,
}

impl From<ClientError> for Fault {
    ghost use Rattle.std.specs.Prelude.{◌≡◌};
    ghost use Rattle.client_exports.specs.declared.fault.Fault.TheVariants.{Client};

    ghost from_gives = { λ e fault. fault ≡ Client e };

    fn from(error: ClientError) -> Fault {
        Fault::Client(error)
    }
}

impl From<AllocError> for Fault {
    ghost use Rattle.std.specs.Prelude.{◌≡◌};
    ghost use Rattle.client_exports.specs.declared.fault.Fault.TheVariants.{NoMemory};

    ghost from_gives = { λ _ fault. fault ≡ NoMemory };

    fn from(_error: AllocError) -> Fault {
        Fault::NoMemory
    }
}
