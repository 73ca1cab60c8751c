ghost use Rattle.std.specs.Prelude.{◌≡◌};
ghost use Rattle.store_commands.specs.Status.{opening_end, opening_status};

use disk_store::OpeningCause;
use run_ends::{End, Status, status_of};

/// The end of a run where the store of a disk wasn't opened.
pub fn opening_end(cause: OpeningCause) -> End
    ensures { result ≡ opening_end cause }
{
    match cause {
        OpeningCause::TooSmall(blocks) => End::TooSmall { blocks },
        OpeningCause::Damaged { block } => End::DamagedBlock { block },
        OpeningCause::DiskFault => End::DiskFault,
        OpeningCause::NoMemory => End::NoMemory,
    }
}

/// The status of why the store of a disk wasn't opened.
pub fn opening_status(cause: OpeningCause) -> Status
    ensures { result ≡ opening_status cause }
{
    status_of(opening_end(cause))
}
