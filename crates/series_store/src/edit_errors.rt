//! What an edit makes of the errors of the layers below.
ghost use Rattle.std.specs.Prelude.{◌≡◌};
ghost use Rattle.path_repair.specs.declared.errors.RepairError.{RepairError};
ghost use Rattle.series_store.specs.Errors.{error_of};
ghost use Rattle.series_store.specs.declared.errors.StoreError.TheVariants.{DiskFault as AtDisk, NoMemory as AtMemory};

use crate::errors::StoreError;
use gate_pages::DiskFault;
use path_repair::RepairError;
use series_book::Refusal;
use std::alloc::AllocError;

impl From<DiskFault> for StoreError {
    ghost from_gives = { λ _ e. e ≡ AtDisk };

    fn from(_error: DiskFault) -> StoreError {
        StoreError::DiskFault
    }
}

impl From<AllocError> for StoreError {
    ghost from_gives = { λ _ e. e ≡ AtMemory };

    fn from(_error: AllocError) -> StoreError {
        StoreError::NoMemory
    }
}

impl From<RepairError> for StoreError {
    ghost from_gives = { λ error e. e ≡ error_of error };

    fn from(error: RepairError) -> StoreError {
        match error {
            RepairError::Full { needed, have } => StoreError::Refused(Refusal::Full {
                needed,
                have,
            }),
            RepairError::DiskFault => StoreError::DiskFault,
            RepairError::Damaged { page } => StoreError::Damaged { page },
            RepairError::NoMemory => StoreError::NoMemory,
        }
    }
}
