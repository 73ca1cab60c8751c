//! Why pages weren't brought to version 2.
ghost use Rattle.std.specs.Prelude.{◌≡◌};
ghost use Rattle.store_upgrade.specs.declared.errors.UpgradeError.TheVariants.{DiskFault as AtDisk, NoMemory as AtMemory};

use gate_pages::DiskFault;
use std::alloc::AllocError;
use thiserror::Error;

/// Why pages weren't brought to version 2.
#[derive(Clone, Copy, Debug, Error)]
pub enum UpgradeError {
    /// This page of the catalog breaks a rule of version 1.
    #[error("page {page} is damaged")]
    Damaged { page: u32 },
    /// A call of the disk failed: its count of faults has risen.
    #[error("a call of the disk failed")]
    DiskFault,
    /// There was no memory.
    #[error("out of memory")]
    NoMemory,
}

impl From<DiskFault> for UpgradeError {
    ghost from_gives = { λ _ e. e ≡ AtDisk };

    fn from(_: DiskFault) -> UpgradeError {
        UpgradeError::DiskFault
    }
}

impl From<AllocError> for UpgradeError {
    ghost from_gives = { λ _ e. e ≡ AtMemory };

    fn from(_: AllocError) -> UpgradeError {
        UpgradeError::NoMemory
    }
}
