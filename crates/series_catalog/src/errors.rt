//! Why a catalog wasn't read.
ghost use Rattle.std.specs.Prelude.{◌≡◌};
ghost use Rattle.series_catalog.specs.declared.errors.CatalogError.TheVariants.{DiskFault as AtDisk, NoMemory as AtMemory};

use gate_pages::DiskFault;
use std::alloc::AllocError;
use thiserror::Error;

/// Why a catalog wasn't read.
#[derive(Clone, Copy, Debug, Error)]
pub enum CatalogError {
    /// A call of the disk failed: its count of faults has risen.
    #[error("a call of the disk failed")]
    DiskFault,
    /// This page, 1 to 16, breaks the layout of a catalog page, or a name in it stands in the catalog
    /// before.
    #[error("page {page} of the catalog is damaged")]
    Damaged { page: u32 },
    /// There was no memory.
    #[error("out of memory")]
    NoMemory,
}

impl From<DiskFault> for CatalogError {
    ghost from_gives = { λ _ e. e ≡ AtDisk };

    fn from(_error: DiskFault) -> CatalogError {
        CatalogError::DiskFault
    }
}

impl From<AllocError> for CatalogError {
    ghost from_gives = { λ _ e. e ≡ AtMemory };

    fn from(_error: AllocError) -> CatalogError {
        CatalogError::NoMemory
    }
}
