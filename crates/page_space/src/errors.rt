//! Why a call failed.
ghost use Rattle.std.specs.Prelude.{◌≡◌};
ghost use Rattle.page_space.specs.declared.errors.SpaceError.TheVariants.{DiskFault as AtDisk, NoMemory as AtMemory};

use gate_pages::DiskFault;
use std::alloc::AllocError;
use thiserror::Error;

/// Why a space wasn't made, or gave no page.
#[derive(Clone, Copy, Debug, Error)]
pub enum SpaceError {
    /// Page 0 lacks the magic. It comes from `open` alone.
    #[error("the pages hold no store")]
    NotAStore,
    /// No page is free: one more would need so many pages, and there are so many.
    #[error("{needed} pages are needed and there are {have}")]
    Full { needed: u64, have: u64 },
    /// A call of the disk failed: its count of faults has risen.
    #[error("a call of the disk failed")]
    DiskFault,
    /// This page breaks its layout.
    #[error("page {page} is damaged")]
    Damaged { page: u32 },
    /// There was no memory. It comes from `init` and `open` alone.
    #[error("out of memory")]
    NoMemory,
}

impl From<DiskFault> for SpaceError {
    ghost from_gives = { λ _ e. e ≡ AtDisk };

    fn from(_: DiskFault) -> SpaceError {
        SpaceError::DiskFault
    }
}

impl From<AllocError> for SpaceError {
    ghost from_gives = { λ _ e. e ≡ AtMemory };

    fn from(_: AllocError) -> SpaceError {
        SpaceError::NoMemory
    }
}
