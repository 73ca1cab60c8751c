//! Why a call failed.
ghost use Rattle.std.specs.Prelude.{◌≡◌};
ghost use Rattle.gate_pages.specs.declared.errors.OpenCause.TheVariants.{DiskFault as AtDisk, NoMemory as AtMemory};

use block_disk::{Back, Failed};
use std::alloc::AllocError;
use thiserror::Error;

/// A call of the disk failed. It comes only where the disk's count of faults has risen.
#[derive(Clone, Copy, Debug, Error)]
#[error("a call of the disk failed")]
pub struct DiskFault;

impl From<Failed> for DiskFault {
    fn from(_: Failed) -> DiskFault {
        DiskFault
    }
}

/// Why pages weren't opened or formatted.
#[derive(Clone, Copy, Debug, Error)]
pub enum OpenCause {
    /// A call of the disk failed: its count of faults has risen.
    #[error("a call of the disk failed")]
    DiskFault,
    /// The disk has fewer than 128 blocks: so many.
    #[error("a disk of {0} blocks is too small")]
    TooSmall(u32),
    /// The gate is open and the directory breaks its layout. It comes from `open` alone.
    #[error("the directory of the journal breaks its layout")]
    BadDirectory,
    /// There was no memory for a block or for the directory.
    #[error("out of memory")]
    NoMemory,
}

impl From<Failed> for OpenCause {
    ghost from_gives = { λ _ e. e ≡ AtDisk };

    fn from(_: Failed) -> OpenCause {
        OpenCause::DiskFault
    }
}

impl From<AllocError> for OpenCause {
    ghost from_gives = { λ _ e. e ≡ AtMemory };

    fn from(_: AllocError) -> OpenCause {
        OpenCause::NoMemory
    }
}

/// The disk, handed back with the cause.
pub type OpenError<D> = Back<D, OpenCause>;
