//! A store on a disk is opened.
ghost use Rattle.std.specs.Prelude.{◌≡◌, ◌≤◌, ◌<◌, ◌+◌, IfOk, IfErr, ◌≢◌};
ghost use Rattle.block_disk.specs.View.{Honest};
ghost use Rattle.gate_pages.specs.Journal.{page_count};
ghost use Rattle.stored_book.specs.Standing.{StandsForBook, book_pages};
ghost use Rattle.disk_store.specs.Held.{HoldsBook};
ghost use Rattle.disk_store.specs.Shown.{ForRecovered, ForHeld, RecoversOn};
ghost use Rattle.series_store.specs.Shown as shown;
ghost use Rattle.disk_store.specs.Openings.{disk_in, Opens, Prevents, IsOpeningPlace, IsOutside, cause_of, upgrade_cause_of};
ghost use Rattle.disk_store.specs.Openings.{store_cause_of};

use crate::causes::OpeningCause;
use block_disk::{Back, Disk};
use gate_pages::{GatePages, OpenCause};
use series_store::{Store, StoreError};
use std::alloc::Global;
use store_upgrade::{UpgradeError, upgrade};

/// The first block of the pages.
const HOME: u64 = 66;

/// The block of the journal's directory.
const DIRECTORY: u64 = 1;

/// Opens the store of a disk. Its journal is replayed, a store of version 1 is brought to version 2, and page 0
/// and the catalog are read.
///
/// `TooSmall` comes exactly where the disk has fewer than 128 blocks, `Damaged` only where that block breaks
/// its layout or page 0 lacks both magics, and never where the disk stands for a book. Each yields to a fault
/// of the disk and to want of memory.
pub fn open_store<D: Disk>(
    alloc: Global,
    disk: D,
) -> Result<Store<GatePages<D>>, Back<D, OpeningCause>>
    ensures cause { IfErr result (λ back. Prevents back.cause (D.view disk) (D.view back.value)) }
    // a fault is counted exactly where it is the cause
    ensures quiet { IfOk result (λ store. (shown.view store).faults ≡ (D.view disk).faults) }
    ensures quiet_err { IfErr result (λ back. back.cause ≢ OpeningCause.DiskFault → (D.view back.value).faults ≡ (D.view disk).faults) }
    ensures place { IfErr result (λ back. IsOpeningPlace back.cause) }
    ensures a_store { ForRecovered (D.view disk) (λ total book. IfErr result (λ back. IsOutside back.cause)) }
    ensures large { IfOk result (λ store. 128 ≤ (D.view disk).size) }
    // a crash at any moment leaves pages for which the disk stood, or these in version 2, and few blocks are read
    ensures opens { Opens (page_count (D.view disk).size) (D.view disk) (D.view (disk_in result)) }
    // what the disk holds it holds on
    ensures holds { ForHeld (D.view disk) (λ total book. HoldsBook (page_count (D.view disk).size) total book (D.view (disk_in result))) }
    ensures moments { ForHeld (D.view disk) (λ total book. RecoversOn total book (D.view disk) (D.view (disk_in result))) }
    // the store is sound, no series is selected, and its pages are those that the disk stood for, in version 2
    ensures sound { IfOk result (λ store. shown.IsSound store) }
    ensures none { IfOk result (λ store. shown.SelectsNone store) }
    ensures count { IfOk result (λ store. (shown.view store).size ≡ page_count (D.view disk).size) }
    ensures pages { IfOk result (λ store. Honest (D.view disk)
        → shown.image store ≡ book_pages (shown.view store).size (D.view disk).image) }
    ensures stands { ForHeld (D.view disk) (λ total book. IfOk result (λ store. StandsForBook (shown.image store) total book)) }
{
    match GatePages::open(alloc, disk) {
        Ok(mut pages) => match upgrade(alloc, &mut pages) {
            Ok(()) => match Store::open(alloc, pages) {
                Ok(store) => Ok(store),
                Err(Back { value, cause }) => Err(Back {
                    value: value.into_disk(),
                    cause: store_cause(cause),
                }),
            },
            Err(cause) => Err(Back {
                value: pages.into_disk(),
                cause: upgrade_cause(cause),
            }),
        },
        Err(Back { value, cause }) => Err(Back {
            value,
            cause: pages_cause(cause),
        }),
    }
}

/// The block of a page.
fn block_of(page: u32) -> u64
    ensures { result ≡ 66 + page }
{
    HOME + u64::from(page)
}

/// Why no store was opened, where its pages weren't.
fn pages_cause(cause: OpenCause) -> OpeningCause
    ensures { result ≡ cause_of cause }
{
    match cause {
        OpenCause::DiskFault => OpeningCause::DiskFault,
        OpenCause::TooSmall(blocks) => OpeningCause::TooSmall(blocks),
        OpenCause::BadDirectory => OpeningCause::Damaged { block: DIRECTORY },
        OpenCause::NoMemory => OpeningCause::NoMemory,
    }
}

/// Why no store was opened, where its pages weren't brought to version 2.
fn upgrade_cause(cause: UpgradeError) -> OpeningCause
    ensures { result ≡ upgrade_cause_of cause }
{
    match cause {
        UpgradeError::Damaged { page } => OpeningCause::Damaged {
            block: block_of(page),
        },
        UpgradeError::DiskFault => OpeningCause::DiskFault,
        UpgradeError::NoMemory => OpeningCause::NoMemory,
    }
}

/// Why no store was opened on these pages. `Refused` comes from no opening.
fn store_cause(cause: StoreError) -> OpeningCause
    ensures { result ≡ store_cause_of cause }
{
    match cause {
        StoreError::NotAStore => OpeningCause::Damaged { block: HOME },
        StoreError::Damaged { page } => OpeningCause::Damaged {
            block: block_of(page),
        },
        StoreError::DiskFault => OpeningCause::DiskFault,
        StoreError::Refused(_) | StoreError::NoMemory => OpeningCause::NoMemory,
    }
}
