//! A store is made on a disk.
ghost use Rattle.std.specs.Prelude.{◌≡◌, ◌≢◌, ◌≤◌, IfOk, IfErr};
ghost use Rattle.block_disk.specs.View.{Now, Honest, Only};
ghost use Rattle.gate_pages.specs.GatePages.{IsBrokenNow, IsClosed};
ghost use Rattle.gate_pages.specs.Journal.{page_count};
ghost use Rattle.gate_pages.specs.Shown.{AreSound};
ghost use Rattle.empty_store.specs.Causes.{Prevents, given, lowered};
ghost use Rattle.empty_store.specs.Few.{Costs};
ghost use Rattle.empty_store.specs.Kept.{LeavesOld};
ghost use Rattle.empty_store.specs.Stores.{HasStore, IsNewStore, KeepsPages, LeavesNew};

use crate::errors::InitCause;
use crate::pages::{make_pages, write_pages};
use block_disk::{Back, Disk};
use gate_pages::{GatePages, OpenCause};
use std::alloc::Global;

/// Makes the disk an empty store, and gives it back.
///
/// `TooSmall` comes exactly where the disk has fewer than 128 blocks, and `IsStore` exactly where
/// page 0 has the magic of a store, of either version, once the journal is replayed. Each yields to a fault of the disk
/// and to want of memory, which leaves the pages as they were. After `DiskFault` the disk may hold the
/// pages from before or an empty store.
pub fn make_store<D: Disk>(alloc: Global, disk: D) -> Result<D, Back<D, InitCause>>
    ensures cause { IfErr result (λ back. Prevents back.cause (D.view disk) (D.view back.value)) }
    ensures quiet { IfOk result (λ made. (D.view made).faults ≡ (D.view disk).faults) }
    ensures quiet_err { IfErr result (λ back. back.cause ≢ InitCause.DiskFault → (D.view back.value).faults ≡ (D.view disk).faults) }
    ensures no_memory { IfErr result (λ back. back.cause ≡ InitCause.NoMemory → KeepsPages (D.view disk) (D.view back.value)) }
    ensures large { IfOk result (λ made. 128 ≤ (D.view disk).size) }
    ensures fresh { IfOk result (λ made. Honest (D.view disk) → HasStore (page_count (D.view disk).size) (D.view disk).image → ⊥) }
    // the store is there, and nothing is pending
    ensures store { IfOk result (λ made. Honest (D.view disk) → IsNewStore (page_count (D.view disk).size) (D.view made).image) }
    ensures rests { IfOk result (λ made. Only (D.view made).image (Now (D.view made))) }
    // a crash at any moment leaves the pages from before, or the store
    ensures moments { Honest (D.view disk) → LeavesNew (page_count (D.view disk).size) (D.view disk) (D.view (given result)) }
    // a store that is there stays at each moment
    ensures kept { Honest (D.view disk) → HasStore (page_count (D.view disk).size) (D.view disk).image
        → LeavesOld (page_count (D.view disk).size) (D.view disk) (D.view (given result)) }
    ensures honest { Honest (D.view disk) → Honest (D.view (given result)) }
    ensures beside { (D.view (given result)).beside ≡ (D.view disk).beside }
    ensures few { Costs 68 7 102 (D.view disk) (D.view (given result)) }
{
    match GatePages::open(alloc, disk) {
        Ok(pages) => on_disk(make_pages(alloc, pages)),
        Err(Back { value, cause }) => match cause {
            OpenCause::BadDirectory => make_anew(alloc, value),
            OpenCause::TooSmall(blocks) => Err(Back {
                value,
                cause: InitCause::TooSmall(blocks),
            }),
            OpenCause::DiskFault => Err(Back {
                value,
                cause: InitCause::DiskFault,
            }),
            OpenCause::NoMemory => Err(Back {
                value,
                cause: InitCause::NoMemory,
            }),
        },
    }
}

/// The same where the journal can't be read: the pages are taken as they lie.
fn make_anew<D: Disk>(alloc: Global, disk: D) -> Result<D, Back<D, InitCause>>
    requires broken { IsBrokenNow (D.view disk) }
    ensures cause { IfErr result (λ back. Prevents back.cause (D.view disk) (D.view back.value)) }
    ensures quiet { IfOk result (λ made. (D.view made).faults ≡ (D.view disk).faults) }
    ensures quiet_err { IfErr result (λ back. back.cause ≢ InitCause.DiskFault → (D.view back.value).faults ≡ (D.view disk).faults) }
    ensures no_memory { IfErr result (λ back. back.cause ≡ InitCause.NoMemory → KeepsPages (D.view disk) (D.view back.value)) }
    ensures never_there { IfErr result (λ back. back.cause ≢ InitCause.IsStore) }
    ensures large { IfOk result (λ made. 128 ≤ (D.view disk).size) }
    ensures store { IfOk result (λ made. Honest (D.view disk) → IsNewStore (page_count (D.view disk).size) (D.view made).image) }
    ensures rests { IfOk result (λ made. Only (D.view made).image (Now (D.view made))) }
    ensures moments { Honest (D.view disk) → LeavesNew (page_count (D.view disk).size) (D.view disk) (D.view (given result)) }
    ensures honest { Honest (D.view disk) → Honest (D.view (given result)) }
    ensures beside { (D.view (given result)).beside ≡ (D.view disk).beside }
    ensures few { Costs 0 5 38 (D.view disk) (D.view (given result)) }
{
    match GatePages::format(alloc, disk) {
        Ok(pages) => on_disk(write_pages(alloc, pages)),
        Err(Back { value, cause }) => Err(Back {
            value,
            cause: match cause {
                OpenCause::TooSmall(blocks) => InitCause::TooSmall(blocks),
                OpenCause::DiskFault => InitCause::DiskFault,
                _ => InitCause::NoMemory,
            },
        }),
    }
}

/// The disk of pages that were made or handed back.
fn on_disk<D: Disk>(
    made: Result<GatePages<D>, Back<GatePages<D>, InitCause>>,
) -> Result<D, Back<D, InitCause>>
    ensures disk { result ≡ lowered made }
    ensures rests { IfOk result (λ disk. AreSound (given made) → IsClosed (D.view disk)) }
{
    match made {
        Ok(pages) => Ok(pages.into_disk()),
        Err(Back { value, cause }) => Err(Back {
            value: value.into_disk(),
            cause,
        }),
    }
}
