//! Pages on a disk are opened, and formatted.
ghost use Rattle.std.specs.Prelude.{◌≡◌, ◌≢◌, ◌≤◌, IfOk, IfErr, IsTrue};
ghost use Rattle.block_disk.specs.Blocks.{IsBlock};
ghost use Rattle.block_disk.specs.View.{Honest, Moves, Nowhere, At};
ghost use Rattle.gate_pages.specs.GatePages.{HasClosedGate, IsClosed, IsBroken, IsBrokenNow, PassesAsBefore};
ghost use Rattle.gate_pages.specs.Journal.{home, pages_of, page_count};
ghost use Rattle.gate_pages.specs.Openings.{Explains, Leaves, disk_in};
ghost use Rattle.gate_pages.specs.Steps.{Anywhere};

use crate::errors::{OpenCause, OpenError};
use crate::gate_pages::GatePages;
use crate::recovery::{pages_on, recover, shut};
use block_disk::{BLOCK, Back, Disk};
use std::alloc::Global;

impl<D: Disk> GatePages<D> {
    /// The pages of a disk. It asks for the size first, syncs, and finishes a commit that an open
    /// gate tells of. Where there is no memory, no call of the disk is made.
    pub fn open(alloc: Global, mut disk: D) -> Result<GatePages<D>, OpenError<D>>
        // each cause, and what it leaves
        ensures cause { IfErr result (λ back. Explains back.cause (D.view disk) (D.view back.value)) }
        ensures left { IfErr result (λ back. Leaves back.cause (D.view disk) (D.view back.value)) }
        ensures quiet { IfOk result (λ pages. (D.view pages.disk).faults ≡ (D.view disk).faults) }
        ensures quiet_err { IfErr result (λ back. back.cause ≢ OpenCause.DiskFault → (D.view back.value).faults ≡ (D.view disk).faults) }
        ensures no_memory { IfErr result (λ back. back.cause ≡ OpenCause.NoMemory → back.value ≡ disk) }
        ensures large { IfOk result (λ pages. 128 ≤ (D.view disk).size) }
        ensures journal { IfOk result (λ pages. Honest (D.view disk) → IsBroken (page_count (D.view disk).size) (D.view disk).image → ⊥) }
        // a crash at any moment leaves the pages that the disk stood for, and a journal that can be read where it could
        ensures moments { PassesAsBefore (D.view disk) (D.view (disk_in result)) }
        ensures moves { Moves Anywhere 66 3 65 (D.view disk) (D.view (disk_in result)) }
        // where the gate is closed, nothing is written
        ensures unwritten { HasClosedGate (D.view disk) → Moves Nowhere 1 1 0 (D.view disk) (D.view (disk_in result)) }
        // the pages are sound, and those that the disk stood for
        ensures sound { IfOk result (λ pages. IsTrue pages.sound) }
        ensures count { IfOk result (λ pages. pages.count ≡ page_count (D.view disk).size) }
        ensures pages { IfOk result (λ pages. Honest (D.view disk)
            → pages_of pages.count (D.view pages.disk).image ≡ pages_of pages.count (D.view disk).image) }
    {
        match opened(alloc, &mut disk) {
            Ok((buffer, count)) => Ok(GatePages {
                disk,
                buffer,
                count,
                sound: true,
            }),
            Err(cause) => Err(Back { value: disk, cause }),
        }
    }

    /// The pages of a disk as they lie, whatever its journal tells of: the gate is closed. Where there
    /// is no memory, no call of the disk is made.
    pub fn format(alloc: Global, mut disk: D) -> Result<GatePages<D>, OpenError<D>>
        ensures cause { IfErr result (λ back. Explains back.cause (D.view disk) (D.view back.value)) }
        ensures left { IfErr result (λ back. Leaves back.cause (D.view disk) (D.view back.value)) }
        ensures quiet { IfOk result (λ pages. (D.view pages.disk).faults ≡ (D.view disk).faults) }
        ensures quiet_err { IfErr result (λ back. back.cause ≢ OpenCause.DiskFault → (D.view back.value).faults ≡ (D.view disk).faults) }
        ensures no_memory { IfErr result (λ back. back.cause ≡ OpenCause.NoMemory → back.value ≡ disk) }
        ensures never_bad { IfErr result (λ back. back.cause ≢ OpenCause.BadDirectory) }
        ensures large { IfOk result (λ pages. 128 ≤ (D.view disk).size) }
        // where no journal can be read, a crash at any moment leaves the pages that the disk stood for
        ensures moments { IsBrokenNow (D.view disk) → PassesAsBefore (D.view disk) (D.view (disk_in result)) }
        ensures moves { Moves (At 0) 0 1 1 (D.view disk) (D.view (disk_in result)) }
        ensures sound { IfOk result (λ pages. IsTrue pages.sound) }
        ensures count { IfOk result (λ pages. pages.count ≡ page_count (D.view disk).size) }
        ensures pages { IfOk result (λ pages. Honest (D.view disk)
            → pages_of pages.count (D.view pages.disk).image ≡ home (D.view disk).image) }
    {
        match formatted(alloc, &mut disk) {
            Ok((buffer, count)) => Ok(GatePages {
                disk,
                buffer,
                count,
                sound: true,
            }),
            Err(cause) => Err(Back { value: disk, cause }),
        }
    }

    /// The disk. Nothing is pending on it where the pages were sound.
    pub fn into_disk(self) -> D
        ensures disk { result ≡ self.disk }
        ensures rests { IsTrue self.sound → IsClosed (D.view result) }
    {
        self.disk
    }
}

/// A buffer, and the number of pages, once the disk is at rest.
fn opened<D: Disk>(alloc: Global, disk: &mut D) -> Result<(Vec<u8>, u32), OpenCause>
    ensures cause { IfErr result (λ cause. Explains cause (D.view disk.old) (D.view disk.new)) }
    ensures left { IfErr result (λ cause. Leaves cause (D.view disk.old) (D.view disk.new)) }
    ensures quiet { IfOk result (λ found. (D.view disk.new).faults ≡ (D.view disk.old).faults) }
    ensures quiet_err { IfErr result (λ cause. cause ≢ OpenCause.DiskFault → (D.view disk.new).faults ≡ (D.view disk.old).faults) }
    ensures no_memory { IfErr result (λ cause. cause ≡ OpenCause.NoMemory → disk.new ≡ disk.old) }
    ensures large { IfOk result (λ found. 128 ≤ (D.view disk.old).size) }
    ensures journal { IfOk result (λ found. Honest (D.view disk.old) → IsBroken found.1 (D.view disk.old).image → ⊥) }
    ensures moments { PassesAsBefore (D.view disk.old) (D.view disk.new) }
    ensures moves { Moves Anywhere 66 3 65 (D.view disk.old) (D.view disk.new) }
    ensures unwritten { HasClosedGate (D.view disk.old) → Moves Nowhere 1 1 0 (D.view disk.old) (D.view disk.new) }
    ensures closed { IfOk result (λ found. IsClosed (D.view disk.new)) }
    ensures count { IfOk result (λ found. found.1 ≡ page_count (D.view disk.old).size) }
    ensures buffer { IfOk result (λ found. IsBlock found.0.items) }
    ensures pages { IfOk result (λ found. Honest (D.view disk.old)
        → home (D.view disk.new).image ≡ pages_of found.1 (D.view disk.old).image) }
{
    let mut buffer = vec![in alloc; 0; BLOCK]?;
    let count = pages_on(disk)?;
    match recover(disk, buffer.as_mut_slice(), count) {
        Ok(()) => Ok((buffer, count)),
        Err(cause) => Err(cause),
    }
}

/// The same, once its gate is closed.
fn formatted<D: Disk>(alloc: Global, disk: &mut D) -> Result<(Vec<u8>, u32), OpenCause>
    ensures cause { IfErr result (λ cause. Explains cause (D.view disk.old) (D.view disk.new)) }
    ensures left { IfErr result (λ cause. Leaves cause (D.view disk.old) (D.view disk.new)) }
    ensures quiet { IfOk result (λ found. (D.view disk.new).faults ≡ (D.view disk.old).faults) }
    ensures quiet_err { IfErr result (λ cause. cause ≢ OpenCause.DiskFault → (D.view disk.new).faults ≡ (D.view disk.old).faults) }
    ensures no_memory { IfErr result (λ cause. cause ≡ OpenCause.NoMemory → disk.new ≡ disk.old) }
    ensures never_bad { IfErr result (λ cause. cause ≢ OpenCause.BadDirectory) }
    ensures large { IfOk result (λ found. 128 ≤ (D.view disk.old).size) }
    ensures moves { Moves (At 0) 0 1 1 (D.view disk.old) (D.view disk.new) }
    ensures closed { IfOk result (λ found. IsClosed (D.view disk.new)) }
    ensures count { IfOk result (λ found. found.1 ≡ page_count (D.view disk.old).size) }
    ensures buffer { IfOk result (λ found. IsBlock found.0.items) }
{
    let mut buffer = vec![in alloc; 0; BLOCK]?;
    let count = pages_on(disk)?;
    match shut(disk, buffer.as_mut_slice()) {
        Ok(()) => Ok((buffer, count)),
        Err(_) => Err(OpenCause::DiskFault),
    }
}
