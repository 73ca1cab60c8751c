//! The steps of an opening.
ghost use Rattle.std.specs.Prelude.{◌≡◌, ◌≢◌, ◌≤◌, ◌+◌, ℕ, true, length, OnOk, OnErr, IfErr, IfOk, IsTrue};
ghost use Rattle.block_disk.specs.Blocks.{IsBlock};
ghost use Rattle.block_disk.specs.Counts.{HasRisen};
ghost use Rattle.block_disk.specs.View.{Now, Honest, Only, Moves, Nowhere, At};
ghost use Rattle.gate_pages.specs.Batch.{put_all, is_distinct};
ghost use Rattle.gate_pages.specs.GatePages.{HasClosedGate, IsClosed, IsBroken, Lists, IsReplayed, PassesStanding};
ghost use Rattle.gate_pages.specs.Journal.{home, is_open, images, page_count};
ghost use Rattle.gate_pages.specs.Openings.{Explains, Leaves};
ghost use Rattle.gate_pages.specs.Steps.{Anywhere, IsHome, LiesWithin};

use crate::directory::directory;
use crate::errors::OpenCause;
use crate::journal::set_gate;
use crate::layout::{CLOSED, DIRECTORY, FEWEST_BLOCKS, GATE, HOME, IMAGES, MOST_BLOCKS, OPEN};
use block_disk::{Disk, Failed};

/// The number of pages on a disk.
pub(crate) fn pages_on<D: Disk>(disk: &mut D) -> Result<u32, OpenCause>
    ensures moves { Moves Nowhere 0 0 0 (D.view disk.old) (D.view disk.new) }
    ensures count { IfOk result (λ count. count ≡ page_count (D.view disk.old).size) }
    ensures large { OnOk result (128 ≤ (D.view disk.old).size) }
    ensures cause { IfErr result (λ cause. Explains cause (D.view disk.old) (D.view disk.new)) }
    ensures left { IfErr result (λ cause. Leaves cause (D.view disk.old) (D.view disk.new)) }
    ensures quiet { OnOk result ((D.view disk.new).faults ≡ (D.view disk.old).faults) }
    ensures quiet_err { IfErr result (λ cause. cause ≢ OpenCause.DiskFault → (D.view disk.new).faults ≡ (D.view disk.old).faults) }
    ensures whole { IfErr result (λ cause. cause ≢ OpenCause.BadDirectory) }
    ensures no_memory { IfErr result (λ cause. cause ≡ OpenCause.NoMemory → disk.new ≡ disk.old) }
{
    let blocks = disk.blocks()?;
    if blocks < FEWEST_BLOCKS {
        return Err(OpenCause::TooSmall(blocks));
    }
    Ok(blocks.min(MOST_BLOCKS) - HOME)
}

/// Copies the images of the journal home.
fn copy_images<D: Disk>(disk: &mut D, buffer: &mut [u8], numbers: &[u32]) -> Result<(), Failed>
    requires room { 66 ≤ (D.view disk.old).size }
    requires whole { IsBlock buffer.old }
    requires few { length numbers.now ≤ 64 }
    requires distinct { IsTrue (is_distinct numbers.now) }
    requires within { LiesWithin (D.view disk.old).size numbers.now }
    ensures moves { Moves (IsHome numbers.now) (length numbers.now) 0 (length numbers.now) (D.view disk.old) (D.view disk.new) }
    ensures home { Honest (D.view disk.old) → OnOk result
        (home (D.view disk.new).image ≡ put_all (images numbers.now 2 (D.view disk.old).image) (home (D.view disk.old).image)) }
    ensures cause { OnErr result (HasRisen (D.view disk.old).faults (D.view disk.new).faults) }
    ensures quiet { OnOk result ((D.view disk.new).faults ≡ (D.view disk.old).faults) }
{
    for i in 0..numbers.len() {
        let number = numbers[i];
        disk.read_block(IMAGES + i as u32, buffer)?;
        disk.write_block(HOME + number, buffer)?;
    }
    Ok(())
}

/// Brings the images of the journal home, and on the disk.
fn copy_home<D: Disk>(disk: &mut D, buffer: &mut [u8], numbers: &[u32]) -> Result<(), Failed>
    requires room { 66 ≤ (D.view disk.old).size }
    requires whole { IsBlock buffer.old }
    requires few { length numbers.now ≤ 64 }
    requires distinct { IsTrue (is_distinct numbers.now) }
    requires within { LiesWithin (D.view disk.old).size numbers.now }
    ensures moves { Moves (IsHome numbers.now) (length numbers.now) 1 (length numbers.now) (D.view disk.old) (D.view disk.new) }
    ensures durable { OnOk result (Only (D.view disk.new).image (Now (D.view disk.new))) }
    ensures home { Honest (D.view disk.old) → OnOk result
        (home (D.view disk.new).image ≡ put_all (images numbers.now 2 (D.view disk.old).image) (home (D.view disk.old).image)) }
    ensures cause { OnErr result (HasRisen (D.view disk.old).faults (D.view disk.new).faults) }
    ensures quiet { OnOk result ((D.view disk.new).faults ≡ (D.view disk.old).faults) }
{
    copy_images(disk, buffer, numbers)?;
    disk.sync()?; // all pages, before the gate closes
    Ok(())
}

/// Finishes the commit that the journal tells of.
fn replay<D: Disk>(disk: &mut D, buffer: &mut [u8], numbers: &[u32]) -> Result<(), Failed>
    requires room { 66 ≤ (D.view disk.old).size }
    requires whole { IsBlock buffer.old }
    requires few { length numbers.now ≤ 64 }
    requires distinct { IsTrue (is_distinct numbers.now) }
    requires within { LiesWithin (D.view disk.old).size numbers.now }
    requires only { Only (D.view disk.old).image (Now (D.view disk.old)) }
    requires opened { Honest (D.view disk.old) → is_open ((D.view disk.old).image 0) ≡ true }
    ensures moves { Moves Anywhere (length numbers.now) 2 (length numbers.now + 1) (D.view disk.old) (D.view disk.new) }
    ensures moments { (count : ℕ) → (Honest (D.view disk.old) → Lists count numbers.now (D.view disk.old))
        → PassesStanding count (D.view disk.old) (D.view disk.new) }
    ensures closed { OnOk result (IsClosed (D.view disk.new)) }
    ensures done { (count : ℕ) → Honest (D.view disk.old) → Lists count numbers.now (D.view disk.old)
        → OnOk result (IsReplayed count (D.view disk.old) (D.view disk.new)) }
    ensures cause { OnErr result (HasRisen (D.view disk.old).faults (D.view disk.new).faults) }
    ensures quiet { OnOk result ((D.view disk.new).faults ≡ (D.view disk.old).faults) }
{
    copy_home(disk, buffer, numbers)?;
    set_gate(disk, buffer, CLOSED)?;
    Ok(())
}

/// Brings a disk to rest with a closed gate. The pages that it stands for stay.
pub(crate) fn recover<D: Disk>(disk: &mut D, buffer: &mut [u8], count: u32) -> Result<(), OpenCause>
    requires large { 128 ≤ (D.view disk.old).size }
    requires whole { IsBlock buffer.old }
    requires count { count ≡ page_count (D.view disk.old).size }
    ensures moves { Moves Anywhere 66 3 65 (D.view disk.old) (D.view disk.new) }
    ensures moments { PassesStanding count (D.view disk.old) (D.view disk.new) }
    ensures closed { OnOk result (IsClosed (D.view disk.new)) }
    ensures pages { Honest (D.view disk.old) → OnOk result (IsReplayed count (D.view disk.old) (D.view disk.new)) }
    ensures journal { Honest (D.view disk.old) → OnOk result (IsBroken count (D.view disk.old).image → ⊥) }
    // where the gate is closed, nothing is written
    ensures unwritten { HasClosedGate (D.view disk.old) → Moves Nowhere 1 1 0 (D.view disk.old) (D.view disk.new) }
    ensures no_memory { IfErr result (λ cause. cause ≢ OpenCause.NoMemory) }
    ensures cause { IfErr result (λ cause. Explains cause (D.view disk.old) (D.view disk.new)) }
    ensures left { IfErr result (λ cause. Leaves cause (D.view disk.old) (D.view disk.new)) }
    ensures quiet { OnOk result ((D.view disk.new).faults ≡ (D.view disk.old).faults) }
    ensures quiet_err { IfErr result (λ cause. cause ≢ OpenCause.DiskFault → (D.view disk.new).faults ≡ (D.view disk.old).faults) }
{
    disk.sync()?; // what an earlier run left pending
    disk.read_block(GATE, buffer)?;
    if buffer[0] != OPEN {
        return Ok(());
    }
    disk.read_block(DIRECTORY, buffer)?;
    let Some(numbers) = directory(buffer, count) else {
        return Err(OpenCause::BadDirectory);
    };
    replay(disk, buffer, numbers.as_slice())?;
    Ok(())
}

/// Closes the gate of a disk, whatever it was.
pub(crate) fn shut<D: Disk>(disk: &mut D, buffer: &mut [u8]) -> Result<(), Failed>
    requires room { 66 ≤ (D.view disk.old).size }
    requires whole { IsBlock buffer.old }
    ensures moves { Moves (At 0) 0 1 1 (D.view disk.old) (D.view disk.new) }
    ensures closed { OnOk result (IsClosed (D.view disk.new)) }
    ensures cause { OnErr result (HasRisen (D.view disk.old).faults (D.view disk.new).faults) }
    ensures quiet { OnOk result ((D.view disk.new).faults ≡ (D.view disk.old).faults) }
{
    set_gate(disk, buffer, CLOSED)?;
    Ok(())
}
