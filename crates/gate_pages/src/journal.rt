//! The steps of a commit.
ghost use Rattle.std.specs.Prelude.{◌≡◌, ◌<◌, ◌≤◌, ◌+◌, ◌*◌, ◌==◌, ℕ, [], length, slice_index_or, OnOk, OnErr, IsTrue};
ghost use Rattle.block_disk.specs.Blocks.{IsBlock};
ghost use Rattle.block_disk.specs.Counts.{HasRisen};
ghost use Rattle.block_disk.specs.View.{Now, Honest, Only, Moves, At};
ghost use Rattle.gate_pages.specs.Batch.{put_all, numbers, all_below};
ghost use Rattle.gate_pages.specs.Entries.{entries};
ghost use Rattle.gate_pages.specs.GatePages.{IsClosed, PassesWith};
ghost use Rattle.gate_pages.specs.Journal.{home, is_open};
ghost use Rattle.gate_pages.specs.Steps.{Anywhere, IsJournal, IsHome, LiesWithin, HoldsBatch};

use crate::batch::Batch;
use crate::directory::write_directory;
use crate::layout::{CLOSED, DIRECTORY, GATE, HOME, IMAGES, OPEN};
use block_disk::{Disk, Failed};

/// Writes the images of a batch into the journal.
fn write_images<D: Disk>(disk: &mut D, batch: &Batch) -> Result<(), Failed>
    requires room { 66 ≤ (D.view disk.old).size }
    ensures moves { Moves IsJournal 0 0 (length (entries batch.now)) (D.view disk.old) (D.view disk.new) }
    ensures images { Honest (D.view disk.old) → OnOk result ((k : ℕ) → k < length (entries batch.now)
        → (D.view disk.new).image (2 + k) ≡ (slice_index_or (entries batch.now) k (0, [])).1) }
    ensures cause { OnErr result (HasRisen (D.view disk.old).faults (D.view disk.new).faults) }
    ensures quiet { OnOk result ((D.view disk.new).faults ≡ (D.view disk.old).faults) }
{
    for i in 0..batch.len() {
        let page = batch.page(i);
        disk.write_block(IMAGES + i as u32, page.bytes.as_slice())?;
    }
    Ok(())
}

/// Writes the images of a batch and their directory.
fn write_journal<D: Disk>(disk: &mut D, buffer: &mut [u8], batch: &Batch) -> Result<(), Failed>
    requires room { 66 ≤ (D.view disk.old).size }
    requires whole { IsBlock buffer.old }
    ensures moves { Moves IsJournal 0 0 (length (entries batch.now) + 1) (D.view disk.old) (D.view disk.new) }
    ensures holds { Honest (D.view disk.old) → OnOk result (HoldsBatch (entries batch.now) (D.view disk.new).image) }
    ensures cause { OnErr result (HasRisen (D.view disk.old).faults (D.view disk.new).faults) }
    ensures quiet { OnOk result ((D.view disk.new).faults ≡ (D.view disk.old).faults) }
{
    write_images(disk, batch)?;
    write_directory(buffer, batch);
    disk.write_block(DIRECTORY, buffer)?;
    Ok(())
}

/// Writes a gate with this byte.
pub(crate) fn write_gate<D: Disk>(disk: &mut D, buffer: &mut [u8], byte: u8) -> Result<(), Failed>
    requires room { 66 ≤ (D.view disk.old).size }
    requires whole { IsBlock buffer.old }
    ensures moves { Moves (At 0) 0 0 1 (D.view disk.old) (D.view disk.new) }
    ensures gate { Honest (D.view disk.old) → OnOk result (is_open ((D.view disk.new).image 0) ≡ (byte == 1)) }
    ensures cause { OnErr result (HasRisen (D.view disk.old).faults (D.view disk.new).faults) }
    ensures quiet { OnOk result ((D.view disk.new).faults ≡ (D.view disk.old).faults) }
{
    buffer.fill(0);
    buffer[0] = byte;
    disk.write_block(GATE, buffer)?;
    Ok(())
}

/// Writes the pages of a batch home.
fn write_pages<D: Disk>(disk: &mut D, batch: &Batch) -> Result<(), Failed>
    requires within { LiesWithin (D.view disk.old).size (numbers (entries batch.now)) }
    ensures moves { Moves (IsHome (numbers (entries batch.now))) 0 0 (length (entries batch.now)) (D.view disk.old) (D.view disk.new) }
    ensures home { Honest (D.view disk.old) → OnOk result
        (home (D.view disk.new).image ≡ put_all (entries batch.now) (home (D.view disk.old).image)) }
    ensures cause { OnErr result (HasRisen (D.view disk.old).faults (D.view disk.new).faults) }
    ensures quiet { OnOk result ((D.view disk.new).faults ≡ (D.view disk.old).faults) }
{
    for i in 0..batch.len() {
        let page = batch.page(i);
        disk.write_block(HOME + page.number, page.bytes.as_slice())?;
    }
    Ok(())
}

/// Brings a batch into the journal, and on the disk.
fn stage<D: Disk>(disk: &mut D, buffer: &mut [u8], batch: &Batch) -> Result<(), Failed>
    requires room { 66 ≤ (D.view disk.old).size }
    requires whole { IsBlock buffer.old }
    ensures moves { Moves IsJournal 0 1 (length (entries batch.now) + 1) (D.view disk.old) (D.view disk.new) }
    ensures durable { OnOk result (Only (D.view disk.new).image (Now (D.view disk.new))) }
    ensures holds { Honest (D.view disk.old) → OnOk result (HoldsBatch (entries batch.now) (D.view disk.new).image) }
    ensures cause { OnErr result (HasRisen (D.view disk.old).faults (D.view disk.new).faults) }
    ensures quiet { OnOk result ((D.view disk.new).faults ≡ (D.view disk.old).faults) }
{
    write_journal(disk, buffer, batch)?;
    disk.sync()?; // the whole journal, before the gate opens
    Ok(())
}

/// Brings a gate with this byte on the disk.
pub(crate) fn set_gate<D: Disk>(disk: &mut D, buffer: &mut [u8], byte: u8) -> Result<(), Failed>
    requires room { 66 ≤ (D.view disk.old).size }
    requires whole { IsBlock buffer.old }
    ensures moves { Moves (At 0) 0 1 1 (D.view disk.old) (D.view disk.new) }
    ensures durable { OnOk result (Only (D.view disk.new).image (Now (D.view disk.new))) }
    ensures gate { Honest (D.view disk.old) → OnOk result (is_open ((D.view disk.new).image 0) ≡ (byte == 1)) }
    ensures cause { OnErr result (HasRisen (D.view disk.old).faults (D.view disk.new).faults) }
    ensures quiet { OnOk result ((D.view disk.new).faults ≡ (D.view disk.old).faults) }
{
    write_gate(disk, buffer, byte)?;
    disk.sync()?; // the gate, before anything else is written
    Ok(())
}

/// Brings the pages of a batch home, and on the disk.
fn bring_home<D: Disk>(disk: &mut D, batch: &Batch) -> Result<(), Failed>
    requires within { LiesWithin (D.view disk.old).size (numbers (entries batch.now)) }
    ensures moves { Moves (IsHome (numbers (entries batch.now))) 0 1 (length (entries batch.now)) (D.view disk.old) (D.view disk.new) }
    ensures durable { OnOk result (Only (D.view disk.new).image (Now (D.view disk.new))) }
    ensures home { Honest (D.view disk.old) → OnOk result
        (home (D.view disk.new).image ≡ put_all (entries batch.now) (home (D.view disk.old).image)) }
    ensures cause { OnErr result (HasRisen (D.view disk.old).faults (D.view disk.new).faults) }
    ensures quiet { OnOk result ((D.view disk.new).faults ≡ (D.view disk.old).faults) }
{
    write_pages(disk, batch)?;
    disk.sync()?; // all pages, before the gate closes
    Ok(())
}

/// Commits a batch through the journal.
pub(crate) fn redo<D: Disk>(disk: &mut D, buffer: &mut [u8], batch: &Batch) -> Result<(), Failed>
    requires room { 66 ≤ (D.view disk.old).size }
    requires whole { IsBlock buffer.old }
    requires within { LiesWithin (D.view disk.old).size (numbers (entries batch.now)) }
    requires closed { IsClosed (D.view disk.old) }
    ensures moves { Moves Anywhere 0 4 (2 * length (entries batch.now) + 3) (D.view disk.old) (D.view disk.new) }
    ensures moments { (count : ℕ) → IsTrue (all_below count (numbers (entries batch.now)))
        → PassesWith (entries batch.now) count (D.view disk.old) (D.view disk.new) }
    ensures closed { OnOk result (IsClosed (D.view disk.new)) }
    ensures done { Honest (D.view disk.old) → OnOk result
        (home (D.view disk.new).image ≡ put_all (entries batch.now) (home (D.view disk.old).image)) }
    ensures cause { OnErr result (HasRisen (D.view disk.old).faults (D.view disk.new).faults) }
    ensures quiet { OnOk result ((D.view disk.new).faults ≡ (D.view disk.old).faults) }
{
    stage(disk, buffer, batch)?;
    set_gate(disk, buffer, OPEN)?;
    bring_home(disk, batch)?;
    set_gate(disk, buffer, CLOSED)?;
    Ok(())
}
