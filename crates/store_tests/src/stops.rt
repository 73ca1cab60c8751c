//! Deeds that are stopped after each of their calls, with each way to tear what is pending then; and deeds
//! one call of which fails.

use crate::deeds::{Deed, MANY, after, bytes_of, run};
use block_disk::{MemDisk, Tear};
use gate_pages::GatePages;
use std::alloc::Global;
use std::test::Fail;

/// The bytes of the pages that a disk stands for, once its journal is replayed.
pub(crate) fn pages_of(alloc: Global, disk: MemDisk) -> Result<Vec<u8>, Fail> {
    let Ok(pages) = GatePages::open(alloc, disk) else {
        return Err(Fail::new("no pages"));
    };
    bytes_of(alloc, pages.into_disk(), 66)
}

/// The pages from before a deed and from after it, and how many calls it makes.
#[derive(Drop)]
struct Ends {
    before: Vec<u8>,
    after: Vec<u8>,
    calls: u64,
}

fn ends_of(alloc: Global, image: &[u8], deed: Deed) -> Result<Ends, Fail> {
    let (_, disk) = run(alloc, image, deed, 0, &[])?;
    let before = pages_of(alloc, disk)?;
    let (_, disk) = run(alloc, image, deed, MANY, &[])?;
    let calls = disk.calls();
    let after = pages_of(alloc, disk)?;
    Ok(Ends {
        before,
        after,
        calls,
    })
}

/// Whether a disk stands for the pages from after a deed; nothing where they are neither those from before
/// it nor those from after it.
fn is_after(alloc: Global, disk: MemDisk, ends: &Ends) -> Result<Option<bool>, Fail> {
    let pages = pages_of(alloc, disk)?;
    if pages.as_slice() == ends.after.as_slice() {
        return Ok(Some(true));
    }
    if pages.as_slice() == ends.before.as_slice() {
        return Ok(Some(false));
    }
    Ok(None)
}

/// Whether a stop after so many of a deed's calls leaves the pages from after it.
fn is_there(
    alloc: Global,
    image: &[u8],
    deed: Deed,
    calls: u64,
    tear: Tear,
    ends: &Ends,
) -> Result<bool, Fail> {
    let (done, disk) = run(alloc, image, deed, calls, &[])?;
    let there = is_after(alloc, disk.after_crash(tear)?, ends)?;
    if done != (calls == ends.calls) {
        return Err(Fail::new("done before its last call"));
    }
    Ok(there.ok_or("other pages")?)
}

/// After how many calls more a deed is done, from where on a stop leaves the pages from after it.
fn calls_behind(alloc: Global, image: &[u8], deed: Deed, tear: Tear) -> Result<u64, Fail> {
    let ends = ends_of(alloc, image, deed)?;
    let mut stops: u64 = 0;
    for calls in 0..ends.calls.saturating_add(1) {
        let there = is_there(alloc, image, deed, calls, tear, &ends)?;
        if there {
            stops = stops.saturating_add(1);
        } else if stops > 0 {
            return Err(Fail::new("back again"));
        }
    }
    Ok(stops.checked_sub(1).ok_or("never there")?)
}

/// A series of 200 slots in two pages and a root.
const FILLED: [Deed; 3] = [Deed::Make, Deed::Create, Deed::Append(200, 5)];

/// The same in a store of version 1.
const AGED: [Deed; 4] = [Deed::Make, Deed::Create, Deed::Append(200, 5), Deed::Age];

/// A change of six pages: three of slots, the root, that of its record and page 0.
const CHANGE: Deed = Deed::Set(100, 200, -50);

/// It fills the one page of a series.
const FILL: Deed = Deed::Append(128, 5);

/// One slot more: its page, a root above both, that of its record and page 0.
const GROWTH: Deed = Deed::Append(1, 9);

/// That slot is emptied: its page, which is freed, the root, that of its record and page 0.
const FREEING: Deed = Deed::Clear(128, 1);

/// A group of three appends changes as many: three of slots, the root, that of its record and page 0.
const GROUP: Deed = Deed::Group(128, 5);

/// Each way to tear what is pending, and how many pending opened gates it keeps. Other bytes close a gate or open it.
pub const TEARS: [(Tear, u64); 5] = [
    (Tear::Old, 0),
    (Tear::New, 1),
    (Tear::Half, 1),
    (Tear::Junk(7), 0),
    (Tear::Junk(1), 1),
];

/// The bytes of a disk on which a deed was stopped after so many calls, torn so.
fn left_by(
    alloc: Global,
    image: &[u8],
    deed: Deed,
    calls: u64,
    tear: Tear,
) -> Result<Vec<u8>, Fail> {
    let (_, disk) = run(alloc, image, deed, calls, &[])?;
    bytes_of(alloc, disk.after_crash(tear)?, 0)
}

/// The bytes of a disk whose gate is open before the journal of the change: it was stopped at the last sync
/// of pages, and the pages were lost.
fn half_done(alloc: Global) -> Result<Vec<u8>, Fail> {
    let image = after(alloc, &FILLED)?;
    let ends = ends_of(alloc, image.as_slice(), CHANGE)?;
    left_by(
        alloc,
        image.as_slice(),
        CHANGE,
        ends.calls.saturating_sub(3),
        Tear::Junk(7),
    )
}

/// What is done before a deed that is stopped, how many pages that deed changes, and how many it reads behind
/// its commit: an opening that brings a store to version 2 goes on to read page 0 and the catalog.
const STOPPED: [(&[Deed], Deed, u64, u64); 7] = [
    (&[], Deed::Make, 17, 0),
    (&[Deed::Make], Deed::Create, 2, 0),
    (&[Deed::Make, Deed::Create, FILL], GROWTH, 4, 0),
    (&[Deed::Make, Deed::Create, FILL, GROWTH], FREEING, 4, 0),
    (&FILLED, CHANGE, 6, 0),
    (&[Deed::Make, Deed::Create], GROUP, 6, 0),
    (&AGED, Deed::Open, 17, 17),
];

/// Behind the write that opens the gate come its sync, each page, a sync, the gate, a sync and so many reads. A
/// tear that keeps what was pending keeps the open gate before its sync too.
fn turns_at_the_gate(
    alloc: Global,
    image: &[u8],
    deed: Deed,
    pages: u64,
    reads: u64,
) -> Result<(), Fail> {
    for (tear, kept) in TEARS {
        let behind = calls_behind(alloc, image, deed, tear)?;
        if behind != pages.saturating_add(3 + kept).saturating_add(reads) {
            return Err(Fail::from((pages, tear, behind)));
        }
    }
    Ok(())
}

#[test]
fn a_stop_leaves_the_pages_before_or_after(rt: HostRuntime) -> Result<(), Fail> {
    let alloc = rt.alloc();
    for (before, deed, pages, reads) in STOPPED {
        let image = after(alloc, before)?;
        turns_at_the_gate(alloc, image.as_slice(), deed, pages, reads)?;
    }
    Ok(())
}

/// An opening of these bytes leaves the same pages, wherever it is stopped.
fn opens_alike(alloc: Global, image: &[u8], tear: Tear) -> Result<(), Fail> {
    let ends = ends_of(alloc, image, Deed::Open)?;
    let behind = calls_behind(alloc, image, Deed::Open, tear)?;
    if behind != ends.calls {
        return Err(Fail::from((tear, behind)));
    }
    Ok(())
}

/// So does one of what an opening leaves that is stopped among its first so many calls.
fn left_alike(alloc: Global, image: &[u8], most: u64, tear: Tear) -> Result<(), Fail> {
    for calls in 0..most {
        let left = left_by(alloc, image, Deed::Open, calls, tear)?;
        opens_alike(alloc, left.as_slice(), tear)?;
    }
    Ok(())
}

/// How many calls an opening of these bytes makes, which leaves the pages from after the change.
fn calls_of_replay(alloc: Global, image: &[u8]) -> Result<u64, Fail> {
    let ends = ends_of(alloc, image, Deed::Open)?;
    let changed = after(
        alloc,
        &[Deed::Make, Deed::Create, Deed::Append(200, 5), CHANGE],
    )?;
    if !changed.as_slice().ends_with(ends.before.as_slice()) {
        return Err(Fail::new("other pages"));
    }
    Ok(ends.calls)
}

/// An opening that replays a journal is stopped, what it leaves is opened, that is stopped too, and what is
/// left then is opened.
#[test]
fn a_stopped_opening_leaves_the_pages(rt: HostRuntime) -> Result<(), Fail> {
    let alloc = rt.alloc();
    let image = half_done(alloc)?;
    let calls = calls_of_replay(alloc, image.as_slice())?;
    for (tear, _) in TEARS {
        opens_alike(alloc, image.as_slice(), tear)?;
        left_alike(alloc, image.as_slice(), calls, tear)?;
    }
    Ok(())
}

/// Each of a deed's calls that fails alone is told, and leaves the pages from before or from after.
fn faults_are_told(alloc: Global, image: &[u8], deed: Deed) -> Result<(), Fail> {
    let ends = ends_of(alloc, image, deed)?;
    for call in 0..ends.calls {
        let (done, disk) = run(alloc, image, deed, MANY, &[call])?;
        let there = is_after(alloc, disk, &ends)?;
        if done || there.is_none() {
            return Err(Fail::from(call));
        }
    }
    Ok(())
}

#[test]
fn a_fault_of_each_call_is_told(rt: HostRuntime) -> Result<(), Fail> {
    let alloc = rt.alloc();
    for (before, deed, _, _) in STOPPED {
        let image = after(alloc, before)?;
        faults_are_told(alloc, image.as_slice(), deed)?;
    }
    Ok(())
}

#[test]
fn a_fault_of_an_opening_is_told(rt: HostRuntime) -> Result<(), Fail> {
    let image = half_done(rt.alloc())?;
    faults_are_told(rt.alloc(), image.as_slice(), Deed::Open)
}
