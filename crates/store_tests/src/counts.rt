//! How often a disk is called by an edit and by an opening.

use crate::deeds::{Deed, MANY, after, bytes_of, run};
use block_disk::Tear;
use std::alloc::Global;
use std::test::Fail;

/// The calls of a disk, its reads and its syncs.
fn counts_of(alloc: Global, image: &[u8], deed: Deed) -> Result<(u64, u64, u64), Fail> {
    let (done, disk) = run(alloc, image, deed, MANY, &[])?;
    if !done {
        return Err(Fail::new("not done"));
    }
    Ok((disk.calls(), disk.reads(), disk.syncs()))
}

/// Values in 34 pages about slot 128^3.
fn wide(alloc: Global) -> Result<Vec<u8>, Fail> {
    let mut deeds = Vec::from_slice(alloc, &[Deed::Make, Deed::Create])?;
    for run in 0..17i32 {
        deeds.push(Deed::Set(2_094_976 + 256 * i128::from(run), 256, 1))?;
    }
    after(alloc, deeds.as_slice())
}

/// A clear of slots of 33 of those pages: with two pages of each of the next two levels, the root, the
/// record's page and page 0 it changes 40 pages.
const LONG: Deed = Deed::Clear(2_095_040, 4_096);

/// How many pages an edit writes. An opening is the size, a sync, the gate and the store's 17 pages. An edit
/// writes each page that it changes twice, the directory, and the gate twice, with four syncs.
fn pages_written(alloc: Global, image: &[u8], edit: Deed) -> Result<u64, Fail> {
    let (calls, reads, syncs) = counts_of(alloc, image, edit)?;
    let writes = calls.saturating_sub(reads.saturating_add(1 + 1 + 4 + 3));
    if syncs != 1 + 4 || reads < 18 || reads > 18 + 96 || writes % 2 != 0 {
        return Err(Fail::from((calls, reads, syncs)));
    }
    Ok(writes / 2)
}

/// Edits of a series of 200 slots, and how many pages each changes.
const EDITS: [(Deed, u64); 5] = [
    (Deed::Append(1, 9), 4),
    (Deed::Set(0, 256, 1), 5),
    (Deed::Set(127, 256, 1), 6),
    (Deed::Set(16_380, 8, 2), 7),
    (Deed::Set(2_097_152, 1, 5), 7),
];

#[test]
fn edits_write_each_page_twice(rt: HostRuntime) -> Result<(), Fail> {
    let alloc = rt.alloc();
    let filled = after(alloc, &[Deed::Make, Deed::Create, Deed::Append(200, 5)])?;
    for (edit, pages) in EDITS {
        assert_eq!(rt; pages_written(alloc, filled.as_slice(), edit)?, pages);
    }
    Ok(())
}

#[test]
fn a_long_clear_writes_each_page_twice(rt: HostRuntime) -> Result<(), Fail> {
    let wide = wide(rt.alloc())?;
    assert_eq!(rt; pages_written(rt.alloc(), wide.as_slice(), LONG)?, 40);
    Ok(())
}

/// What is left of the long clear where it is stopped before the last sync of pages, and the gate and its sync.
fn stopped(alloc: Global, image: &[u8]) -> Result<Vec<u8>, Fail> {
    let (calls, _, _) = counts_of(alloc, image, LONG)?;
    let (_, disk) = run(alloc, image, LONG, calls.saturating_sub(3), &[])?;
    bytes_of(alloc, disk.after_crash(Tear::Old)?, 0)
}

/// An opening reads the gate, page 0 for its version, and then page 0 and the catalog. Of a commit that was stopped
/// it reads the directory, reads and writes each page once, and closes
/// the gate, with two syncs more.
#[test]
fn openings_read_few_blocks(rt: HostRuntime) -> Result<(), Fail> {
    let alloc = rt.alloc();
    let image = wide(alloc)?;
    let whole = counts_of(alloc, image.as_slice(), Deed::Open)?;
    let left = stopped(alloc, image.as_slice())?;
    let stopped = counts_of(alloc, left.as_slice(), Deed::Open)?;
    assert_eq!(rt;
        (whole, stopped),
        ((21, 19, 1), (21 + 1 + 80 + 3, 19 + 1 + 40, 3))
    );
    Ok(())
}
