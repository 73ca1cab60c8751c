//! A load whose input fails in mid-stream.

use crate::worlds::{behind, behind_on, empty_of, world_of};
use run_ends::status_of;
use series_book::Name;
use std::alloc::Global;
use std::test::Fail;
use store_commands::{check_store, load_series};

/// An empty series `a` of two decimals.
const CREATED: &[u8] = b"create a 0 1 2\n";

/// So many rows of this value, from time 10,000 on, each of 7 bytes and those of the value.
fn rows(alloc: Global, count: u16, value: &str) -> Result<Vec<u8>, Fail> {
    let mut input = Vec::new(alloc);
    for time in 10_000..10_000 + u32::from(count) {
        let line = format!(in alloc; "{time},{value}\n")?;
        input.extend_from_slice(line.as_bytes())?;
    }
    Ok(input)
}

/// Loads 42,500 rows of 25 bytes where the take of this number fails, each of 1,048,576 bytes, and checks the store: whether the
/// load has this code, and what is sent begins so.
fn is_loaded(alloc: Global, take: u64, code: u8, text: &[u8]) -> Result<bool, Fail> {
    let input = rows(alloc, 42_500, "123456789012345.67")?;
    let disk = behind_on(alloc, empty_of(alloc, 512)?, CREATED)?;
    let world = world_of(alloc, disk, input.as_slice(), &[take])?;
    let name = Name::new(alloc, b"a")?;
    let (end, world) = load_series(alloc, &name, world);
    let (_, world) = check_store(alloc, world);
    Ok(status_of(end).code == code && world.sent().starts_with(text))
}

/// The runs of 256 rows that ended before the fault are stored, and the open one isn't.
#[test]
fn an_input_fails_in_mid_stream(rt: HostRuntime) -> Result<(), Fail> {
    let alloc = rt.alloc();
    assert!(rt; is_loaded(alloc, 0, 4, b"series 1\nvalues 0\n")?);
    assert!(rt; is_loaded(alloc, 1, 4, b"series 1\nvalues 41728\n")?);
    assert!(rt; is_loaded(alloc, 2, 4, b"series 1\nvalues 42496\n")?);
    assert!(rt; is_loaded(alloc, 3, 0, b"loaded 42500\nseries 1\nvalues 42500\n")?);
    Ok(())
}

/// How often the disk is synced by a load of these rows, beside the opening of its store.
fn syncs_of(alloc: Global, input: &[u8]) -> Result<u64, Fail> {
    let disk = behind(alloc, CREATED)?;
    let world = world_of(alloc, disk, input, &[])?;
    let (end, world) = load_series(alloc, &Name::new(alloc, b"a")?, world);
    if status_of(end).code != 0 {
        return Err(Fail::new("not loaded"));
    }
    let loaded = world.into_disk().syncs();
    let world = world_of(alloc, behind(alloc, CREATED)?, &[], &[])?;
    let (_, world) = load_series(alloc, &Name::new(alloc, b"a")?, world);
    Ok(loaded.saturating_sub(world.into_disk().syncs()))
}

/// The twelve runs of these rows are stored in two commits, one for the take and one for the run that stands open at the end,
/// with four syncs each.
#[test]
fn runs_are_stored_by_groups(rt: HostRuntime) -> Result<(), Fail> {
    let alloc = rt.alloc();
    let input = rows(alloc, 3_000, "123456789012345.67")?;
    assert_eq!(rt; syncs_of(alloc, input.as_slice())?, 8);
    Ok(())
}
