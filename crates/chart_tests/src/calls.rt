//! How often `serve` reads and syncs the disk.

use crate::worlds::{behind, empty};
use std::alloc::Global;
use std::test::Fail;

const SEEN: &[u8] = b"create a 0 1 0
append a 4 7 2 -
create b 0 1 0
append b 1
open 1
open 2
view 1 a 4 4 0 4 auto
view 1 b 4 4 0 4 auto
";

const AGAIN: &[u8] = b"view 2 a 4 4 0 4 auto\nview 2 b 4 4 0 4 auto\n";

/// The pages of a series stay in memory while another one is seen, and after an edit of them.
#[test]
fn a_second_session_reads_nothing(rt: HostRuntime) -> Result<(), Fail> {
    let alloc = rt.alloc();
    let mut lines = Vec::from_slice(alloc, SEEN)?;
    lines.extend_from_slice(AGAIN)?;
    let once = behind(alloc, SEEN)?.reads();
    assert_eq!(rt; behind(alloc, lines.as_slice())?.reads(), once);
    Ok(())
}

/// How often an opening and `serve` on these lines sync the disk of an empty store.
fn syncs_of(alloc: Global, lines: &[u8]) -> Result<u64, Fail> {
    let made = empty(alloc)?.syncs();
    let disk = behind(alloc, lines)?;
    Ok(disk.syncs().saturating_sub(made))
}

/// Seventeen edits in a row.
const BURST: &[u8] =
    b"create g 0 1 0\nappend g 1\nappend g 1\nappend g 1\nappend g 1\nappend g 1\nappend g 1\nappend g 1\nappend g 1\nappend g 1\nappend g 1\nappend g 1\nappend g 1\nappend g 1\nappend g 1\nappend g 1\nappend g 1\n";

/// Two edits with another line between them.
const APART: &[u8] = b"create g 0 1 0\nclose 9\nappend g 1\n";

/// An opening syncs once, and a commit four times.
#[test]
fn edits_that_stand_ready_are_one_commit(rt: HostRuntime) -> Result<(), Fail> {
    let alloc = rt.alloc();
    assert_eq!(rt; syncs_of(alloc, BURST)?, 5);
    assert_eq!(rt; syncs_of(alloc, APART)?, 9);
    Ok(())
}
