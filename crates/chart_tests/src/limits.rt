//! Lines that end within the limit of a reader.
ghost use Rattle.std.specs.Prelude.{◌<◌, ◌^◌};

use crate::worlds::{empty, world_of};
use chart_world::{LineFault, Lines};
use std::alloc::Global;
use std::test::Fail;

/// Three lines, which end behind 4, 8 and 14 bytes.
const INPUT: &[u8] = b"one\ntwo\nthree\n";

/// Whether a reader of so many first bytes calls the input too long before its first line.
fn is_too_long(alloc: Global, limit: u64) -> Result<bool, Fail>
    requires { limit < 2 ^ 63 }
{
    let mut world = world_of(alloc, empty(alloc)?, INPUT, &[])?;
    let mut lines = Lines::up_to(alloc, limit)?;
    match lines.next(&mut world) {
        Err(LineFault::InputTooLong) => Ok(true),
        _ => Ok(false),
    }
}

/// Whether the second line stands ready behind the first, for a reader of so many first bytes.
fn has_second(alloc: Global, limit: u64) -> Result<bool, Fail>
    requires { limit < 2 ^ 63 }
{
    let mut world = world_of(alloc, empty(alloc)?, INPUT, &[])?;
    let mut lines = Lines::up_to(alloc, limit)?;
    match lines.next(&mut world) {
        Ok(_) => Ok(lines.ready()),
        Err(_) => Ok(false),
    }
}

/// A line that ends with the limit is given, and one that ends a byte later isn't.
#[test]
fn lines_end_within_the_limit(rt: HostRuntime) -> Result<(), Fail> {
    let alloc = rt.alloc();
    assert!(rt; is_too_long(alloc, 3)?);
    assert!(rt; !is_too_long(alloc, 4)?);
    assert!(rt; !has_second(alloc, 7)?);
    assert!(rt; has_second(alloc, 8)?);
    Ok(())
}
