//! How many keys a view needs of a list, and that as many are asked.
ghost use Rattle.std.specs.Prelude.{◌≡◌, ◌≤◌, ◌^◌, ◌≤ℤ◌, length, IfOk, IfSome};
ghost use Rattle.om3_coeff.specs.Spans.{AreSlots};
ghost use Rattle.whole_number.specs.Range.{IsValue};

use chart_grid::{Axis, Grid};
use derived_chart::ListPair;
use needed_nodes::needed;
use std::alloc::Global;
use std::test::Fail;

const FOUR: [Option<i64>; 4] = [Some(4), Some(7), Some(2), None];

/// A value a second of a day, but in the middle of each hour: 2000 in its first half, then 2500.
fn reading(second: u32) -> Option<i64>
    ensures { IfSome result IsValue }
{
    if second % 3600 == 1800 {
        None
    } else if second < 43_200 {
        Some(2000)
    } else {
        Some(2500)
    }
}

fn day(alloc: Global) -> Result<Vec<Option<i64>>, Fail>
    ensures values { IfOk result (λ made. AreSlots made.items) }
    ensures count { IfOk result (λ made. length made.items ≡ 86400) }
{
    let mut made = Vec::new(alloc);
    for second in 0..86_400 {
        made.push(reading(second))?;
    }
    Ok(made)
}

/// How many keys a view over the range from `lo` to `hi` needs of these slots, one a second, and how many were asked.
fn count_keys(
    alloc: Global,
    slots: &[Option<i64>],
    grid: Grid,
    lo: i64,
    hi: i64,
) -> Result<(u64, u64), Fail>
    requires values { AreSlots slots.now }
    requires few { length slots.now ≤ 2 ^ 35 }
    requires range { lo ≤ℤ hi }
{
    let mut nodes = ListPair::new(slots, slots);
    let axis = Axis {
        start: 0,
        step: 1,
        slots: slots.len() as u64,
    };
    let keys = needed(alloc, &mut nodes, axis, grid, lo, hi)?
        .into_vec()
        .len();
    Ok((keys as u64, nodes.asks()))
}

#[test]
fn keys_of_four_slots(rt: HostRuntime) -> Result<(), Fail> {
    let grid = Grid::new(0, 4, 4, 4)?;
    assert!(rt; count_keys(rt.alloc(), &FOUR, grid, 2, 7)? == (8, 8));
    Ok(())
}

/// A day in columns of 128 seconds: the 684 keys above a column's own, and the one within a column in which the value jumps.
#[test]
fn keys_of_a_day(rt: HostRuntime) -> Result<(), Fail> {
    let slots = day(rt.alloc())?;
    let grid = Grid::new(0, 86_400, 675, 300)?;
    assert!(rt; count_keys(rt.alloc(), slots.as_slice(), grid, 2000, 2500)? == (685, 685));
    Ok(())
}

/// An hour of one value, of which 16 seconds have three columns: 6 keys of each of these 225 parts, and 239 above them.
#[test]
fn keys_of_an_hour(rt: HostRuntime) -> Result<(), Fail> {
    let slots = day(rt.alloc())?;
    let grid = Grid::new(43_200, 46_800, 675, 300)?;
    assert!(rt; count_keys(rt.alloc(), slots.as_slice(), grid, 2500, 2500)? == (1589, 1589));
    Ok(())
}

/// The same of the next hour, with 243 above.
#[test]
fn keys_of_the_next_hour(rt: HostRuntime) -> Result<(), Fail> {
    let slots = day(rt.alloc())?;
    let grid = Grid::new(46_800, 50_400, 675, 300)?;
    assert!(rt; count_keys(rt.alloc(), slots.as_slice(), grid, 2500, 2500)? == (1593, 1593));
    Ok(())
}
