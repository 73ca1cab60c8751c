//! Public calls that no command makes, once each, with memory enough.

use chart_grid::{Axis, Grid};
use line_raster::Bitmap;
use m4_groups::{Groups, Row};
use needed_nodes::rows_of;
use om3_coeff::ListNodes;
use plain_chart::{draw, range_of};
use std::test::Fail;

const AXIS: Axis = Axis {
    start: 0,
    step: 1,
    slots: 4,
};

const SLOTS: [Option<i64>; 4] = [Some(4), Some(7), Some(2), None];

/// The rows of two columns of two slots.
const ROWS: [Row; 2] = [
    Row {
        column: 0,
        first: 4,
        least: 4,
        greatest: 7,
        last: 7,
    },
    Row {
        column: 1,
        first: 2,
        least: 2,
        greatest: 2,
        last: 2,
    },
];

#[test]
fn rows_are_found_by_nodes(rt: HostRuntime) -> Result<(), Fail> {
    let grid = Grid::new(0, 4, 2, 4)?;
    let mut nodes = ListNodes::new(&SLOTS);
    let rows = rows_of(rt.alloc(), &mut nodes, AXIS, grid, 2, 7)?;
    assert!(rt; rows.into_vec().as_slice() == ROWS.as_slice());
    Ok(())
}

#[test]
fn rows_are_found_by_points(rt: HostRuntime) -> Result<(), Fail> {
    let mut groups = Groups::new(rt.alloc(), Grid::new(0, 4, 2, 4)?)?;
    groups.push(0, 4)?;
    groups.push(1, 7)?;
    groups.push(2, 2)?;
    assert!(rt; groups.rows().as_slice() == ROWS.as_slice());
    Ok(())
}

#[test]
#[tactic(auto, unfolding(whole_number::specs::SlotTimes::ends_in_time))]
fn segments_are_drawn(rt: HostRuntime) -> Result<(), Fail> {
    let grid = Grid::new(0, 4, 4, 4)?;
    let range = range_of(grid, AXIS, &SLOTS);
    assert!(rt; (range.lo, range.hi) == (2, 7));
    let mut bitmap = Bitmap::new(rt.alloc(), 4, 4)?;
    assert!(rt; bitmap.width() == grid.w());
    draw(&mut bitmap, grid, AXIS, &SLOTS, range);
    assert_eq!(rt; bitmap.black(), 5);
    Ok(())
}
