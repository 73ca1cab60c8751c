//! The rows of sums of two lists, and how many coefficients they ask.
ghost use Rattle.std.specs.Prelude.{◌≡◌, ◌<◌, length, IfOk};
ghost use Rattle.om3_coeff.specs.Spans.{AreSlots};
ghost use Rattle.whole_number.specs.Range.{IsValue};

use chart_grid::{Axis, Grid};
use derived_chart::{DerivedError, ListPair, Sum, derived_rows};
use m4_groups::Row;
use std::alloc::Global;
use std::test::Fail;

const X: [Option<i64>; 4] = [Some(4), Some(7), Some(2), None];

const Y: [Option<i64>; 4] = [Some(1), Some(1), None, Some(5)];

const FAR: [Option<i64>; 2] = [Some(0), Some(1_000_000_000_000_000_000)];

/// The difference of X and Y in two columns of two slots.
const ROWS: [Row; 1] = [Row {
    column: 0,
    first: 3,
    least: 3,
    greatest: 6,
    last: 6,
}];

fn axis(start: i64, slots: u64) -> Axis
    ensures step { result.step ≡ 1 }
    ensures slots { result.slots ≡ slots }
{
    Axis {
        start,
        step: 1,
        slots,
    }
}

#[test]
fn sums_are_of_times_with_both_values(rt: HostRuntime) -> Result<(), Fail> {
    let mut pair = ListPair::new(&X, &Y);
    let sum = Sum {
        a: 1,
        b: -1,
        shift: 0,
    };
    let grid = Grid::new(0, 4, 2, 4)?;
    let rows = derived_rows(rt.alloc(), &mut pair, axis(0, 4), sum, grid)?;
    assert!(rt; rows.as_slice() == ROWS.as_slice());
    Ok(())
}

/// A sum of more than 10^18 is too large, at its time.
#[test]
fn a_sum_may_be_too_large(rt: HostRuntime) -> Result<(), Fail> {
    let mut pair = ListPair::new(&FAR, &FAR);
    let sum = Sum {
        a: 1,
        b: 1,
        shift: 0,
    };
    let grid = Grid::new(-5, 5, 1, 1)?;
    let answer = derived_rows(rt.alloc(), &mut pair, axis(0, 2), sum, grid);
    assert!(rt; matches!(answer.err(), Some(DerivedError::TooLarge { time: 1 })));
    Ok(())
}

fn value(slot: u16, is_rising: bool) -> i64
    ensures { IsValue result }
{
    if is_rising { i64::from(slot) } else { 0 }
}

/// So many slots with the values 0, 1, 2 and so on, or with zeros.
fn slots(alloc: Global, count: u16, is_rising: bool) -> Result<Vec<Option<i64>>, Fail>
    ensures values { IfOk result (λ made. AreSlots made.items) }
    ensures count { IfOk result (λ made. length made.items ≡ count) }
{
    let mut made = Vec::new(alloc);
    for slot in 0..count {
        made.push(Some(value(slot, is_rising)))?;
    }
    Ok(made)
}

/// One column over 16,384 slots asks fewer coefficients than that.
#[test]
fn ranges_are_passed_over(rt: HostRuntime) -> Result<(), Fail> {
    let rising = slots(rt.alloc(), 16_384, true)?;
    let zeros = slots(rt.alloc(), 16_384, false)?;
    let mut pair = ListPair::new(rising.as_slice(), zeros.as_slice());
    let sum = Sum {
        a: 1,
        b: 1,
        shift: 0,
    };
    let grid = Grid::new(0, 16_384, 1, 4)?;
    let rows = derived_rows(rt.alloc(), &mut pair, axis(0, 16_384), sum, grid)?;
    assert_eq!(rt; rows.as_slice().len(), 1);
    assert!(rt; pair.asks() < 16_384);
    Ok(())
}
