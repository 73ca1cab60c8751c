ghost use Rattle.std.specs.Prelude.{◌≡◌, ℤ, ◌≤ℤ◌, ◌++◌, Option, List, length, All};
ghost use Rattle.std.specs.Int.{int_min, int_max};
ghost use Rattle.std.specs.Option.{option_to_list};
ghost use Rattle.plain_chart.specs.Samples.{kept, values_of, IsRange, IsSlot, IsSeries, SpansSoFar};
ghost use Rattle.whole_number.specs.Range.{IsValue};

use crate::{Sample, ValueRange, sample_at};
use chart_grid::{Axis, Grid};

/// The least and the greatest value that the view keeps, and 0 and 0 where it keeps none.
pub fn range_of(grid: Grid, axis: Axis, slots: &[Option<i64>]) -> ValueRange
    requires series { IsSeries axis }
    requires slots { axis.slots ≡ length slots.now }
    ensures range { IsRange (values_of (kept grid axis slots.now)) result }
    ensures order { result.lo ≤ℤ result.hi }
    ensures sizes { All IsSlot slots.now → IsValue result.lo × IsValue result.hi }
{
    let mut range = None;
    for (slot, stored) in slots.iter().enumerate() {
        range = widened(range, sample_at(grid, axis, slot, *stored));
    }
    range.unwrap_or(ValueRange { lo: 0, hi: 0 })
}

/// The range that holds the sample's value too, where there is a sample.
fn widened(range: Option<ValueRange>, sample: Option<Sample>) -> Option<ValueRange>
    ensures { (values : List ℤ) → SpansSoFar range values → SpansSoFar result (values ++ values_of (option_to_list sample)) }
{
    match (range, sample) {
        (_, None) => range,
        (None, Some(sample)) => Some(ValueRange {
            lo: sample.value,
            hi: sample.value,
        }),
        (Some(range), Some(sample)) => Some(joined(range, sample)),
    }
}

/// The range from the lesser of its low end and the value to the greater of its high end and the value.
fn joined(range: ValueRange, sample: Sample) -> ValueRange
    ensures low { result.lo ≡ int_min range.lo sample.value }
    ensures high { result.hi ≡ int_max range.hi sample.value }
{
    ValueRange {
        lo: range.lo.min(sample.value),
        hi: range.hi.max(sample.value),
    }
}
