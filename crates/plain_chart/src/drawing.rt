ghost use Rattle.std.specs.Prelude.{◌≡◌, ℕ, ℤ, pos, ◌<◌, ◌≤◌, ◌^◌, ◌↔◌, unsigned_abs, Option, Some, None, length, All};
ghost use Rattle.std.specs.Option.{ForSome};
ghost use Rattle.chart_grid.specs.Projection.{column};
ghost use Rattle.line_raster.specs.Canvas.{Adds};
ghost use Rattle.line_raster.specs.Raster.{InRaster};
ghost use Rattle.line_raster.specs.Segment.{On};
ghost use Rattle.plain_chart.specs.Samples.{kept, IsSlot, IsSeries};
ghost use Rattle.plain_chart.specs.Chart.{place, places, Joins, last_with, IsScale, IsDrawable, IsBefore, height_in};

use crate::{Sample, ValueRange, sample_at};
use chart_grid::{Axis, Grid, height_of};
use line_raster::{Bitmap, Point, segment};

/// Draws the samples that the view keeps, over a range of values: each, and the segment from each to
/// the next.
pub fn draw(bitmap: &mut Bitmap, grid: Grid, axis: Axis, slots: &[Option<i64>], range: ValueRange)
    requires width { bitmap.old.w ≡ grid.w }
    requires series { IsSeries axis }
    requires slots { axis.slots ≡ length slots.now }
    requires values { All IsSlot slots.now }
    requires scale { IsScale range }
    ensures { Adds (λ x y. InRaster (places grid range (kept grid axis slots.now)) x (pos y)) bitmap.old bitmap.new }
{
    let mut last = None;
    for (slot, stored) in slots.iter().enumerate() {
        let sample = sample_at(grid, axis, slot, *stored);
        last = draw_next(bitmap, grid, range, last, sample);
    }
}

/// Draws the segment from the last sample to a slot's, and answers which is the last now.
fn draw_next(
    bitmap: &mut Bitmap,
    grid: Grid,
    range: ValueRange,
    last: Option<Sample>,
    sample: Option<Sample>,
) -> Option<Sample>
    requires width { bitmap.old.w ≡ grid.w }
    requires scale { IsScale range }
    requires from { ForSome last (IsDrawable grid) }
    requires to { ForSome sample (IsDrawable grid) }
    requires order { ForSome sample (IsBefore last) }
    ensures drawn { Adds (λ x y. Joins grid range last sample x (pos y)) bitmap.old bitmap.new }
    ensures last { result ≡ last_with last sample }
{
    let Some(sample) = sample else {
        return last;
    };
    let from = start_of(grid, range, last, sample);
    segment(bitmap, from, point_of(grid, range, sample));
    Some(sample)
}

/// Where the segment to a sample begins: at the last one, or at its own place where it is the first.
fn start_of(grid: Grid, range: ValueRange, last: Option<Sample>, sample: Sample) -> Point
    requires scale { IsScale range }
    requires from { ForSome last (IsDrawable grid) }
    requires to { IsDrawable grid sample }
    requires order { IsBefore last sample }
    ensures column { result.x ≤ column grid sample.time }
    ensures height { unsigned_abs result.y ≤ 10 ^ 22 }
    ensures joins { (x : ℕ) (y : ℤ) → On result (place grid range sample) x y ↔ Joins grid range last (Some sample) x y }
{
    match last {
        None => point_of(grid, range, sample),
        Some(last) => point_of(grid, range, last),
    }
}

/// Where a sample lies on the canvas.
pub fn point_of(grid: Grid, range: ValueRange, sample: Sample) -> Point
    requires scale { IsScale range }
    requires drawable { IsDrawable grid sample }
    ensures value { result ≡ place grid range sample }
    ensures column { result.x < grid.w }
    ensures height { unsigned_abs result.y ≤ 10 ^ 22 }
{
    Point {
        x: grid.column_of(sample.time),
        y: height_at(grid, range, sample),
    }
}

/// The height of a sample.
fn height_at(grid: Grid, range: ValueRange, sample: Sample) -> i128
    requires { IsScale range }
    ensures { result ≡ height_in grid range sample }
{
    height_of(sample.value, range.lo, range.hi, grid.h())
}
