ghost use Rattle.std.specs.Prelude.{ℤ, ◌<◌, List, Option, All, IfOk};
ghost use Rattle.chart_grid.specs.Projection.{HasCanvas};
ghost use Rattle.chart_grid.specs.declared.axis.Axis.{Axis};
ghost use Rattle.plain_chart.specs.Samples.{kept, sample_points};
ghost use Rattle.whole_number.specs.Range.{IsValue};
ghost use Rattle.plain_chart.specs.Chart.{IsChart, IsScale};
ghost use Rattle.m4_groups.specs.Rows.{AreRowsOf, AreRising};
ghost use Rattle.m4_groups.specs.Heights.{IsDrawable};

use chart_grid::Grid;
use line_raster::Bitmap;
use m4_groups::{Rows, draw_rows};
use plain_chart::ValueRange;
use std::alloc::{AllocError, Global};

/// The chart of a series over a range of values, from the rows of the samples that the view keeps. It
/// is an error where there is none for the bitmap.
pub fn chart_of_rows(
    alloc: Global,
    grid: Grid,
    rows: &Rows,
    range: ValueRange,
) -> Result<Bitmap, AllocError>
    requires rising { AreRising rows.now }
    requires drawable { All (IsDrawable grid.w) rows.now }
    requires scale { IsScale range }
    requires high { IsValue range.hi }
    ensures chart { IfOk result (λ drawing. (axis : Axis) (slots : List (Option ℤ)) → 0 < axis.step →
        AreRowsOf grid (sample_points (kept grid axis slots)) rows.now → IsChart grid range (kept grid axis slots) drawing) }
    // whatever the rows are of
    ensures size { IfOk result (λ drawing. HasCanvas grid drawing.w drawing.h) }
{
    let mut bitmap = Bitmap::new(alloc, grid.w(), grid.h())?;
    draw_rows(&mut bitmap, rows, range.lo, range.hi);
    Ok(bitmap)
}
