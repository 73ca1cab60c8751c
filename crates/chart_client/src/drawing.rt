//! The pictures of views and of rows.

ghost use Rattle.std.specs.Prelude.{◌≡◌, ℤ, ◌≤◌, ◌≤ℤ◌, List, All, IfOk, IfErr};
ghost use Rattle.chart_grid.specs.declared.grid.Grid.{Grid};
ghost use Rattle.chart_grid.specs.Projection.{HasCanvas};
ghost use Rattle.m4_groups.specs.Points.{AreInOrder};
ghost use Rattle.m4_groups.specs.Rows.{AreRising, AreRowsOf};
ghost use Rattle.whole_number.specs.Range.{IsValue};
ghost use Rattle.m4_groups.specs.declared.row.Row.{Row};
ghost use Rattle.m4_groups.specs.Heights.{HaveSameHeights, IsDrawable};
ghost use Rattle.chart_frames.specs.Frames.{FitsViewHead};
ghost use Rattle.chart_client.specs.declared.errors.ClientError.TheVariants as client;
ghost use Rattle.chart_client.specs.Agreeing.{IsGridOf};
ghost use Rattle.chart_client.specs.Drawing.{DrawsPoints};
ghost use Rattle.chart_client.specs.Holdings.{axis_of, root_of};

use crate::errors::ClientError;
use chart_frames::ViewFrame;
use chart_grid::{Axis, Grid};
use line_raster::Bitmap;
use m4_groups::{Rows, draw_rows};
use om3_coeff::Span;
use std::alloc::Global;

/// The grid of a view.
pub(crate) fn grid_of(view: &ViewFrame) -> Grid
    requires { FitsViewHead view.now }
    ensures { IsGridOf view.now result }
{
    let Ok(grid) = Grid::new(
        i128::from(view.t0),
        i128::from(view.t1),
        u64::from(view.w),
        u64::from(view.h),
    ) else {
        unreachable!()
    };
    grid
}

/// The times of the slots of a view's series.
pub(crate) fn axis_of(view: &ViewFrame) -> Axis
    ensures { result ≡ axis_of view.now }
{
    Axis {
        start: view.start,
        step: view.step,
        slots: view.slots,
    }
}

/// The span of all slots of a view's series.
pub(crate) fn root_of(view: &ViewFrame) -> Option<Span>
    ensures { result ≡ root_of view.now }
{
    if view.has == 1 {
        Some(Span {
            min: view.rmin,
            max: view.rmax,
        })
    } else {
        None
    }
}

/// The picture of rows on a canvas of w by h pixels, over the values from lo to hi.
pub(crate) fn picture_of(
    alloc: Global,
    w: u16,
    h: u16,
    rows: &Rows,
    lo: i64,
    hi: i64,
) -> Result<Bitmap, ClientError>
    requires some_columns { 1 ≤ w }
    requires columns { w ≤ 4096 }
    requires some_rows { 1 ≤ h }
    requires high { h ≤ 4096 }
    requires range { lo ≤ℤ hi }
    requires low_end { IsValue lo }
    requires high_end { IsValue hi }
    requires rising { AreRising rows.now }
    requires drawable { All (IsDrawable w) rows.now }
    ensures wide { IfOk result (λ drawing. drawing.w ≡ w) }
    ensures tall { IfOk result (λ drawing. drawing.h ≡ h) }
    ensures draws { (grid : Grid) (points : List (ℤ × ℤ)) (of : List Row) → HasCanvas grid w h → AreInOrder grid points
        → AreRowsOf grid points of →
        HaveSameHeights lo hi h rows.now of → IfOk result (DrawsPoints grid lo hi points) }
    ensures failed { IfErr result (λ e. e ≡ client.NoMemory) }
{
    let mut bitmap = Bitmap::new(alloc, w, h)?;
    draw_rows(&mut bitmap, rows, lo, hi);
    Ok(bitmap)
}
