//! What a view's frame draws.

ghost use Rattle.std.specs.Prelude.{◌≡◌};
ghost use Rattle.chart_frames.specs.Frames.{FitsViewHead};
ghost use Rattle.chart_client.specs.Agreeing.{IsGridOf};
ghost use Rattle.chart_client.specs.Holdings.{axis_of, root_of};

use chart_frames::ViewFrame;
use chart_grid::{Axis, Grid};
use om3_coeff::Span;
use view_cover::Scope;

/// The scope of a view's frame.
pub(crate) fn scope_of(view: &ViewFrame) -> Scope
    requires { FitsViewHead view.now }
    ensures axis { result.axis ≡ axis_of view.now }
    ensures grid { IsGridOf view.now result.grid }
    ensures lo { result.lo ≡ view.now.lo }
    ensures hi { result.hi ≡ view.now.hi }
    ensures root { result.root ≡ root_of view.now }
{
    let axis = Axis {
        start: view.start,
        step: view.step,
        slots: view.slots,
    };
    Scope::of(axis, grid_of(view), view.lo, view.hi, root_of(view))
}

/// The grid of a view's frame.
fn grid_of(view: &ViewFrame) -> Grid
    requires { FitsViewHead view.now }
    ensures { IsGridOf view.now result }
{
    let Ok(grid) = Grid::new(
        i128::from(view.t0),
        i128::from(view.t1),
        u64::from(view.w),
        u64::from(view.h),
    ) else {
        unreachable!()
    };
    grid
}

/// The span of all slots of a view's series.
fn root_of(view: &ViewFrame) -> Option<Span>
    ensures { result ≡ root_of view.now }
{
    if view.has == 1 {
        Some(Span {
            min: view.rmin,
            max: view.rmax,
        })
    } else {
        None
    }
}
