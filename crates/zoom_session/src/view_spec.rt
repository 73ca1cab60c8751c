ghost use Rattle.std.specs.Prelude.{◌≡◌, IfOk};

use chart_grid::Grid;
use std::alloc::AllocError;
use value_filter::Filter;

/// The range of values that a view shows.
#[derive(Clone, Copy)]
pub enum RangeSpec {
    /// From the least to the greatest value that the view keeps.
    Auto,
    /// From lo to hi: lo isn't above hi, and both are at most 10^18 in size.
    Fixed { lo: i64, hi: i64 },
}

/// What a view shows: a series by its place in the book, the window and the canvas, the range, and the
/// filter of the points, where it has one.
#[derive(Drop)]
pub struct ViewSpec {
    /// Below 512.
    pub series: u16,
    pub grid: Grid,
    pub range: RangeSpec,
    pub filter: Option<Filter>,
}

impl ViewSpec {
    /// An equal view.
    pub fn copy(&self) -> Result<ViewSpec, AllocError>
        ensures { IfOk result (λ copy. copy ≡ self.now) }
    {
        let filter = copy_of(&self.filter)?;
        Ok(ViewSpec {
            series: self.series,
            grid: self.grid,
            range: self.range,
            filter,
        })
    }
}

/// An equal filter, where there is one.
fn copy_of(filter: &Option<Filter>) -> Result<Option<Filter>, AllocError>
    ensures { IfOk result (λ copy. copy ≡ filter.now) }
{
    match filter {
        Some(filter) => {
            let copy = filter.copy()?;
            Ok(Some(copy))
        }
        None => Ok(None),
    }
}
