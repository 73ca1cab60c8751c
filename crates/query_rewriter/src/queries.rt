use chart_grid::{Axis, Grid};
use value_filter::Filter;

/// A view of a series, and the filter of its points, where it has one.
#[derive(Drop)]
pub struct ViewQuery {
    pub axis: Axis,
    pub grid: Grid,
    pub filter: Option<Filter>,
}

/// The slots from the first number on and below the second one, and the filter of their points, where
/// one is left.
#[derive(Drop)]
pub struct Plan {
    pub grid: Grid,
    pub slots: (u64, u64),
    pub filter: Option<Filter>,
}
