//! A request whose series, window, canvas and range are good.
use chart_grid::Grid;
use derived_chart::Sum;
use plain_chart::ValueRange;

/// What a request asks for.
#[derive(Clone, Copy)]
pub struct Asked {
    /// The id of the first series.
    pub x: u16,
    /// The id of the second one.
    pub y: u16,
    pub sum: Sum,
    pub grid: Grid,
    /// None is from the least to the greatest sum.
    pub range: Option<ValueRange>,
}
