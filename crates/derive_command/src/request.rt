//! What a line asks for.
use request_lines::RangeWord;
use series_book::Name;

/// A chart of `a * x + b * y` of two stored series x and y.
#[derive(Drop)]
pub struct Request {
    /// The name of x.
    pub first: Name,
    /// The name of y.
    pub second: Name,
    /// At most 10^9 in size.
    pub a: i64,
    /// At most 10^9 in size.
    pub b: i64,
    /// The columns of the canvas, in range or not.
    pub w: u64,
    /// The rows of the canvas, in range or not.
    pub h: u64,
    /// The first time of the window, in range or not.
    pub t0: i128,
    /// The time after the last of the window, in range or not.
    pub t1: i128,
    /// The range of values, in range or not.
    pub range: RangeWord,
}
