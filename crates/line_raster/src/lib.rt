//! A bitmap of black and white pixels, and the segments and columns that are drawn on it.
//!
//! Column 0 is the leftmost, row 0 the bottom row. A height outside the rows is no error: what lies
//! off the canvas is dropped, and nothing is clamped, so a segment keeps its slope where it is cut.
//!
//! Between calls a bitmap has 1 to 4,096 columns and rows and one cell for each pixel. The cells
//! stand column by column, each from the bottom row upwards, so that a column's run is one slice.
//!
//! How values become columns and heights, and which points are drawn, is left to the layers above.
#![tactic(auto)]

mod drawing;
mod flat;
mod ideal;
mod position;
mod steep;
mod storage;

pub use drawing::{column_fill, segment};
pub use ideal::{column_in_row, ends, row_in_column};
pub use position::Point;
pub use storage::Bitmap;
