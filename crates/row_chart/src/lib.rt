//! The chart of a series' slots, drawn from at most four values a column.
//!
//! Samples are gathered one by one. Each column is drawn once, from the first, the least, the greatest
//! and the last value that its slots store, however many they are. The picture is the same as that of
//! every segment between consecutive samples, pixel for pixel.
//!
//! Nothing is kept between calls. Which range of values is shown is left to the layer above.
#![tactic(auto)]

mod drawing;
mod gathering;
mod range;

pub use drawing::chart_of_rows;
pub use gathering::rows_of_slots;
pub use range::range_of_rows;
