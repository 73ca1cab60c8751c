//! Sums of two series, `a * x + b * y` at each time where both store a value, found by branch and bound.
//!
//! Neither series is read whole. Of a range of slots the two trees tell between which values x and y lie
//! there, and so between which numbers the sums do; a range whose sums can't be less than what was found
//! already is passed over.
//!
//! Where the trees are those of two lists of slots, what is found is what stands in the list of the sums, and the rows
//! are those of a chart of that list. Which series they are, and the drawing, is left to the layers above.
#![tactic(auto)]

mod beside;
mod bounds;
mod column_row;
mod derived_error;
mod ends;
mod grids;
pub mod laws;
mod list_pair;
mod products;
mod rows;
mod searches;
mod slots;
mod sum;
mod times;
mod trees;

pub use derived_error::DerivedError;
pub use ends::{first_large_sum, first_sum, last_sum};
pub use grids::shift_between;
pub use list_pair::ListPair;
pub use rows::derived_rows;
pub use searches::{Best, best_sum};
pub use sum::Sum;
pub use trees::TwoTrees;
