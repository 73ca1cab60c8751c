//! Two series of a store as the two trees of a chart of their sum, the rows of this chart, and the chart itself:
//! `a * x + b * y` at each time at which both store a value.
//!
//! A pair borrows its store and selects the one or the other of its series, whichever is asked; the pages on the way to a
//! key are found again in the cache of the store. So no third series is built, and only pages are read: whatever comes of
//! a chart, the book stays, at each moment too.
//!
//! Which names and which words ask for a chart, and its bytes, are left to the layer above.
#![tactic(auto)]

mod drawing;
pub mod laws;
mod shifts;
mod store_pair;
mod sum_error;
mod two_trees;

pub use drawing::{chart_of_sum, rows_of_sum, shown_range};
pub use shifts::shift_of;
pub use sum_error::SumError;
