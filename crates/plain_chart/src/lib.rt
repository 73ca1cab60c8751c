//! What a chart shows, and the plain program that draws it: every segment between consecutive samples.
//!
//! `specs/` has the definitions that the layers above cite: the samples that a view keeps, the range
//! of their values, their places on the canvas, and the chart. The functions here compute them slot
//! by slot, for small inputs and for comparison: a faster body keeps their contract.
#![tactic(auto)]

mod drawing;
mod range;
mod sample;
mod select;
mod value_range;

pub use drawing::{draw, point_of};
pub use range::range_of;
pub use sample::Sample;
pub use select::{sample_at, time_of};
pub use value_range::ValueRange;
