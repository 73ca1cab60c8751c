//! Filtered views as plans: which slots to look at, and what is left to ask of each of them.
//!
//! A query is a view of a series, with its filter where it has one. A plan has a range of slots, whose
//! times all lie in the view's window, and the filter that is left. It keeps exactly the points that
//! the query keeps. Slots at both ends at which the filter holds of no value are cut off, so a bound
//! on `t` that every kept point meets ends up in the range; and a filter that holds of every value at
//! every slot of the range is dropped. Both are read off the filter's answers on boxes, which take a
//! `not` as exactly as if it stood at the comparisons below it.
//!
//! How much a plan simplifies is left open. What gives the points' values is left to the layers above.
#![tactic(auto)]

mod queries;
mod rewriting;
mod slots;
mod trimming;

pub use queries::{Plan, ViewQuery};
pub use rewriting::rewrite;
pub use slots::{on_slots, time_of};
