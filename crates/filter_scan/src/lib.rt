//! The rows of a filtered view, by a walk over the tree of its series.
//!
//! The walk goes down from the top. A key's span says between which values those of its range lie, and
//! the range says between which times; so the filter's answer on that box tells whether the range is
//! passed over, or taken as a whole, or the walk goes on below. A range that is taken as a whole and lies
//! in one column has its least and its greatest value in the span, and two ways down lead to its first
//! and its last value. At a slot the filter itself decides. What is taken goes into a table of the
//! columns' rows.
//!
//! Nodes that agree with a list of slots give the rows of the points that the plan keeps of the list.
//! Nodes that agree with no list give rows that can be drawn.
#![tactic(auto)]

mod ends;
mod rows;
mod scan_error;
mod scans;
mod shares;
mod table;
mod walking;

pub use rows::{m4_rows, rows_of_query};
pub use scan_error::ScanError;
