//! The row of one line of a CSV file of readings: a time and a value.
//!
//! Each call reads one line by itself and keeps nothing. The fields are those of the `csv` crate:
//! commas between them, double quotes around one that has commas, a byte order mark at the front
//! dropped. A time is a whole number; a value is a decimal with at most `scale` places, and is given
//! as a whole number of its last place, so that nothing is ever rounded.
//!
//! Left to the layer above: where a line ends, which line may be the header, and what times and
//! values a series takes.
#![tactic(auto)]

mod decimals;
mod fields;
pub mod laws;
mod row;
mod rows;

pub use row::{Row, RowCause, RowError};
pub use rows::parse_row;
