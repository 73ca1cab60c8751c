//! How a run of a command ends: a type with a variant for each cause, and the code and the place that tell of it.
//!
//! A command answers an `End`. `status_of` makes its code and its place, by the table in specs/Statuses.antt; the codes
//! by name are in `codes`. specs/Faults.antt tells the failed call that an end tells of.
#![tactic(auto)]

pub mod codes;
mod ending;
mod inputs;
mod status;

pub use ending::End;
pub use inputs::input_end;
pub use status::{Status, status_of};
