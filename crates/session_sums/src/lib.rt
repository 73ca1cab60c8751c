//! What `host` answers of its store for a line of its own.
//!
//! The reply to a request of `derive` for a session is one frame: the rows of `a * x + b * y`, as those of a filtered view,
//! or the refusal that stands against it, with the number that `derive` tells. specs/Sums.antt says of the plain book which.
//! Pages are read, and nothing else changes: a session keeps what it was answered last.
//!
//! That a session is open, and the lines, are left to the layer above.
#![tactic(auto)]

mod sums;

pub use sums::sum_frame;
