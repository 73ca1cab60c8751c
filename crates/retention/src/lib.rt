//! Old slots of a store are dropped by a rule, in small commits.
//!
//! A rule names the slots before a time, all but the last slots of a series, or as many of the oldest slots as
//! free some pages. specs/Sweeps.antt says of the plain book which clears that makes: one an aligned range
//! of 4,096 slots, or one a page. Each is an edit of its own, so that at each moment a crash leaves the book
//! behind some first of them, and a long sweep can be done in steps.
//!
//! Lines, their answers and the codes of a command are left to the layer above.
#![tactic(auto)]

mod asking;
mod clearing;
mod clears;
mod freeing;
pub mod laws;
mod oldest;
mod rule;
mod sweep_error;
mod sweeping;
mod swept;

pub use clears::slots_before;
pub use rule::Rule;
pub use sweep_error::SweepError;
pub use sweeping::{sweep, sweep_some};
pub use swept::{Swept, SweptSome};
