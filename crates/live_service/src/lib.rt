//! A service answers the lines of sessions that follow their views.
//!
//! - A `ServiceStepper` is a service as what answers the lines of a `Live` (live_view): its relations are the
//!   contracts of the service's own calls.
//! - `step_line` and `push` say over the plain book what a live service answers: a line by the reply that the
//!   service gives, or by a frame of kind 7; and behind an edit that was done, for each session that follows its
//!   series, by rising number, the reply to a zoom to that view's own window.
//! - `step_edits` says the same of edits that are done together: behind them one push for each session that follows one of
//!   their series.
//! - Of what was pushed the client draws the chart of the book behind the edit (`laws`).
//!
//! Between calls what holds of a service and of a `Live` holds. A push commits nothing: a crash leaves then what it
//! might have left before. How lines come and frames are sent is left to the layer above.
#![tactic(auto)]

pub mod answering;
pub mod laws;
pub mod stepper;
mod stepping;
mod streams;

pub use answering::{push, step_edits, step_line};
pub use stepper::ServiceStepper;
