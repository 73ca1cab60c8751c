//! Live views: sessions that follow their last view, so that what an edit changed is pushed to them.
//!
//! A stepper answers lines one by one, as a service over pages does (`Stepper`). `Live` stands between it and
//! what sends its frames: it answers `follow N` and `unfollow N` itself, and hands each other line to the stepper.
//! After an edit that was done, a push is pending for each followed session whose last view is of that series:
//! the stepper's answer to a zoom to that view's own window, which sends just what the client lacks.
//!
//! Between calls the followed sessions are open, at most 16, and stand in rising order without doubles; so do
//! those with a pending push, and each of these has had a view. No line is answered while a push is pending.
//!
//! What frames mean, and how they are sent, is left to the layers around this one.
#![tactic(auto)]

pub mod errors;
pub mod following;
mod grouping;
pub mod laws;
pub mod live;
pub mod live_lines;
pub mod meaning;
mod numbers;
mod passing;
pub mod stepper;
pub mod stepper_work;
mod stepping;
mod streams;
mod working;

pub use errors::LiveFault;
pub use live::Live;
pub use stepper::Stepper;
pub use stepper_work::StepperWork;
