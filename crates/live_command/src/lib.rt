//! The command `live`: request lines are answered by frames over the store of a disk, and what an edit changed is pushed.
//!
//! The loop answers each line of the input, and behind it makes the pushes to the sessions that follow the edited series
//! (live_service); each frame is sent before the next is made. specs/Lives.antt says what a run is, as events in a row;
//! specs/Running.antt how far one came. At each moment a crash leaves the book with each edit whose Done was sent whole,
//! and with at most one edit more.
//!
//! The words of the command line are for the layer above.
#![tactic(auto)]

mod command;
pub mod laws;
mod serving;

pub use command::live;
pub use serving::serve_live;
