//! The command `host`: request lines are answered by frames over the store of a disk, as `live` answers them, but edits whose
//! lines stand ready are done together, and behind a group each session that follows one of its series gets one push.
//!
//! The loop is that of hosted_lines; this crate opens the store, and gives the disk back. At each moment a crash leaves the
//! book with each edit whose Done was sent whole, and with at most 64 edits more.
//!
//! The words of the command line are for the layer above.
#![tactic(auto)]

mod command;
pub mod laws;

pub use command::host;
