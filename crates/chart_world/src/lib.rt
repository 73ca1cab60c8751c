//! The lines of the input, and the worlds that they come from.
//!
//! `Lines` takes pieces of a stream and gives one line at a time. Its invariant: the bytes taken are
//! those of the lines given and those pending behind them, in that order. `MemWorld` is a stream in
//! memory, which fails where it is told to. `StdWorld` is standard input and output.
//! A line's meaning, and what a fault ends, are for the layer above.
#![tactic(auto)]

mod count_one;
mod feed;
mod gather;
mod laws;
mod line_answer;
mod lines;
mod mem_beside;
mod mem_streams;
mod mem_world;
mod place;
mod sent_log;
mod std_world;

pub use laws::lines_join_back;
pub use line_answer::{LineAnswer, LineFault};
pub use lines::Lines;
pub use mem_world::MemWorld;
pub use std_world::StdWorld;
