//! The words of the program's command line as a command.
//!
//! `command_of` reads them by `clap`, as one command with a required word and a list of operands, without flags of its
//! own, help or version: the words behind the first `--` stand for themselves, and it is none of them. Then it takes the
//! command and its operands: two numbers of a plot, the name of a series, the seed of a workload and its rounds, or
//! nothing. Where the words are no command's it names the first wrong one. No state is kept. What a command does is for
//! the layer above.
#![tactic(auto)]

mod errors;
mod reading;
mod stores;
mod words;

pub use stores::uses_no_store;
pub use words::{Command, WordsEnd, command_of};
