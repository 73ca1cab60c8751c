//! The lines that only `host` answers, and what they ask.
//!
//! A line is a list of tokens with exactly one space between two of them, as a request line is (request_lines):
//!
//!     list                                     values NAME T0 T1
//!     sum N NAME NAME A B W H T0 T1 RANGE      sweep before NAME T
//!     sweep last NAME COUNT                    sweep free PAGES
//!
//! Behind `sum N` stands a line of `derive`, and behind `sweep` one of `retain`. A line that begins as one of these and
//! isn't one is bad at the first token that its place doesn't allow, or at its end where a token is missing. All other
//! lines, and those of more than 8,192 bytes, are left to the layer above, as is what a line does.
#![tactic(auto)]

mod asked;
mod faults;
pub mod laws;
mod lines;
mod places;
mod words;

pub use asked::HostLine;
pub use lines::host_line;
