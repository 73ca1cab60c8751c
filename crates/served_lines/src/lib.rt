//! The lines of a service's streams are answered by the one loop over lines (line_runs).
//!
//! `answer_lines` answers the lines of the stream that stands beside the pages of a service, each by the bytes that a `Reply`
//! makes of its frame. Edits whose lines stand ready are kept back, and are done and answered together.
#![tactic(auto)]

mod answers;
mod keeping;
mod line_work;
mod serving;
mod settling;
mod turns;

pub use answers::answer_lines;
pub use serving::serve;
