//! The lines of a live service's streams are answered by the one loop over lines (line_runs).
//!
//! - `answer_line` and `refuse_line` answer one line, and make the pushes behind it; each frame is sent before the next is
//!   made. specs/Lives.antt says what a run of them is, as events in a row.
//! - A host keeps edits back whose lines stand ready, and does them together; behind their replies each session that follows
//!   one of their series gets one push. What a line asks of the host alone is answered behind the edits kept back: a report
//!   of the book, or a step of a sweep, whose at most 64 clears are followed by pushes as edits are. specs/Hosts.antt says what
//!   a run of it is.
#![tactic(auto)]

mod answering;
mod host_turns;
mod keeping;
mod line_work;
mod reporting;
mod sending;
mod serving;
mod settling;
mod sweeping;

pub use answering::{answer_line, refuse_line};
pub use serving::{MOST_BYTES, host_lines};
