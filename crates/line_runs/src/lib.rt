//! One loop over the lines of an input.
//!
//! What a line does is a `LineWork`: it says in ghost members what a line does to a state and sends, how it may stop, and
//! what a crash leaves meanwhile; and the same of a pause, which comes before each take, and of the end of the input.
//! It names its `limit` too: lines come from so many first bytes of the input.
//! `run_lines` gives each line to the work, and its contract says of any such work what was done at the end of the input,
//! at a fault of the input, at a line that stopped it, and at each moment. Of what it answers `run_end` makes the end of a
//! run whose work says by an `End` why it stopped.
#![tactic(auto)]

mod ending;
mod line_work;
mod lines_stop;
mod running;

pub use ending::{run_end, stop_end};
pub use line_work::LineWork;
pub use lines_stop::LinesStop;
pub use running::run_lines;
