//! How a run ended whose work says it by an `End`.
ghost use Rattle.std.specs.Prelude.{◌≡◌};
ghost use Rattle.line_runs.specs.Ends.{run_end, stop_end};

use crate::lines_stop::LinesStop;
use run_ends::{End, input_end};

/// The end that a stop is: that of the work, or of the input.
pub fn stop_end(stop: LinesStop<End>) -> End
    ensures { result ≡ stop_end stop }
{
    match stop {
        LinesStop::Fault(fault) => input_end(fault),
        LinesStop::Work(end) => end,
    }
}

/// How a run ended by what `run_lines` answers.
pub fn run_end(answer: Result<(), LinesStop<End>>) -> End
    ensures { result ≡ run_end answer }
{
    match answer {
        Ok(()) => End::Done,
        Err(stop) => stop_end(stop),
    }
}
