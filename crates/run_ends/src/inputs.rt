//! An input that gives no more lines ends a run.
ghost use Rattle.std.specs.Prelude.{◌≡◌};
ghost use Rattle.run_ends.specs.Faults.{input_end};

use crate::ending::End;
use chart_world::LineFault;

/// How a run ends at a fault of its input.
pub fn input_end(fault: LineFault) -> End
    ensures { result ≡ input_end fault }
{
    match fault {
        LineFault::ReadFault => End::ReadFault,
        LineFault::InputTooLong => End::InputTooLong,
    }
}
