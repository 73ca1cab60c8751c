//! What a line says for a load.
ghost use Rattle.std.specs.Prelude.{◌≡◌, ◌↔◌, IsTrue, IfOk, IfErr};
ghost use Rattle.series_load.specs.Steps.{SaysSo};
ghost use Rattle.series_load.specs.declared.said.Said.{Said};
ghost use Rattle.run_ends.specs.declared.ending.End.TheVariants.{NoMemory};

use crate::open_run::Reading;
use csv_load::{Row, RowError, parse_row};
use run_ends::End;
use std::alloc::Global;

/// What a line says that isn't empty.
#[derive(Clone, Copy)]
pub(crate) enum Said {
    /// The names of the columns, on the first line.
    Header,
    /// A time and its value.
    Point(Reading),
    /// A time without a value.
    Gap,
    /// Nothing that may stand there.
    Bad,
}

impl Said {
    /// Whether the line is bad.
    pub(crate) fn is_bad(self) -> bool
        ensures { IsTrue result ↔ (self ≡ Said.Bad) }
    {
        matches!(self, Said::Bad)
    }
}

/// What the line says, which is the first one or isn't.
pub(crate) fn said_of(alloc: Global, line: &[u8], scale: u8, first: bool) -> Result<Said, End>
    ensures said { IfOk result (λ said. SaysSo scale first line.now said) }
    ensures err { IfErr result (λ e. e ≡ NoMemory) }
{
    match parse_row(alloc, line, scale) {
        Ok(Row::Header) => {
            if first {
                return Ok(Said::Header);
            }
            Ok(Said::Bad)
        }
        Ok(Row::Point { time, value }) => Ok(Said::Point(Reading { time, value })),
        Ok(Row::Skip { .. }) => Ok(Said::Gap),
        Err(RowError::BadRow(_)) => Ok(Said::Bad),
        Err(RowError::NoMemory) => Err(End::NoMemory),
    }
}
