ghost use Rattle.std.specs.Prelude.{IsTrue, ◌↔◌};
ghost use Rattle.series_book.specs.Edits.{IsEdit};

use crate::limits::{GREATEST_SCALE, GREATEST_START, GREATEST_STEP};
use crate::names::Name;
use crate::value_list::Values;

/// A change of a book.
#[derive(Drop)]
pub enum Edit {
    /// Adds an empty series at the end of the book.
    Create {
        name: Name,
        start: i64,
        step: u32,
        scale: u8,
    },
    /// Adds the values, missing ones too, after the last slot.
    Append {
        name: Name,
        values: Values,
    },
    /// Writes the values at consecutive slots from the time on.
    Set {
        name: Name,
        time: i128,
        values: Values,
    },
    /// Makes the slots missing that stand below the length from the time on.
    Clear {
        name: Name,
        time: i128,
        count: u64,
    },
}

impl Edit {
    /// Whether a book can take the edit: start, step and scale are in range, an append or a set has
    /// at least one value, and the values of a set are all there.
    pub fn is_edit(&self) -> bool
        ensures { IsTrue result ↔ IsEdit self.now }
    {
        match self {
            Edit::Create {
                start,
                step,
                scale,
                ..
            } => {
                start.unsigned_abs() <= GREATEST_START
                    && 1 <= *step
                    && *step <= GREATEST_STEP
                    && *scale <= GREATEST_SCALE
            }
            Edit::Append { values, .. } => !values.as_slice().is_empty(),
            Edit::Set { values, .. } => {
                !values.as_slice().is_empty()
                    && values.as_slice().iter().all(|value| value.is_some())
            }
            Edit::Clear { .. } => true,
        }
    }
}
