ghost use Rattle.std.specs.Prelude.{◌≡◌, ◌≢◌, ◌≤◌, ◌^◌, All, length, IfOk, IfErr, IfSome, OnOk, vec_len};
ghost use Rattle.block_disk.specs.Counts.{HasRisen};
ghost use Rattle.plain_chart.specs.Samples.{IsSlot};
ghost use Rattle.chart_world.specs.Reading.{IsReadUp};
ghost use Rattle.chart_program.specs.declared.input.InputEnd.TheVariants.{NoMemory};
ghost use Rattle.chart_program.specs.Slots.{SpellsAll};
ghost use Rattle.chart_program.specs.Reads.{end_of, AddsLine, IsNotAdded, Stops};

use crate::slot::{Entry, entry_of};
use block_disk::Streams;
use chart_world::{LineAnswer, LineFault, Lines};
use std::alloc::{AllocError, AllocFailed, Global};
use thiserror::Error;

/// The most slots of a plot.
pub const MOST_SLOTS: usize = 1_048_576;

/// Why the slots of the input weren't read to the end.
#[derive(Clone, Copy, Debug, Error)]
pub enum InputEnd {
    /// There was no memory for the slots.
    #[error("out of memory")]
    NoMemory,
    /// A take failed. Each line that ended before it was good.
    #[error("the input could not be read")]
    ReadFault,
    /// A byte past 2^32 was taken. Each line that ended before it was good.
    #[error("the input has more than 2^32 bytes")]
    InputTooLong,
    /// The line at this offset of the input is the first that isn't a slot's, and isn't empty.
    #[error("the line at byte {at} is no number")]
    BadLine { at: u64 },
    /// There is a slot more than a plot has.
    #[error("the input has more than 1048576 slots")]
    TooManySlots,
}

impl From<AllocError> for InputEnd {
    ghost from_gives = { λ _ e. e ≡ NoMemory };

    fn from(_error: AllocError) -> InputEnd {
        InputEnd::NoMemory
    }
}

impl<T: Drop> From<AllocFailed<T>> for InputEnd {
    ghost from_gives = { λ _ e. e ≡ NoMemory };

    fn from(_error: AllocFailed<T>) -> InputEnd {
        InputEnd::NoMemory
    }
}

impl From<LineFault> for InputEnd {
    ghost from_gives = { λ fault e. e ≡ end_of fault };

    fn from(fault: LineFault) -> InputEnd {
        match fault {
            LineFault::ReadFault => InputEnd::ReadFault,
            LineFault::InputTooLong => InputEnd::InputTooLong,
        }
    }
}

/// Reads the slots of the input: one a line, and empty lines are passed over.
pub fn read_slots<S: Streams>(alloc: Global, from: &mut S) -> Result<Vec<Option<i64>>, InputEnd>
    ensures all { IfOk result (λ slots. IfSome (S.left from.old) (λ input. SpellsAll input slots.items)) }
    ensures values { IfOk result (λ slots. All IsSlot slots.items) }
    ensures few { IfOk result (λ slots. vec_len slots ≤ MOST_SLOTS) }
    ensures within { OnOk result (IfSome (S.left from.old) (λ input. length input ≤ 2 ^ 32)) }
    ensures whole { OnOk result (IsReadUp (S.left from.old) (S.left from.new)) }
    ensures ends { IfErr result (λ end. IfSome (S.left from.old) (λ input. Stops input (S.left from.new) end)) }
    ensures read { result ≡ Err InputEnd.ReadFault → HasRisen (S.read_faults from.old) (S.read_faults from.new) }
    // nothing is sent, and of the stream nothing changes but by takes
    ensures sent { S.sent from.new ≡ S.sent from.old }
    ensures send_faults { S.send_faults from.new ≡ S.send_faults from.old }
    ensures quiet_reads { result ≢ Err InputEnd.ReadFault → S.read_faults from.new ≡ S.read_faults from.old }
    ensures read_faults { S.read_faults from.old ≤ S.read_faults from.new }
    ensures beside { S.takes from.old from.new }
{
    let mut lines = Lines::new(alloc)?;
    let mut slots = Vec::new(alloc);
    'lines: loop {
        match lines.next(from)? {
            LineAnswer::End => return Ok(slots),
            LineAnswer::TooLong => return Err(InputEnd::BadLine { at: lines.offset() }),
            LineAnswer::Line => add_line(&mut slots, lines.line(), lines.offset())?,
        }
    }
}

/// Adds the slot of a line, which begins at the offset `at`, to those before it.
fn add_line(slots: &mut Vec<Option<i64>>, line: &[u8], at: u64) -> Result<(), InputEnd>
    requires { vec_len slots.old ≤ MOST_SLOTS }
    ensures done { OnOk result (AddsLine line.now slots.old.items slots.new.items) }
    ensures ends { IfErr result (IsNotAdded line.now at slots.old.items) }
{
    match entry_of(line) {
        Entry::Nothing => Ok(()),
        Entry::Bad => Err(InputEnd::BadLine { at }),
        Entry::Slot(_) if slots.len() == MOST_SLOTS => Err(InputEnd::TooManySlots),
        Entry::Slot(slot) => {
            slots.push(slot)?;
            Ok(())
        }
    }
}
