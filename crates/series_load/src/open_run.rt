//! The run of readings that stands open.
ghost use Rattle.std.specs.Prelude.{◌≡◌, ◌<◌, ◌≤◌, ◌+◌, ◌^◌, ◌-ℤ◌, ◌++◌, ◌∷◌, ◌↔◌, [], pos, length, map, Some, unsigned_abs, IsTrue, IfOk};
ghost use Rattle.std.specs.Prelude.{IfErr, OnOk};
ghost use Rattle.series_book.specs.declared.edits.Edit.TheVariants.{Set};
ghost use Rattle.run_ends.specs.declared.ending.End.TheVariants.{NoMemory};

use run_ends::End;
use series_book::limits::MOST_VALUES;
use series_book::{Edit, Name, Values};
use std::alloc::Global;

/// A time with its value.
#[derive(Clone, Copy)]
pub(crate) struct Reading {
    pub(crate) time: i128,
    pub(crate) value: i128,
}

/// Readings that follow each other by a step, of which the first line begins at `at`. There is none where
/// there are no values.
#[derive(Drop)]
pub(crate) struct OpenRun {
    pub(crate) at: u32,
    pub(crate) time: i128,
    pub(crate) last: i128,
    pub(crate) values: Vec<i128>,
    ghost near: { unsigned_abs last < 10 ^ 19 },
}

impl OpenRun {
    /// No reading, and room for a whole run.
    pub(crate) fn new(alloc: Global) -> Result<OpenRun, End>
        ensures none { IfOk result (λ run. run.values.items ≡ []) }
        ensures err { IfErr result (λ e. e ≡ NoMemory) }
    {
        let Ok(values) = Vec::with_capacity(alloc, MOST_VALUES) else {
            return Err(End::NoMemory);
        };
        Ok(OpenRun {
            at: 0,
            time: 0,
            last: 0,
            values,
        })
    }

    /// Whether the reading goes on with the run.
    pub(crate) fn is_followed_by(&self, next: &Reading, step: u32) -> bool
        requires near { unsigned_abs next.now.time < 10 ^ 19 }
        ensures { IsTrue result ↔ (0 < length self.now.values.items) × (next.now.time -ℤ self.now.last ≡ pos step) }
    {
        !self.values.is_empty() && differ_by(self.last, next.time, step)
    }

    /// Begins a run with this reading, whose line begins at `at`.
    pub(crate) fn begin(&mut self, at: u32, next: &Reading) -> Result<(), End>
        requires near { unsigned_abs next.now.time < 10 ^ 19 }
        requires none { self.old.values.items ≡ [] }
        ensures at { OnOk result (self.new.at ≡ at) }
        ensures time { OnOk result (self.new.time ≡ next.now.time) }
        ensures last { OnOk result (self.new.last ≡ next.now.time) }
        ensures values { OnOk result (self.new.values.items ≡ next.now.value ∷ []) }
        ensures err { IfErr result (λ e. e ≡ NoMemory) }
    {
        self.at = at;
        self.time = next.time;
        self.push(next)
    }

    /// Goes on with this reading.
    pub(crate) fn push(&mut self, next: &Reading) -> Result<(), End>
        requires near { unsigned_abs next.now.time < 10 ^ 19 }
        ensures at { self.new.at ≡ self.old.at }
        ensures time { self.new.time ≡ self.old.time }
        ensures last { self.new.last ≡ next.now.time }
        ensures values { OnOk result (self.new.values.items ≡ self.old.values.items ++ next.now.value ∷ []) }
        ensures err { IfErr result (λ e. e ≡ NoMemory) }
    {
        self.last = next.time;
        if self.values.push(next.value).is_err() {
            return Err(End::NoMemory);
        }
        Ok(())
    }

    /// Whether the run has as many readings as a set may have values.
    pub(crate) fn is_full(&self) -> bool
        ensures { IsTrue result ↔ 256 ≤ length self.now.values.items }
    {
        self.values.len() >= MOST_VALUES
    }

    /// The set of the run.
    pub(crate) fn to_set(&self, alloc: Global, name: &Name) -> Result<Edit, End>
        ensures set { IfOk result (λ edit. edit ≡ Set name.now self.now.time (map Some self.now.values.items)) }
        ensures err { IfErr result (λ e. e ≡ NoMemory) }
    {
        let Ok(name) = name.copy() else {
            return Err(End::NoMemory);
        };
        let slots = slots_of(alloc, self.values.as_slice())?;
        Ok(Edit::Set {
            name,
            time: self.time,
            values: Values::from_vec(slots),
        })
    }
}

/// Whether the later time is so much behind the other.
fn differ_by(last: i128, time: i128, step: u32) -> bool
    requires last { unsigned_abs last < 10 ^ 19 }
    requires time { unsigned_abs time < 10 ^ 19 }
    ensures { IsTrue result ↔ time -ℤ last ≡ pos step }
{
    time - last == i128::from(step)
}

/// These values, none of them missing.
fn slots_of(alloc: Global, values: &[i128]) -> Result<Vec<Option<i128>>, End>
    ensures slots { IfOk result (λ slots. slots.items ≡ map Some values.now) }
    ensures err { IfErr result (λ e. e ≡ NoMemory) }
{
    let Ok(mut slots) = Vec::with_capacity(alloc, values.len()) else {
        return Err(End::NoMemory);
    };
    for value in values {
        if slots.push(Some(*value)).is_err() {
            return Err(End::NoMemory);
        }
    }
    Ok(slots)
}
