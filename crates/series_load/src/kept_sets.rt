//! The sets of runs that have ended and aren't done yet.
ghost use Rattle.std.specs.Prelude.{◌≡◌, ◌++◌, ◌∷◌, [], IfOk, IfErr, OnOk};
ghost use Rattle.series_book.specs.Edits.{IsEdit};
ghost use Rattle.series_load.specs.Sets.{AreEdits};
ghost use Rattle.run_ends.specs.declared.ending.End.TheVariants.{NoMemory};

use run_ends::End;
use series_book::Edit;
use std::alloc::Global;

/// So many sets are kept at most. A take brings fewer sets of 256 readings; so only where runs are short are sets done
/// before the next take, since there are too many of them.
const MOST_SETS: usize = 512;

/// Sets of runs that have ended, in order, and the offset of the first line of each run.
#[derive(Drop)]
pub(crate) struct KeptSets {
    pub(crate) sets: Vec<Edit>,
    pub(crate) ats: Vec<u32>,
}

impl KeptSets {
    /// No set, and room for as many as are kept.
    pub(crate) fn new(alloc: Global) -> Result<KeptSets, End>
        ensures sets { IfOk result (λ kept. kept.sets.items ≡ []) }
        ensures ats { IfOk result (λ kept. kept.ats.items ≡ []) }
        ensures err { IfErr result (λ e. e ≡ NoMemory) }
    {
        let Ok(sets) = Vec::with_capacity(alloc, MOST_SETS) else {
            return Err(End::NoMemory);
        };
        let Ok(ats) = Vec::with_capacity(alloc, MOST_SETS) else {
            return Err(End::NoMemory);
        };
        Ok(KeptSets { sets, ats })
    }

    /// Whether no more sets are kept than these.
    pub(crate) fn is_full(&self) -> bool {
        self.sets.len() >= MOST_SETS
    }

    /// Keeps a set behind the others, of a run whose first line begins at `at`.
    pub(crate) fn push(&mut self, at: u32, set: Edit) -> Result<(), End>
        requires is_edit { IsEdit set }
        ensures sets { OnOk result (self.new.sets.items ≡ self.old.sets.items ++ set ∷ []) }
        ensures ats { OnOk result (self.new.ats.items ≡ self.old.ats.items ++ at ∷ []) }
        ensures edits { AreEdits self.old.sets.items self.old.ats.items → AreEdits self.new.sets.items self.new.ats.items }
        ensures err { IfErr result (λ e. e ≡ NoMemory) }
    {
        if self.ats.push(at).is_err() {
            return Err(End::NoMemory);
        }
        if self.sets.push(set).is_err() {
            return Err(End::NoMemory);
        }
        Ok(())
    }

    /// Keeps none of them.
    pub(crate) fn clear(&mut self)
        ensures sets { self.new.sets.items ≡ [] }
        ensures ats { self.new.ats.items ≡ [] }
    {
        self.sets.clear();
        self.ats.clear();
    }
}
