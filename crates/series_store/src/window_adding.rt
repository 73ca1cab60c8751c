//! Values are gathered slot by slot.
ghost use Rattle.std.specs.Prelude.{◌≡◌, ◌<◌, ◌^◌, [], ◌∷◌, ◌++◌, IfOk, OnOk};
ghost use Rattle.series_store.specs.WindowReading.{behind_runs};

use crate::slot_run::SlotRun;
use crate::window_values::WindowValues;
use std::alloc::{AllocError, Global};

/// The run of a slot behind these runs, the last of which is taken away where it goes on with the slot.
fn next_run(runs: &mut Vec<SlotRun>, slot: u64) -> Result<SlotRun, AllocError>
    requires small { slot < 2 ^ 63 }
    ensures { IfOk result (λ run. runs.new.items ++ run ∷ [] ≡ behind_runs runs.old.items slot) }
{
    let end = slot + 1;
    let Some(last) = runs.pop() else {
        return Ok(SlotRun { first: slot, end });
    };
    if last.end == slot {
        return Ok(SlotRun {
            first: last.first,
            end,
        });
    }
    runs.push(last)?;
    Ok(SlotRun { first: slot, end })
}

impl WindowValues {
    /// No values. It takes no memory.
    pub(crate) fn new(alloc: Global) -> WindowValues
        ensures runs { result.runs.items ≡ [] }
        ensures stored { result.stored.items ≡ [] }
    {
        WindowValues {
            runs: Vec::new(alloc),
            stored: Vec::new(alloc),
        }
    }

    /// Adds the value of a slot behind those of the slots before it.
    pub(crate) fn add(&mut self, slot: u64, value: i64) -> Result<(), AllocError>
        requires small { slot < 2 ^ 63 }
        ensures runs { OnOk result (self.new.runs.items ≡ behind_runs self.old.runs.items slot) }
        ensures stored { OnOk result (self.new.stored.items ≡ self.old.stored.items ++ value ∷ []) }
    {
        let run = next_run(&mut self.runs, slot)?;
        self.runs.push(run)?;
        self.stored.push(value)?;
        Ok(())
    }
}
