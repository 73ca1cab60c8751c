ghost use Rattle.std.specs.Prelude.{◌<◌, ◌≤◌};
ghost use Rattle.query_rewriter.specs.Scans.{AreShown};

use chart_grid::{Axis, Grid};
use query_rewriter::{Plan, time_of};

/// The slots that a plan looks at: those from `from` on and below `end`, all in its window.
#[derive(Clone, Copy)]
pub(crate) struct Scan {
    pub(crate) axis: Axis,
    pub(crate) grid: Grid,
    pub(crate) from: u64,
    pub(crate) end: u64,
    ghost step: { 0 < axis.step },
    ghost within: { end ≤ axis.slots },
    ghost shown: { AreShown axis grid from end },
}

impl Scan {
    ghost use Rattle.std.specs.Prelude.{◌≡◌};
    ghost use Rattle.chart_grid.specs.Projection.{column};
    ghost use Rattle.chart_grid.specs.Slots.{slot_time};
    ghost use Rattle.query_rewriter.specs.Scans.{IsScan};

    /// The slots of a plan.
    pub(crate) fn of(axis: Axis, plan: &Plan) -> Scan
        requires step { 0 < axis.step }
        requires scan { IsScan axis plan.now }
        ensures axis { result.axis ≡ axis }
        ensures grid { result.grid ≡ plan.now.grid }
        ensures from { result.from ≡ plan.now.slots.0 }
        ensures end { result.end ≡ plan.now.slots.1 }
    {
        Scan {
            axis,
            grid: plan.grid,
            from: plan.slots.0,
            end: plan.slots.1,
        }
    }

    /// The time of one of the slots.
    pub(crate) fn time_of(&self, slot: u64) -> i64
        requires from { self.now.from ≤ slot }
        requires end { slot < self.now.end }
        ensures { result ≡ slot_time self.now.axis slot }
    {
        time_of(self.axis, self.grid, slot)
    }

    /// The column of one of the slots.
    pub(crate) fn column_of(&self, slot: u64) -> u16
        requires from { self.now.from ≤ slot }
        requires end { slot < self.now.end }
        ensures column { result ≡ column self.now.grid (slot_time self.now.axis slot) }
        ensures drawn { result < self.now.grid.w }
    {
        self.grid.column_of(self.time_of(slot))
    }
}
