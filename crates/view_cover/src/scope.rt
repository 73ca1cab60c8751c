ghost use Rattle.std.specs.Prelude.{◌≡◌, ◌<◌, ◌≤◌, ◌^◌, ◌≤ℤ◌};
ghost use Rattle.chart_grid.specs.Slots.{AreSlotsBefore};

use chart_grid::laws::borders_part_columns;
use chart_grid::{Axis, Grid, later};
use om3_coeff::{Key, Span};

/// What a view draws: the slots of its window, those from `from` on and below `end`; the range of
/// values, from `lo` to `hi`; and the span of all slots.
#[derive(Clone, Copy)]
pub struct Scope {
    pub(crate) axis: Axis,
    pub(crate) grid: Grid,
    pub(crate) lo: i64,
    pub(crate) hi: i64,
    pub(crate) root: Option<Span>,
    pub(crate) from: u64,
    pub(crate) end: u64,
    ghost few: { axis.slots ≤ 2 ^ 35 },
    ghost step: { 0 < axis.step },
    ghost range: { lo ≤ℤ hi },
    ghost start: { AreSlotsBefore axis grid.t0 from },
    ghost stop: { AreSlotsBefore axis grid.t1 end },
}

impl Scope {
    ghost use Rattle.std.specs.Prelude.{◌≡◌, ℕ, ◌<◌, ◌≤◌, ◌≤ℤ◌, ◌^◌, ◌↔◌, IfSome, IfNone, IsTrue};
    ghost use Rattle.chart_grid.specs.Projection.{InWindow};
    ghost use Rattle.chart_grid.specs.Slots.{IsInColumn, slot_time};
    ghost use Rattle.om3_coeff.specs.Keys.{end_slot};
    ghost use Rattle.view_cover.specs.Scene.{IsDrawnIn};
    ghost use Rattle.view_cover.specs.Walk.{AreColumnsIn};
    ghost use Rattle.view_cover.specs.Across.{is_across, IsAcross};

    /// The scope of a view.
    pub fn of(axis: Axis, grid: Grid, lo: i64, hi: i64, root: Option<Span>) -> Scope
        requires few { axis.slots ≤ 2 ^ 35 }
        requires step { 0 < axis.step }
        requires range { lo ≤ℤ hi }
        ensures axis { result.axis ≡ axis }
        ensures grid { result.grid ≡ grid }
        ensures lo { result.lo ≡ lo }
        ensures hi { result.hi ≡ hi }
        ensures root { result.root ≡ root }
    {
        borders_part_columns();
        let (from, _) = grid.slot_range(axis, 0);
        let (_, end) = grid.slot_range(axis, grid.w() - 1);
        Scope {
            axis,
            grid,
            lo,
            hi,
            root,
            from,
            end,
        }
    }

    /// The time of a slot that is drawn.
    fn time_of(&self, slot: u64) -> i64
        requires from { self.now.from ≤ slot }
        requires end { slot < self.now.end }
        ensures time { result ≡ slot_time self.now.axis slot }
        ensures shown { InWindow self.now.grid result }
    {
        let start = self.axis.start;
        later(start, slot * u64::from(self.axis.step))
    }

    /// The column in which a slot is drawn.
    fn column_of(&self, slot: u64) -> u16
        requires from { self.now.from ≤ slot }
        requires end { slot < self.now.end }
        ensures { IsInColumn self.now.axis self.now.grid result slot }
    {
        self.grid.column_of(self.time_of(slot))
    }

    /// The columns in which the first and the last drawn slot of a key's range are drawn, if there are
    /// such slots.
    pub(crate) fn columns_of(&self, key: Key) -> Option<(u16, u16)>
        requires { end_slot key < 2 ^ 63 }
        ensures columns { IfSome result (λ columns. AreColumnsIn self.now.axis self.now.grid key columns.0 columns.1) }
        ensures none { IfNone result ((c : ℕ) → IsDrawnIn self.now.axis self.now.grid key c → ⊥) }
    {
        let first = key.first().max(self.from);
        let end = key.end().min(self.end);
        if first >= end {
            return None;
        }
        let left = self.column_of(first);
        let right = self.column_of(end - 1);
        Some((left, right))
    }

    /// Whether a key's range meets the slots of some column and isn't within them.
    pub fn is_across(&self, key: Key) -> bool
        requires { end_slot key < 2 ^ 63 }
        ensures test { result ≡ is_across self.now key }
        ensures across { IsTrue result ↔ IsAcross self.now.axis self.now.grid key }
    {
        let first = key.first();
        let end = key.end();
        if end <= self.from {
            return false;
        }
        if self.end <= first {
            return false;
        }
        if first < self.from {
            return self.from < self.end;
        }
        if self.end < end {
            return true;
        }
        self.column_of(first) != self.column_of(end - 1)
    }
}
