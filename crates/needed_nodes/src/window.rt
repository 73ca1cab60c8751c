ghost use Rattle.std.specs.Prelude.{◌≡◌, ◌<◌, ◌≤ℤ◌};
ghost use Rattle.chart_grid.specs.Slots.{AreSlotsBefore};

use chart_grid::laws::borders_part_columns;
use chart_grid::{Axis, Grid, later};
use om3_coeff::{Key, Span};
use view_keys::is_flat;

/// The slots that a view shows: those from `from` on and below `end`, at least one; and the range of
/// values, from `lo` to `hi`.
#[derive(Clone, Copy)]
pub(crate) struct Window {
    pub(crate) axis: Axis,
    pub(crate) grid: Grid,
    pub(crate) lo: i64,
    pub(crate) hi: i64,
    pub(crate) from: u64,
    pub(crate) end: u64,
    ghost step: { 0 < axis.step },
    ghost range: { lo ≤ℤ hi },
    ghost start: { AreSlotsBefore axis grid.t0 from },
    ghost stop: { AreSlotsBefore axis grid.t1 end },
    ghost some: { from < end },
}

/// How many columns begin at or before the first and the last slot of a range, as `Window::rank`
/// counts them.
#[derive(Clone, Copy)]
pub(crate) struct Ranks {
    pub(crate) first: u16,
    pub(crate) last: u16,
}

/// How a key's range lies to the columns of a window: it meets none, or it is within one, or a border
/// of a column or an end of the window lies inside it.
#[derive(Clone, Copy)]
pub(crate) enum Place {
    Outside,
    Within(u16),
    Cut,
}

impl Window {
    ghost use Rattle.std.specs.Prelude.{◌≡◌, ℕ, ◌<◌, ◌≤◌, ◌≤ℤ◌, ◌^◌, ◌↔◌, IfSome, IfNone, IsTrue};
    ghost use Rattle.chart_grid.specs.Projection.{InWindow};
    ghost use Rattle.chart_grid.specs.Slots.{IsInColumn, slot_time};
    ghost use Rattle.om3_coeff.specs.declared.key.Key.{Key};
    ghost use Rattle.om3_coeff.specs.Keys.{end_slot, left_of, right_of};
    ghost use Rattle.view_keys.specs.Flat.{IsFlat};
    ghost use Rattle.needed_nodes.specs.Ranks.{rank, AreRanksOf, IsPlace};

    /// The window of a view, or nothing where it shows no slot.
    pub(crate) fn of(axis: Axis, grid: Grid, lo: i64, hi: i64) -> Option<Window>
        requires step { 0 < axis.step }
        requires range { lo ≤ℤ hi }
        ensures axis { IfSome result (λ w. w.axis ≡ axis) }
        ensures grid { IfSome result (λ w. w.grid ≡ grid) }
        ensures lo { IfSome result (λ w. w.lo ≡ lo) }
        ensures hi { IfSome result (λ w. w.hi ≡ hi) }
        ensures none { IfNone result ((c i : ℕ) → IsInColumn axis grid c i → ⊥) }
    {
        borders_part_columns();
        let (from, _) = grid.slot_range(axis, 0);
        let (_, end) = grid.slot_range(axis, grid.w() - 1);
        if from < end {
            Some(Window {
                axis,
                grid,
                lo,
                hi,
                from,
                end,
            })
        } else {
            None
        }
    }

    /// The time of a slot of the window.
    fn time_of(&self, slot: u64) -> i64
        requires from { self.now.from ≤ slot }
        requires end { slot < self.now.end }
        ensures time { result ≡ slot_time self.now.axis slot }
        ensures shown { InWindow self.now.grid result }
    {
        let start = self.axis.start;
        later(start, slot * u64::from(self.axis.step))
    }

    /// How many columns begin at or before a slot, and one more where it lies behind the window: 0
    /// before the window, c + 1 in column c, w + 1 behind the window.
    fn rank(&self, slot: u64) -> u16
        ensures { result ≡ rank self.now slot }
    {
        if slot < self.from {
            return 0;
        }
        if self.end <= slot {
            return self.grid.w() + 1;
        }
        self.grid.column_of(self.time_of(slot)) + 1
    }

    /// Whether the least and the greatest value of a span have one height.
    pub(crate) fn is_flat(&self, span: Span) -> bool
        ensures { IsTrue result ↔ IsFlat self.now.lo self.now.hi self.now.grid.h span }
    {
        is_flat(span, self.lo, self.hi, self.grid.h())
    }

    /// The ranks of a key's range.
    pub(crate) fn ranks_of(&self, key: Key) -> Ranks
        requires { end_slot key < 2 ^ 63 }
        ensures { AreRanksOf self.now key result }
    {
        Ranks {
            first: self.rank(key.first()),
            last: self.rank(key.end() - 1),
        }
    }

    /// The ranks of the two halves of a key's range, whose own are known. A rank costs a division, and two
    /// of the four are those of the whole.
    pub(crate) fn ranks_of_halves(&self, key: Key, ranks: Ranks) -> (Ranks, Ranks)
        requires low { 1 ≤ key.level }
        requires fits { end_slot key < 2 ^ 63 }
        requires ranks { AreRanksOf self.now key ranks }
        ensures left { AreRanksOf self.now (left_of key) result.0 }
        ensures right { AreRanksOf self.now (right_of key) result.1 }
    {
        let middle = key.right().first();
        let left = Ranks {
            first: ranks.first,
            last: self.rank(middle - 1),
        };
        let right = Ranks {
            first: self.rank(middle),
            last: ranks.last,
        };
        (left, right)
    }

    /// The place of each range that has these ranks.
    pub(crate) fn place_of(&self, ranks: Ranks) -> Place
        ensures { (key : Key) → AreRanksOf self.now key ranks → IsPlace self.now key result }
    {
        if ranks.first != ranks.last {
            return Place::Cut;
        }
        if ranks.first == 0 || ranks.first > self.grid.w() {
            return Place::Outside;
        }
        Place::Within(ranks.first - 1)
    }
}
