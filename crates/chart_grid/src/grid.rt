ghost use Rattle.std.specs.Prelude.{◌≡◌, ℕ, ℤ, pos, ◌+◌, ◌<◌, ◌≤◌, ◌+ℤ◌, ◌-ℤ◌, ◌*ℤ◌, ◌<ℤ◌, ◌≤ℤ◌, ◌↔◌, ◌⊎◌, IfOk, IfErr, IsOk};
ghost use Rattle.chart_grid.specs.Limits.{IsWindow, IsSide, IsBadWindow, IsBadSide};
ghost use Rattle.chart_grid.specs.Numbers.{IsFloor, distance};

use crate::axis::Axis;
use crate::grid_error::GridError;
use crate::share::{gap, part_of, steps_to};
use crate::times::{is_far, later, moved};

const GREATEST_SIDE: u64 = 4_096;

/// A window of time, from `t0` to below `t1`, drawn on a canvas of `w` columns and `h` rows.
#[derive(Clone, Copy)]
pub struct Grid {
    t0: i64,
    t1: i64,
    w: u16,
    h: u16,
    ghost window: { IsWindow t0 t1 },
    ghost wide: { IsSide w },
    ghost high: { IsSide h },
}

impl Grid {
    ghost use Rattle.chart_grid.specs.Projection.{InWindow, column, ShowsWindow, HasCanvas};
    ghost use Rattle.chart_grid.specs.Slots.{border, IsInColumn, AreSlotsBefore};

    /// The grid of the window from `t0` to below `t1` on `w` columns and `h` rows. It is refused as
    /// `BadWindow` where `t0` isn't below `t1` or an end is more than 2 * 10^18 from 0, else as
    /// `BadCanvas` where `w` or `h` isn't 1 to 4,096.
    pub fn new(t0: i128, t1: i128, w: u64, h: u64) -> Result<Grid, GridError>
        ensures shown { IfOk result (λ g. ShowsWindow g t0 t1 × HasCanvas g w h) }
        ensures accepted { IsWindow t0 t1 → IsSide w → IsSide h → IsOk result }

        // Each refusal comes exactly here.
        ensures window { (result ≡ Err GridError.BadWindow) ↔ IsBadWindow t0 t1 }
        ensures canvas { (result ≡ Err GridError.BadCanvas) ↔ (IsWindow t0 t1 × (IsBadSide w ⊎ IsBadSide h)) }
    {
        if t0 >= t1 || is_far(t0) || is_far(t1) {
            return Err(GridError::BadWindow);
        }
        if w < 1 || w > GREATEST_SIDE || h < 1 || h > GREATEST_SIDE {
            return Err(GridError::BadCanvas);
        }
        Ok(Grid {
            t0: t0 as i64,
            t1: t1 as i64,
            w: w as u16,
            h: h as u16,
        })
    }

    /// The first time of the window.
    pub fn t0(&self) -> i64
        ensures value { result ≡ self.now.t0 }
        ensures window { IsWindow self.now.t0 self.now.t1 }
    {
        self.t0
    }

    /// The time after the last of the window.
    pub fn t1(&self) -> i64
        ensures value { result ≡ self.now.t1 }
        ensures window { IsWindow self.now.t0 self.now.t1 }
    {
        self.t1
    }

    /// The columns of the canvas, 1 to 4,096.
    pub fn w(&self) -> u16
        ensures value { result ≡ self.now.w }
        ensures side { IsSide result }
    {
        self.w
    }

    /// The rows of the canvas, 1 to 4,096.
    pub fn h(&self) -> u16
        ensures value { result ≡ self.now.h }
        ensures side { IsSide result }
    {
        self.h
    }

    /// The column of the time `t` of the window: (t - t0) * w / (t1 - t0), rounded down. It is below
    /// the canvas' width.
    #[tactic(auto, using(crate::proofs::Columns::part_rules))]
    pub fn column_of(&self, t: i64) -> u16
        requires { InWindow self.now t }
        ensures value { result ≡ column self.now t }
        ensures floor { IsFloor ((t -ℤ self.now.t0) *ℤ pos self.now.w) (distance self.now.t0 self.now.t1) (pos result) }
        ensures drawn { result < self.now.w }
    {
        part_of(gap(self.t0, t), self.w, gap(self.t0, self.t1))
    }

    /// Where the column `c` begins: t0 + c * (t1 - t0) / w, rounded up. The times of the window
    /// before it are those of the columns below `c`. The border of column 0 is t0, that of column w
    /// is t1.
    pub fn border(&self, c: u16) -> i64
        requires { c ≤ self.now.w }
        ensures value { result ≡ border self.now c }
        ensures parts { (t : ℤ) → InWindow self.now t → (t <ℤ result) ↔ (column self.now t < c) }
        ensures from { self.now.t0 ≤ℤ result }
        ensures to { result ≤ℤ self.now.t1 }
    {
        later(self.t0, steps_to(c, self.w, gap(self.t0, self.t1)))
    }

    /// The slots of the axis that column `c` shows, as the first of them and the slot after the last.
    /// Both are equal where the column has none.
    pub fn slot_range(&self, axis: Axis, c: u16) -> (u64, u64)
        requires step { 0 < axis.step }
        requires drawn { c < self.now.w }
        ensures slots { (i : ℕ) → IsInColumn axis self.now c i ↔ ((result.0 ≤ i) × (i < result.1)) }
        ensures order { result.0 ≤ result.1 }

        // So the range of a column ends where that of the next one begins.
        ensures from { AreSlotsBefore axis (border self.now c) result.0 }
        ensures to { AreSlotsBefore axis (border self.now (c + 1)) result.1 }
    {
        let from = axis.slots_before(self.border(c));
        let to = axis.slots_before(self.border(c + 1));
        (from, to)
    }

    /// The same canvas over another window. It is refused, as `BadWindow`, where `new` refuses that
    /// window.
    pub fn zoom(&self, t0: i128, t1: i128) -> Result<Grid, GridError>
        ensures shown { IfOk result (λ g. ShowsWindow g t0 t1 × HasCanvas g self.now.w self.now.h) }
        ensures accepted { IsWindow t0 t1 → IsOk result }
        ensures window { (result ≡ Err GridError.BadWindow) ↔ IsBadWindow t0 t1 }
        ensures only { IfErr result (λ e. e ≡ GridError.BadWindow) }
    {
        Grid::new(t0, t1, u64::from(self.w), u64::from(self.h))
    }

    /// The same canvas over the window that begins and ends `by` later, or earlier where `by` is
    /// below 0. It is refused, as `BadWindow`, where `new` refuses that window.
    pub fn pan(&self, by: i128) -> Result<Grid, GridError>
        ensures shown { IfOk result (λ g. ShowsWindow g (self.now.t0 +ℤ by) (self.now.t1 +ℤ by) × HasCanvas g self.now.w self.now.h) }
        ensures accepted { IsWindow (self.now.t0 +ℤ by) (self.now.t1 +ℤ by) → IsOk result }
        ensures window { (result ≡ Err GridError.BadWindow) ↔ IsBadWindow (self.now.t0 +ℤ by) (self.now.t1 +ℤ by) }
        ensures only { IfErr result (λ e. e ≡ GridError.BadWindow) }
    {
        let Some(t0) = moved(self.t0, by) else {
            return Err(GridError::BadWindow);
        };
        let Some(t1) = moved(self.t1, by) else {
            return Err(GridError::BadWindow);
        };
        self.zoom(t0, t1)
    }
}
