//! What follows from the rule of projection. The functions do nothing: their contracts are the laws.

ghost use Rattle.std.specs.Prelude.{◌≡◌, ℕ, ℤ, ◌+◌, ◌<◌, ◌≤◌, ◌<ℤ◌, ◌≤ℤ◌, ◌↔◌};
ghost use Rattle.chart_grid.specs.Numbers.{IsFloor, floor_div};
ghost use Rattle.chart_grid.specs.Projection.{InWindow, column, height};
ghost use Rattle.chart_grid.specs.Slots.{border};
ghost use Rattle.chart_grid.specs.declared.grid.Grid.{Grid};

/// A quotient rounded towards minus infinity is the one number q with q * n <= a < (q + 1) * n.
pub fn floors_are_one()
    ensures is { (a : ℤ) (n : ℕ) → 0 < n → IsFloor a n (floor_div a n) }
    ensures one { (a : ℤ) (n : ℕ) (p q : ℤ) → IsFloor a n p → IsFloor a n q → p ≡ q }
{}

/// A greater value is no lower on the canvas.
pub fn heights_rise()
    ensures { (u v lo hi : ℤ) (h : ℕ) → u ≤ℤ v → height u lo hi h ≤ℤ height v lo hi h }
{}

/// A later time of the window has no lower column, and each has one of the canvas.
pub fn columns_rise()
    ensures rise { (g : Grid) (s t : ℤ) → InWindow g s → InWindow g t → s ≤ℤ t → column g s ≤ column g t }
    ensures drawn { (g : Grid) (t : ℤ) → InWindow g t → column g t < g.w }
{}

/// The times of column c are those from its border to below the next one. The first border is the
/// window's start, the last one its end, and no border lies before an earlier one.
pub fn borders_part_columns()
    ensures between { (g : Grid) (c : ℕ) (t : ℤ) → InWindow g t → (column g t ≡ c) ↔ ((border g c ≤ℤ t) × (t <ℤ border g (c + 1))) }
    ensures first { (g : Grid) → border g 0 ≡ g.t0 }
    ensures last { (g : Grid) → border g g.w ≡ g.t1 }
    ensures rise { (g : Grid) (b c : ℕ) → b ≤ c → border g b ≤ℤ border g c }
{}
