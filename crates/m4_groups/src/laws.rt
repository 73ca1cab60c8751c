//! What follows from the definition of rows. The functions do nothing: their contracts are the laws.

ghost use Rattle.std.specs.Prelude.{◌≡◌, ℤ, List, [], ◌∷◌, ◌++◌, All};
ghost use Rattle.chart_grid.specs.declared.grid.Grid.{Grid};
ghost use Rattle.chart_grid.specs.Projection.{InWindow};
ghost use Rattle.m4_groups.specs.Points.{AreInOrder, spots};
ghost use Rattle.m4_groups.specs.Rows.{AreRising, AreRowsOf};
ghost use Rattle.m4_groups.specs.Heights.{IsDrawable};
ghost use Rattle.whole_number.specs.Range.{IsValue};
ghost use Rattle.m4_groups.specs.Folded.{rows_from};
ghost use Rattle.m4_groups.specs.Gathered.{Gathered, IsGathered, IsLater};
ghost use Rattle.m4_groups.specs.declared.row.Row.{Row};
ghost use Rattle.m4_groups.specs.Laws.{DrawnRowsAreTheRaster};

/// Points in order of time have one list of rows. It is also the one that takes in the points one
/// after another, from the last to the first.
pub fn rows_are_one()
    ensures one { (g : Grid) (points : List (ℤ × ℤ)) (rows others : List Row) →
        AreRowsOf g points rows → AreRowsOf g points others → rows ≡ others }
    ensures folded { (g : Grid) (points : List (ℤ × ℤ)) →
        AreInOrder g points → AreRowsOf g points (rows_from (spots g points)) }
{}

/// The rows of points whose values a series can hold can be drawn on their grid's canvas.
pub fn rows_are_drawable()
    ensures rising { (g : Grid) (points : List (ℤ × ℤ)) (rows : List Row) →
        AreRowsOf g points rows → AreRising rows }
    ensures drawable { (g : Grid) (points : List (ℤ × ℤ)) (rows : List Row) →
        AreInOrder g points → All (λ p. IsValue p.1) points → AreRowsOf g points rows → All (IsDrawable g.w) rows }
{}

/// The drawn rows of points are the raster of the points, pixel for pixel.
pub fn drawn_rows_are_the_raster()
    ensures { DrawnRowsAreTheRaster }
{}

/// The next point of a list in order of time may be pushed where those before it were gathered.
pub fn points_follow()
    ensures { (s : Gathered) (points : List (ℤ × ℤ)) (t v : ℤ) →
        AreInOrder s.grid (points ++ (t, v) ∷ []) → IsGathered points s → InWindow s.grid t × IsLater s t }
{}
