ghost use Rattle.std.specs.Prelude.{◌≡◌, ℕ, ℤ, ◌+◌, ◌*◌, ◌^◌, ◌<◌, ◌≤◌, ◌≤ℤ◌, unsigned_abs};
ghost use Rattle.std.specs.Int.{int_min, int_max};
ghost use Rattle.line_raster.specs.Segment.{On, InColumn, InRow, columns, rows, share, towards};
ghost use Rattle.line_raster.specs.Ideal.{IsNearestRow, IsNearestColumn};

use super::Point;

/// Both ends lie on the segment between them. Nothing is computed: the contract states it for callers.
pub fn ends(p: Point, q: Point)
    requires { p.x ≤ q.x }
    ensures first { On p q p.x p.y }
    ensures last { On p q q.x q.y }
{}

/// The row of the one pixel that a segment has in column `x`, where the segment isn't higher than wide.
/// No row of the column is nearer to the straight line; of two that are equally near it is the one
/// farther from the first end's row.
pub fn row_in_column(p: Point, q: Point, x: u16) -> i128
    requires begun { p.x ≤ x }
    requires reached { x ≤ q.x }
    requires some { p.x < q.x }
    requires wide { rows p q ≤ columns p q }
    requires first_height { unsigned_abs p.y ≤ 10 ^ 22 }
    ensures pixel { InColumn p q x result }
    ensures alone { (y : ℤ) → InColumn p q x y → y ≡ result }
    ensures nearest { IsNearestRow p q x result }
{
    let columns = u64::from(q.x - p.x);
    let rows = q.y.abs_diff(p.y) as u64;
    let n = u64::from(x - p.x);
    row_towards(
        p.y,
        q.y,
        u128::from((2 * n * rows + columns) / (2 * columns)),
    )
}

/// The column of the one pixel that a segment has in row `y`, where the segment is higher than wide.
/// No column of the row is nearer to the straight line; of two that are equally near it is the one
/// farther from the first end's column.
pub fn column_in_row(p: Point, q: Point, y: i128) -> u16
    requires order { p.x ≤ q.x }
    requires high { columns p q < rows p q }
    requires first_height { unsigned_abs p.y ≤ 10 ^ 22 }
    requires last_height { unsigned_abs q.y ≤ 10 ^ 22 }
    requires above { int_min p.y q.y ≤ℤ y }
    requires below { y ≤ℤ int_max p.y q.y }
    ensures pixel { InRow p q result y }
    ensures alone { (x : ℕ) → InRow p q x y → x ≡ result }
    ensures nearest { IsNearestColumn p q result y }
{
    column_after(p, q, y.abs_diff(p.y))
}

// The column of the pixel `n` rows from the first end.
fn column_after(p: Point, q: Point, n: u128) -> u16
    requires order { p.x ≤ q.x }
    requires high { columns p q < rows p q }
    requires near { rows p q ≤ 10 ^ 23 }
    requires reached { n ≤ rows p q }
    ensures { result ≡ p.x + share (rows p q) (columns p q) n }
{
    let columns = u128::from(q.x - p.x);
    let rows = q.y.abs_diff(p.y);
    p.x + ((2 * n * columns + rows) / (2 * rows)) as u16
}

// The row `n` rows from the row `from` towards the row `to`.
pub(crate) fn row_towards(from: i128, to: i128, n: u128) -> i128
    requires start { unsigned_abs from ≤ 10 ^ 22 }
    requires way { n ≤ 10 ^ 23 }
    ensures { result ≡ towards from to n }
{
    if to < from {
        from - n as i128
    } else {
        from + n as i128
    }
}
