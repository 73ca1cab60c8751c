ghost use Rattle.std.specs.Prelude.{◌≡◌, ◌≢◌, ℕ, ℤ, ◌<◌, ◌↔◌, List, [], ◌∷◌, ◌++◌, IfOk, OnOk, OnErr, Some, IsTrue, vec_len};
ghost use Rattle.chart_grid.specs.Projection.{InWindow, column};
ghost use Rattle.m4_groups.specs.Gathered.{Gathered, IsGathered, IsLater, with_point};
ghost use Rattle.m4_groups.specs.Rows.{AreRowsOf};
ghost use Rattle.m4_groups.specs.Folded.{put_last};
ghost use Rattle.m4_groups.specs.Spanned.{last_column};

use crate::row::Row;
use crate::rows::Rows;
use chart_grid::Grid;
use std::alloc::{AllocError, Global};
use std::marker::Model;

/// The rows of the points that were pushed so far, in order of time.
#[derive(Drop)]
pub struct Groups {
    grid: Grid,
    latest: Option<i64>,
    rows: Vec<Row>,
    // Where the last row's column begins, and where it ends.
    from: i64,
    next: i64,
}

impl Model for Groups {
    ghost use Rattle.m4_groups.specs.Gathered.{Gathered};

    ghost Value = { Gathered };

    ghost use Rattle.m4_groups.specs.Spanned.{IsSpanned};

    ghost view = { λ g. record { grid = g.grid; rows = g.rows.items; latest = g.latest } };

    ghost invariant = { IsSpanned };
}

impl Groups {
    /// No point yet. It has room for a row for each column of the grid, and is an error where there
    /// is none.
    pub fn new(alloc: Global, grid: Grid) -> Result<Groups, AllocError>
        ensures grid { IfOk result (λ g. g.grid ≡ grid) }
        ensures none { IfOk result (IsGathered []) }
    {
        let rows = Vec::with_capacity(alloc, usize::from(grid.w()))?;
        Ok(Groups {
            grid,
            latest: None,
            rows,
            from: 0,
            next: 0,
        })
    }

    /// Takes in the point at the time `t` with the value `v`. After want of memory nothing has changed.
    pub fn push(&mut self, t: i64, v: i64) -> Result<(), AllocError>
        requires shown { InWindow self.old.grid t }
        requires later { IsLater self.old t }
        ensures gathered { OnOk result ((points : List (ℤ × ℤ)) →
            IsGathered points self.old → IsGathered (points ++ (t, v) ∷ []) self.new) }
        ensures grid { self.new.grid ≡ self.old.grid }
        ensures latest { OnOk result (self.new.latest ≡ Some t) }
        ensures unchanged { OnErr result (self.new ≡ self.old) }
    {
        if self.is_in_last(t) {
            self.extend(t, v);
            return Ok(());
        }
        self.begin(t, v)?;
        Ok(())
    }

    // Takes in a point of the last row's column.
    fn extend(&mut self, t: i64, v: i64)
        requires shown { InWindow self.old.grid t }
        requires own { last_column self.old.rows ≡ Some (column self.old.grid t) }
        ensures { self.new ≡ with_point self.old t v }
    {
        extend_last(&mut self.rows, v);
        self.latest = Some(t);
    }

    // Takes in a point of another column, which gets a row.
    fn begin(&mut self, t: i64, v: i64) -> Result<(), AllocError>
        requires shown { InWindow self.old.grid t }
        requires other { last_column self.old.rows ≢ Some (column self.old.grid t) }
        ensures begun { OnOk result (self.new ≡ with_point self.old t v) }
        ensures unchanged { OnErr result (self.new ≡ self.old) }
    {
        let column = self.grid.column_of(t);
        self.rows.push(Row::of_one(column, v))?;
        self.from = self.grid.border(column);
        self.next = self.grid.border(column + 1);
        self.latest = Some(t);
        Ok(())
    }

    // Whether the last row is that of the time's column. It takes no division.
    fn is_in_last(&self, t: i64) -> bool
        requires { InWindow self.now.grid t }
        ensures { IsTrue result ↔ (last_column self.now.rows ≡ Some (column self.now.grid t)) }
    {
        self.from <= t && t < self.next
    }

    /// The rows of the points: one for each column that has a point, in rising order of columns, with
    /// the first, the least, the greatest and the last value of the column's points.
    pub fn rows(self) -> Rows
        ensures gathered { result ≡ self.rows }
        ensures rows { (points : List (ℤ × ℤ)) → IsGathered points self → AreRowsOf self.grid points result }
    {
        Rows::from_vec(self.rows)
    }
}

// Takes in a value of the last row's column.
fn extend_last(rows: &mut Vec<Row>, v: i64)
    requires { 0 < vec_len rows.old }
    ensures { (column : ℕ) → last_column rows.old.items ≡ Some column →
        rows.new.items ≡ put_last rows.old.items (record { x = column; y = v }) }
{
    let last = rows.len() - 1;
    rows[last].extend(v);
}
