ghost use Rattle.std.specs.Prelude.{◌≡◌, ◌<◌, [], length, HoldsAt, None, Some, IfOk, OnErr};
ghost use Rattle.m4_groups.specs.Rows.{AreRising};
ghost use Rattle.chart_client.specs.Spanning.{row_span, span_in};

use m4_groups::Rows;
use om3_coeff::Span;
use std::alloc::{AllocError, Global};
use std::marker::Model;

/// The least and the greatest value of each column of a picture, as its rows tell them.
#[derive(Drop)]
pub struct ColumnSpans {
    rows: Rows,
}

impl Model for ColumnSpans {
    ghost use Rattle.std.specs.Prelude.{List};
    ghost use Rattle.m4_groups.specs.declared.row.Row.{Row};
    ghost use Rattle.m4_groups.specs.Rows.{AreRising};

    ghost Value = { List Row };

    ghost view = { λ c. c.rows };

    ghost invariant = { λ c. AreRising c.rows };
}

impl ColumnSpans {
    /// Those of no picture: none has a value. It takes no memory.
    pub fn none(alloc: Global) -> ColumnSpans
        ensures { result ≡ [] }
    {
        ColumnSpans {
            rows: Rows::from_vec(Vec::new(alloc)),
        }
    }

    /// Those of a picture that is drawn of these rows.
    pub(crate) fn of(rows: Rows) -> ColumnSpans
        requires { AreRising rows }
        ensures { result ≡ rows }
    {
        ColumnSpans { rows }
    }

    /// The same, of rows that are copied.
    pub(crate) fn copy_of(alloc: Global, rows: &Rows) -> Result<ColumnSpans, AllocError>
        requires { AreRising rows.now }
        ensures { IfOk result (λ columns. columns ≡ rows.now) }
    {
        let copied = Vec::from_slice(alloc, rows.as_slice())?;
        Ok(ColumnSpans::of(Rows::from_vec(copied)))
    }

    /// The least and the greatest value of column x, counted from 0 at the left; `None` where the column
    /// has no value, and where the picture has no such column.
    pub fn span_of(&self, x: u32) -> Option<Span>
        ensures { result ≡ span_in self.now x }
    {
        match self.place_of(x) {
            Ok(place) => {
                let row = self.rows.as_slice()[place];
                Some(Span {
                    min: row.least,
                    max: row.greatest,
                })
            }
            Err(_) => None,
        }
    }

    // The place of a column's row, or where it would stand.
    fn place_of(&self, x: u32) -> Result<usize, usize>
        ensures within { IfOk result (λ place. place < length self.now) }
        ensures found { IfOk result (HoldsAt (λ row. span_in self.now x ≡ Some (row_span row)) self.now) }
        ensures none { OnErr result (span_in self.now x ≡ None) }
    {
        self.rows
            .as_slice()
            .binary_search_by_key(&x, |row| u32::from(row.column))
    }
}
