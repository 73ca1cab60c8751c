ghost use Rattle.std.specs.Prelude.{◌≡◌};

/// What a column shows of its points: the values of the first, of the least, of the greatest and of
/// the last of them.
#[derive(Clone, Copy, PartialEq, Eq)]
pub struct Row {
    pub column: u16,
    pub first: i64,
    pub least: i64,
    pub greatest: i64,
    pub last: i64,
}

impl Row {
    ghost use Rattle.m4_groups.specs.Folded.{row_of_one, row_to};

    // The row of one value.
    pub(crate) fn of_one(column: u16, v: i64) -> Row
        ensures { result ≡ row_of_one (record { x = column; y = v }) }
    {
        Row {
            column,
            first: v,
            least: v,
            greatest: v,
            last: v,
        }
    }

    // Takes in a value that comes after its own.
    pub(crate) fn extend(&mut self, v: i64)
        ensures { self.new ≡ row_to self.old v }
    {
        self.least = self.least.min(v);
        self.greatest = self.greatest.max(v);
        self.last = v;
    }
}
