ghost use Rattle.std.specs.Prelude.{◌≡◌};
ghost use Rattle.value_filter.specs.Boxes.{negated, both_of, either_of};

/// What a filter says of a box of times and values.
#[derive(Clone, Copy, PartialEq, Eq)]
pub enum BoxAnswer {
    /// It holds at every whole time and value of the box.
    All,
    /// It holds at none.
    Nothing,
    /// Neither is known.
    Mixed,
}

impl BoxAnswer {
    /// The answer of a filter's `not`.
    pub fn negated(self) -> BoxAnswer
        ensures { result ≡ negated self }
    {
        match self {
            BoxAnswer::All => BoxAnswer::Nothing,
            BoxAnswer::Nothing => BoxAnswer::All,
            BoxAnswer::Mixed => BoxAnswer::Mixed,
        }
    }

    /// The answer of the `and` of two filters.
    pub fn and(self, second: BoxAnswer) -> BoxAnswer
        ensures { result ≡ both_of self second }
    {
        match (self, second) {
            (BoxAnswer::All, BoxAnswer::All) => BoxAnswer::All,
            (BoxAnswer::Nothing, _) | (_, BoxAnswer::Nothing) => BoxAnswer::Nothing,
            _ => BoxAnswer::Mixed,
        }
    }

    /// The answer of the `or` of two filters.
    pub fn or(self, second: BoxAnswer) -> BoxAnswer
        ensures { result ≡ either_of self second }
    {
        match (self, second) {
            (BoxAnswer::Nothing, BoxAnswer::Nothing) => BoxAnswer::Nothing,
            (BoxAnswer::All, _) | (_, BoxAnswer::All) => BoxAnswer::All,
            _ => BoxAnswer::Mixed,
        }
    }
}
