ghost use Rattle.std.specs.Prelude.{◌≡◌, ◌≤ℤ◌, IsTrue, true, false};
ghost use Rattle.value_filter.specs.Expressions.{opposite};
ghost use Rattle.value_filter.specs.Boxes.{IsAtomAnswer, IsIntervalAnswer, Always, Once, interval_of};

use crate::box_answers::BoxAnswer;

/// What of a point an atom compares: its time, or its whole number.
#[derive(Clone, Copy)]
pub enum Subject {
    Time,
    Value,
}

/// How an atom compares it with its number.
#[derive(Clone, Copy)]
pub enum Comparison {
    Less,
    LessOrEqual,
    Equal,
    NotEqual,
    GreaterOrEqual,
    Greater,
}

/// A comparison with a number, as `v >= 10`. The number has at most 19 digits.
#[derive(Clone, Copy)]
pub struct Atom {
    pub subject: Subject,
    pub comparison: Comparison,
    pub number: i128,
}

impl Atom {
    /// Whether the atom holds at every whole number of its interval, at none, or at some.
    pub(crate) fn on_box(&self, times: (i64, i64), values: (i64, i64)) -> BoxAnswer
        requires times { times.0 ≤ℤ times.1 }
        requires values { values.0 ≤ℤ values.1 }
        ensures { IsAtomAnswer self.now (interval_of self.now.subject times values) result }
    {
        match self.subject {
            Subject::Time => self.comparison.on_interval(times, self.number),
            Subject::Value => self.comparison.on_interval(values, self.number),
        }
    }
}

impl Comparison {
    /// The comparison that holds exactly where this one doesn't.
    pub fn opposite(self) -> Comparison
        ensures { result ≡ opposite self }
    {
        match self {
            Comparison::Less => Comparison::GreaterOrEqual,
            Comparison::LessOrEqual => Comparison::Greater,
            Comparison::Equal => Comparison::NotEqual,
            Comparison::NotEqual => Comparison::Equal,
            Comparison::GreaterOrEqual => Comparison::Less,
            Comparison::Greater => Comparison::LessOrEqual,
        }
    }

    /// Whether each whole number of the interval compares so with `number`, none, or some.
    fn on_interval(self, interval: (i64, i64), number: i128) -> BoxAnswer
        requires { interval.0 ≤ℤ interval.1 }
        ensures { IsIntervalAnswer self interval number result }
    {
        let (low, high) = (i128::from(interval.0), i128::from(interval.1));
        if self.is_always(low, high, number) {
            return BoxAnswer::All;
        }
        if self.opposite().is_always(low, high, number) {
            return BoxAnswer::Nothing;
        }
        BoxAnswer::Mixed
    }

    /// Whether each whole number from `low` to `high` compares so with `number`.
    fn is_always(self, low: i128, high: i128, number: i128) -> bool
        requires { low ≤ℤ high }
        ensures always { IsTrue result → Always self (low, high) number true }
        ensures once { result ≡ false → Once self (low, high) number false }
    {
        match self {
            Comparison::Less => high < number,
            Comparison::LessOrEqual => high <= number,
            Comparison::Equal => number == low && number == high,
            Comparison::NotEqual => number < low || high < number,
            Comparison::GreaterOrEqual => number <= low,
            Comparison::Greater => number < low,
        }
    }
}
