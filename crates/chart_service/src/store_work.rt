//! What is done on the store of a service.
ghost use Rattle.std.specs.Prelude.{◌≤◌, ℕ};

/// What is done on the store of a service, beside its requests: a look at it, or edits. It takes no series away.
pub trait StoreWork<S> {
    /// What it answers.
    type Answer;

    /// How many series a store has.
    ghost series: { S → ℕ };

    /// It may be done on a store.
    ghost may: { Self → S → Type 0 };

    /// `does work store answer work' store'`: what it answers, and what it leaves.
    ghost does: { Self → S → Self.Answer → Self → S → Type 0 };

    /// Does the work.
    fn work(&mut self, store: &mut S) -> Self::Answer
        requires { may self.old store.old }
        ensures does { does self.old store.old result self.new store.new }
        ensures series { series store.old ≤ series store.new };
}
