//! The texts of a series' values.
ghost use Rattle.std.specs.Prelude.{◌≡◌, ◌≤◌, ◌<◌, ◌++◌, ℕ, ℤ, Bool, List, [], false, OnOk, OnErr};

use std::alloc::AllocError;

/// What is said of the values of a series: a text of each, which may be empty.
pub trait Texts {
    /// The text of the value that a slot holds.
    ghost text: { Self → ℕ → ℤ → List ℕ };

    /// It may be asked for the texts of so many slots.
    ghost slots: { Self → ℕ };

    /// Something may be said of slots from this one on and below that one.
    ghost may_be_said: { Self → ℕ → ℕ → Bool };

    /// Whether something may be said of slots from `first` on and below `end`. Where nothing may, their pages
    /// are passed over.
    fn may_say(&self, first: u64, end: u64) -> bool
        requires some { first < end }
        requires within { end ≤ slots self.now }
        ensures may { result ≡ may_be_said self.now first end }
        ensures silent { result ≡ false → (slot : ℕ) (value : ℤ) → first ≤ slot → slot < end → text self.now slot value ≡ [] };

    /// Appends the text of a value, whole or not at all.
    fn add(&self, slot: u64, value: i64, out: &mut Vec<u8>) -> Result<(), AllocError>
        requires within { slot < slots self.now }
        ensures added { OnOk result (out.new.items ≡ out.old.items ++ text self.now slot value) }
        ensures kept { OnErr result (out.new.items ≡ out.old.items) };
}
