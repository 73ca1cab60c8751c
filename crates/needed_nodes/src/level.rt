use om3_coeff::{Coef, Key};
use std::alloc::{AllocError, Global};

/// Keys of one level, in the order in which they were found.
#[derive(Drop)]
pub(crate) struct Level {
    pub(crate) keys: Vec<(Key, Coef)>,
}

impl Level {
    ghost use Rattle.std.specs.Prelude.{◌≡◌, ◌++◌, [], ◌∷◌, IfOk, OnOk, IsPermutation};

    /// A level without a key, with room for so many.
    pub(crate) fn new(alloc: Global, room: usize) -> Result<Level, AllocError>
        ensures { IfOk result (λ level. level.keys.items ≡ []) }
    {
        let keys = Vec::with_capacity(alloc, room)?;
        Ok(Level { keys })
    }

    /// Adds a key behind the others.
    pub(crate) fn add(&mut self, entry: (Key, Coef)) -> Result<(), AllocError>
        ensures { OnOk result (self.new.keys.items ≡ self.old.keys.items ++ entry ∷ []) }
    {
        self.keys.push(entry)?;
        Ok(())
    }

    /// Puts its keys in order, from left to right. Those of each of two walks are already.
    pub(crate) fn sort(&mut self) -> Result<(), AllocError>
        ensures { IsPermutation self.old.keys.items self.new.keys.items }
    {
        self.keys.sort_by_key(|entry| entry.0.index)
    }
}
