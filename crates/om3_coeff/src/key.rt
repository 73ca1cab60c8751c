ghost use Rattle.std.specs.Prelude.{◌≡◌, ◌+◌, ◌*◌, ◌^◌, ◌<◌, ◌≤◌};

/// A place in the tree: the range of the slots `index * 2^level` to `(index + 1) * 2^level - 1`. A key
/// of level 0 is one slot, and has no coefficient.
#[derive(Clone, Copy, Debug, PartialEq, Eq, Hash)]
pub struct Key {
    pub level: u8,
    pub index: u64,
}

impl Key {
    ghost use Rattle.om3_coeff.specs.Keys.{first_slot, end_slot, left_of, right_of};

    /// The number of the key: `level * 2^40 + index`.
    pub fn number(self) -> u64
        requires { self.index < 2 ^ 40 }
        ensures { result ≡ self.level * 2 ^ 40 + self.index }
    {
        u64::from(self.level) * (1 << 40) + self.index
    }

    /// The first slot of its range.
    pub fn first(self) -> u64
        requires { end_slot self < 2 ^ 63 }
        ensures { result ≡ first_slot self }
    {
        self.index * (1 << self.level)
    }

    /// The slot behind the last one of its range.
    pub fn end(self) -> u64
        requires { end_slot self < 2 ^ 63 }
        ensures { result ≡ end_slot self }
    {
        (self.index + 1) * (1 << self.level)
    }

    /// The key of the first half of its range, one level below.
    pub fn left(self) -> Key
        requires low { 1 ≤ self.level }
        requires fits { end_slot self < 2 ^ 63 }
        ensures { result ≡ left_of self }
    {
        Key {
            level: self.level - 1,
            index: 2 * self.index,
        }
    }

    /// The key of the second half of its range, one level below.
    pub fn right(self) -> Key
        requires low { 1 ≤ self.level }
        requires fits { end_slot self < 2 ^ 63 }
        ensures { result ≡ right_of self }
    {
        Key {
            level: self.level - 1,
            index: 2 * self.index + 1,
        }
    }
}
