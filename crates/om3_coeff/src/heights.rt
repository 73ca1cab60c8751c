ghost use Rattle.std.specs.Prelude.{◌≡◌, ℕ, ◌*◌, ◌^◌, ◌≤◌};
ghost use Rattle.om3_coeff.specs.Keys.{page_levels, height, top_key};

use crate::key::Key;

/// The page levels of a series of so many slots: the least number k of at least 1 with
/// 128^k >= slots.
pub fn page_levels(slots: u64) -> u8
    requires { slots ≤ 2 ^ 35 }
    ensures levels { result ≡ page_levels slots }
    ensures some { 1 ≤ result }
    ensures few { result ≤ 5 }
    ensures covers { slots ≤ 128 ^ result }
    ensures least { (k : ℕ) → 1 ≤ k → slots ≤ 128 ^ k → result ≤ k }
{
    match slots {
        0..=128 => 1,
        129..=16_384 => 2,
        16_385..=2_097_152 => 3,
        2_097_153..=268_435_456 => 4,
        _ => 5,
    }
}

/// The highest level of the tree over so many slots: seven levels for each page level.
pub fn height(slots: u64) -> u8
    requires { slots ≤ 2 ^ 35 }
    ensures height { result ≡ height slots }
    ensures some { 7 ≤ result }
    ensures few { result ≤ 35 }
    ensures covers { slots ≤ 2 ^ result }
{
    7 * page_levels(slots)
}

/// The key at the top of the tree over so many slots. Its range holds all of them.
pub fn top_key(slots: u64) -> Key
    requires { slots ≤ 2 ^ 35 }
    ensures { result ≡ top_key slots }
{
    Key {
        level: height(slots),
        index: 0,
    }
}
