ghost use Rattle.std.specs.Prelude.{◌↔◌, IsTrue};
ghost use Rattle.view_keys.specs.Listed.{ComesBefore};

use om3_coeff::Key;

/// Whether a key comes before another one in a list of keys: its level is higher, or its level is the
/// same and its index lower.
pub fn comes_before(key: Key, other: Key) -> bool
    ensures { IsTrue result ↔ ComesBefore key other }
{
    other.level < key.level || (key.level == other.level && key.index < other.index)
}
