ghost use Rattle.std.specs.Prelude.{◌<◌, ◌^◌};
ghost use Rattle.om3_coeff.specs.Keys.{end_slot};
ghost use Rattle.om3_coeff.specs.Walks.{IsPlace};

use crate::key::Key;

/// How a key's range lies to the slots of a walk: outside, within, or cut by an end of them.
#[derive(Clone, Copy)]
pub(crate) enum Place {
    Outside,
    Within,
    Cut,
}

/// The place of a key to the slots from `a` on and below `b`.
pub(crate) fn place_of(key: Key, a: u64, b: u64) -> Place
    requires { end_slot key < 2 ^ 63 }
    ensures { IsPlace a b key result }
{
    let first = key.first();
    let end = key.end();
    if end <= a || b <= first {
        return Place::Outside;
    }
    if a <= first && end <= b {
        return Place::Within;
    }
    Place::Cut
}
