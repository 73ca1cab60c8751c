//! Where a key stands in a list in order.

ghost use Rattle.std.specs.Prelude.{◌≡◌, AllPairs, slice_get};
ghost use Rattle.chart_frames.specs.Frames.{Precedes};
ghost use Rattle.progressive_view.specs.Places.{IsPlace, place_in, coef_if};

use om3_coeff::{Coef, Key};
use view_keys::comes_before;

/// How many entries of the list come before a key.
pub(crate) fn place_of(list: &[(Key, Coef)], key: Key) -> usize
    requires order { AllPairs Precedes list.now }
    ensures place { IsPlace list.now key result }
    ensures is { result ≡ place_in list.now key }
{
    let mut from = 0;
    let mut to = list.len();
    while from < to {
        let middle = from + (to - from) / 2;
        let (found, _) = list[middle];
        if comes_before(found, key) {
            from = middle + 1;
        } else {
            to = middle;
        }
    }
    from
}

/// The coefficient at a place, if it is the key's.
pub(crate) fn coef_at(list: &[(Key, Coef)], place: usize, key: Key) -> Option<Coef>
    ensures { result ≡ coef_if (slice_get list.now place) key }
{
    if place >= list.len() {
        return None;
    }
    let (found, coef) = list[place];
    if found == key { Some(coef) } else { None }
}
