//! A key's coefficient in a list that is in order.

ghost use Rattle.std.specs.Prelude.{◌≡◌, ℕ, ◌+◌, ◌≤◌, AllPairs, IsTrue, IsFalse, length};
ghost use Rattle.chart_frames.specs.Frames.{Precedes};
ghost use Rattle.chart_client.specs.HeldNodes.{sent_for};
ghost use Rattle.chart_client.specs.Looking.{Narrowed};

use om3_coeff::{Coef, Key};
use view_keys::comes_before;

/// How far behind a hint a key is looked for before the whole list is.
const AHEAD: usize = 4;

/// The coefficient of a key in a list that goes from the top level down and then from left to right, and
/// a hint for the next key on its level. It is found soonest where it stands at the hint or little behind.
pub(crate) fn look_up(list: &[(Key, Coef)], key: Key, hint: usize) -> (Option<Coef>, usize)
    requires order { AllPairs Precedes list.now }
    ensures found { (series : ℕ) → result.0 ≡ sent_for series list.now key }
{
    let (mut from, mut to) = around(list, key, hint);
    while from < to {
        let middle = from + (to - from) / 2;
        if comes_before(list[middle].0, key) {
            from = middle + 1;
        } else {
            to = middle;
        }
    }
    // The first entry that doesn't come before the key is the key's, or none is.
    if from == list.len() {
        return (None, from);
    }
    let (found, coef) = list[from];
    if comes_before(key, found) {
        return (None, from);
    }
    (Some(coef), from + 1)
}

// The places between which a key stands, or would stand: few where it is at the hint or little behind.
fn around(list: &[(Key, Coef)], key: Key, hint: usize) -> (usize, usize)
    requires order { AllPairs Precedes list.now }
    ensures { Narrowed list.now key result.0 result.1 }
{
    let near = hint.min(list.len());
    if stands_before(list, near, key) {
        let far = near + AHEAD.min(list.len() - near);
        if stands_before(list, far, key) {
            (far + 1, list.len())
        } else {
            (near + 1, far)
        }
    } else if near == 0 {
        (0, 0)
    } else if stands_before(list, near - 1, key) {
        (near, near)
    } else {
        (0, near - 1)
    }
}

// Whether an entry stands at a place and comes before the key.
fn stands_before(list: &[(Key, Coef)], place: usize, key: Key) -> bool
    requires order { AllPairs Precedes list.now }
    requires within { place ≤ length list.now }
    ensures before { IsTrue result → Narrowed list.now key (place + 1) (length list.now) }
    ensures behind { IsFalse result → Narrowed list.now key 0 place }
{
    if place == list.len() {
        return false;
    }
    comes_before(list[place].0, key)
}
