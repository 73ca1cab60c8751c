ghost use Rattle.std.specs.Prelude.{◌≡◌, ◌<◌, ◌+◌, ◌-◌, ◌*◌, [], length, IfOk, OnOk, IsPermutation};
ghost use Rattle.view_keys.specs.Listed.{AreInOrder};
ghost use Rattle.needed_nodes.specs.Gathering.{AreApart};
ghost use Rattle.needed_nodes.specs.Ordering.{order_number, AreSmallKeys};
ghost use Rattle.needed_nodes.specs.Levels.{joined};

use crate::level::Level;
use om3_coeff::{Coef, Key};
use std::alloc::{AllocError, Global};

/// One more than the greatest number of a level.
const LEVELS: usize = 256;

/// Sorts keys from the top level down, and each level from left to right. Once they stand by levels, little is left to
/// sort: a walk comes to those of one level from left to right.
pub(crate) fn sort_keys(alloc: Global, keys: &mut Vec<(Key, Coef)>) -> Result<(), AllocError>
    requires small { AreSmallKeys keys.old.items }
    requires apart { AreApart keys.old.items }
    ensures same { IsPermutation keys.old.items keys.new.items }
    ensures order { OnOk result (AreInOrder keys.new.items) }
{
    let mut levels = by_levels(alloc, keys.as_slice())?;
    sort_levels(&mut levels)?;
    *keys = all_levels(alloc, levels.as_slice(), keys.len())?;
    keys.sort_by_key(|entry| order_number(entry.0))
}

/// The place of a key in that order: the greater number comes later.
fn order_number(key: Key) -> u128
    ensures { result ≡ order_number key }
{
    u128::from(255 - key.level) * (1 << 64) + u128::from(key.index)
}

/// Levels without a key, each with room for so many.
fn empty_levels(alloc: Global, rooms: &[usize]) -> Result<Vec<Level>, AllocError>
    requires { length rooms.now ≡ 256 }
    ensures sized { IfOk result (λ levels. length levels.items ≡ 256) }
    ensures empty { IfOk result (λ levels. joined levels.items ≡ []) }
{
    let mut levels = Vec::with_capacity(alloc, LEVELS)?;
    for place in 0..LEVELS {
        let level = Level::new(alloc, rooms[place])?;
        levels.push(level)?;
    }
    Ok(levels)
}

/// Where the keys of a level stand among the levels.
fn place_of(key: Key) -> usize
    ensures { result < 256 }
{
    usize::from(255 - key.level)
}

/// Counts the keys of each level.
fn count_keys(keys: &[(Key, Coef)], counts: &mut [usize])
    requires { length counts.old ≡ 256 }
    ensures { length counts.new ≡ 256 }
{
    for at in 0..keys.len() {
        let place = place_of(keys[at].0);
        counts[place] = counts[place].wrapping_add(1);
    }
}

/// The keys by levels, from the top level down. Room for them is made at once.
fn by_levels(alloc: Global, keys: &[(Key, Coef)]) -> Result<Vec<Level>, AllocError>
    ensures { IfOk result (λ levels. IsPermutation keys.now (joined levels.items)) }
{
    let mut counts = [0; LEVELS];
    count_keys(keys, &mut counts);
    let mut levels = empty_levels(alloc, &counts)?;
    for at in 0..keys.len() {
        let entry = keys[at];
        let place = place_of(entry.0);
        levels[place].add(entry)?;
    }
    Ok(levels)
}

/// Puts the keys of each level in order.
fn sort_levels(levels: &mut Vec<Level>) -> Result<(), AllocError>
    ensures { OnOk result (IsPermutation (joined levels.old.items) (joined levels.new.items)) }
{
    for at in 0..levels.len() {
        levels[at].sort()?;
    }
    Ok(())
}

/// The keys of one level after another. Room for so many is made at once.
fn all_levels(alloc: Global, levels: &[Level], count: usize) -> Result<Vec<(Key, Coef)>, AllocError>
    ensures { IfOk result (λ keys. keys.items ≡ joined levels.now) }
{
    let mut keys = Vec::with_capacity(alloc, count)?;
    for at in 0..levels.len() {
        keys.extend_from_slice(levels[at].keys.as_slice())?;
    }
    Ok(keys)
}
