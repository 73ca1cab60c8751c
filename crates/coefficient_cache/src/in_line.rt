//! Needed pairs that stand together at the end, in order, and get their coefficients where they stand.

ghost use Rattle.std.specs.Prelude.{◌≡◌, ◌+◌, ◌++◌, length, take, IfOk, IfSome, IsTrue};
ghost use Rattle.coefficient_cache.specs.Puts.{IsStep, IsInLine, held_of, put_in};

use crate::pair_list::stands_at;
use crate::series_key::SeriesKey;
use om3_coeff::{Coef, Key};
use std::alloc::{AllocError, Global};
use std::collections::HashMap;

// Says of each needed key whether it is new, where the others stand at the places from this one to the
// end, in order, and whether they do. Where they don't, the flags are of no use.
pub(crate) fn flags_in_line(
    alloc: Global,
    puts: &[Option<(SeriesKey, Coef)>],
    numbers: &HashMap<SeriesKey, usize>,
    start: usize,
    series: u16,
    needed: &[(Key, Coef)],
) -> Result<(bool, Vec<bool>), AllocError>
    ensures { IfOk result (λ told. IsTrue told.0 →
        IsInLine puts.now numbers.now.entries start series needed.now told.1.items) }
{
    let mut is_new = Vec::with_capacity(alloc, needed.len())?;
    let mut place = start;
    for (key, _) in needed {
        let Some((is_there, next)) = step(puts, numbers, place, SeriesKey::new(series, *key)) else {
            return Ok((false, is_new));
        };
        is_new.push(!is_there)?;
        place = next;
    }
    if place != puts.len() {
        return Ok((false, is_new));
    }
    Ok((true, is_new))
}

// Whether the key stands at the place, and the place of the next one. There is no answer where it is
// held elsewhere.
fn step(
    puts: &[Option<(SeriesKey, Coef)>],
    numbers: &HashMap<SeriesKey, usize>,
    place: usize,
    key: SeriesKey,
) -> Option<(bool, usize)>
    ensures { IfSome result (λ r. IsStep puts.now numbers.now.entries place key r.0 r.1) }
{
    if stands_at(puts, place, key) {
        return Some((true, place + 1));
    }
    if numbers.contains_key(&key) {
        return None;
    }
    Some((false, place))
}

// Puts the needed pairs that aren't new in the place of the last ones, from this place on.
pub(crate) fn set_in_line(
    puts: &mut Vec<Option<(SeriesKey, Coef)>>,
    start: usize,
    series: u16,
    needed: &[(Key, Coef)],
    is_new: &[bool],
)
    requires flags { length is_new.now ≡ length needed.now }
    requires fits { start + length (held_of needed.now is_new.now) ≡ length puts.old.items }
    ensures { puts.new.items ≡ take start puts.old.items ++ put_in series (held_of needed.now is_new.now) }
{
    let _end = puts.len();
    let mut count = 0;
    for (i, (key, coef)) in needed.iter().enumerate() {
        if !is_new[i] {
            puts[start + count] = Some((SeriesKey::new(series, *key), *coef));
            count += 1;
        }
    }
}
