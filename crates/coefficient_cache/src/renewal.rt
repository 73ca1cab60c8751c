//! How a list changes with a view: first the hits come to its front, then the new keys.

ghost use Rattle.std.specs.Prelude.{◌≡◌, ◌++◌, reverse, take, OnOk, IfOk, count_by};
ghost use Rattle.coefficient_cache.specs.Pairs.{in_series};
ghost use Rattle.coefficient_cache.specs.Views.{AreDistinct, hits, news, are_new, others};

use crate::pair_list::PairList;
use crate::series_key::SeriesKey;
use om3_coeff::{Coef, Key};
use std::alloc::{AllocError, Global};

// Brings the needed keys that are in the list to its front, in order and with their present
// coefficients, and says of each needed key whether it is new.
pub(crate) fn renew_hits(
    list: &mut PairList,
    alloc: Global,
    series: u16,
    needed: &[(Key, Coef)],
) -> Result<Vec<bool>, AllocError>
    requires { AreDistinct needed.now }
    ensures hits { let all = in_series series needed.now in OnOk result
        (list.new.pairs ≡ reverse (hits list.old.pairs all) ++ others list.old.pairs all) }
    ensures news { IfOk result
        (λ is_new. is_new.items ≡ are_new list.old.pairs (in_series series needed.now)) }
    ensures capacity { list.new.capacity ≡ list.old.capacity }
{
    if list.is_empty() {
        return move_hits(list, alloc, series, needed);
    }
    let (is_done, is_new) = list.renew_in_line(alloc, series, needed)?;
    if is_done {
        return Ok(is_new);
    }
    move_hits(list, alloc, series, needed)
}

// The same; each of them is moved.
fn move_hits(
    list: &mut PairList,
    alloc: Global,
    series: u16,
    needed: &[(Key, Coef)],
) -> Result<Vec<bool>, AllocError>
    requires { AreDistinct needed.now }
    ensures hits { let all = in_series series needed.now in OnOk result
        (list.new.pairs ≡ reverse (hits list.old.pairs all) ++ others list.old.pairs all) }
    ensures news { IfOk result
        (λ is_new. is_new.items ≡ are_new list.old.pairs (in_series series needed.now)) }
    ensures capacity { list.new.capacity ≡ list.old.capacity }
{
    if list.is_empty() {
        let all_new = Vec::from_elem(alloc, true, needed.len())?;
        return Ok(all_new);
    }
    // It brings in what holds of every list: no two keys are the same.
    let _length = list.len();
    let mut is_new = Vec::with_capacity(alloc, needed.len())?;
    let mut from = 0;
    for (key, coef) in needed {
        let (is_there, next) = list.put_again(from, SeriesKey::new(series, *key), *coef)?;
        is_new.push(!is_there)?;
        from = next;
    }
    Ok(is_new)
}

// Puts the needed keys that are new in front, in order. They are told by flags, since a hit may have
// fallen off by its turn.
pub(crate) fn put_news(
    list: &mut PairList,
    series: u16,
    needed: &[(Key, Coef)],
    is_new: &[bool],
) -> Result<(), AllocError>
    requires distinct { AreDistinct needed.now }
    requires news { is_new.now ≡ are_new list.old.pairs (in_series series needed.now) }
    ensures news { let all = in_series series needed.now in OnOk result
        (list.new.pairs ≡ take list.old.capacity (reverse (news list.old.pairs all) ++ list.old.pairs)) }
    ensures capacity { list.new.capacity ≡ list.old.capacity }
{
    // It brings in what holds of every list: it is within its capacity.
    let _length = list.len();
    list.reserve(count_of(is_new).min(list.capacity() as usize))?;
    for (i, (key, coef)) in needed.iter().enumerate() {
        if is_new[i] {
            list.put(SeriesKey::new(series, *key), *coef)?;
        }
    }
    Ok(())
}

// How many of the flags are set.
fn count_of(flags: &[bool]) -> usize
    ensures { result ≡ count_by (λ flag. flag) flags.now }
{
    flags.iter().filter(|flag| **flag).count()
}
