ghost use Rattle.std.specs.Prelude.{◌≡◌, ◌↔◌, [], length, IfOk, OnOk, IsTrue};
ghost use Rattle.coefficient_cache.specs.Pairs.{series_key, coefficient_at, holds, in_series};
ghost use Rattle.coefficient_cache.specs.Views.{AreDistinct, to_send, renewed};
ghost use Rattle.coefficient_cache.specs.Caches.{IsCapacity, IsValid};

use crate::pair_list::PairList;
use crate::renewal::{put_news, renew_hits};
use crate::series_key::SeriesKey;
use om3_coeff::{Coef, Coefs, Key};
use std::alloc::{AllocError, Global};
use std::marker::Model;

/// The most pairs that a list may have.
pub const MOST_CAPACITY: u32 = 131_072;

/// Whether a list may have this capacity: 1 to `MOST_CAPACITY`.
pub fn is_capacity(n: u64) -> bool
    ensures { IsTrue result ↔ IsCapacity n }
{
    1 <= n && n <= u64::from(MOST_CAPACITY)
}

/// The coefficients that a client keeps, the most recently used first. A session's list at the server
/// is the same.
#[derive(Drop)]
pub struct CoefficientCache {
    list: PairList,
}

impl Model for CoefficientCache {
    ghost use Rattle.coefficient_cache.specs.Caches.{Cache};

    ghost Value = { Cache };

    ghost view = { λ c. c.list };
}

impl CoefficientCache {
    /// An empty list of at most `capacity` pairs, which takes memory only as it fills.
    pub fn new(alloc: Global, capacity: u32) -> Result<CoefficientCache, AllocError>
        requires { IsCapacity capacity }
        ensures { IfOk result (λ cache. cache ≡ record { pairs = []; capacity = capacity }) }
    {
        Ok(CoefficientCache {
            list: PairList::new(alloc, capacity),
        })
    }

    /// How many pairs the list has.
    pub fn len(&self) -> usize
        ensures len { result ≡ length self.now.pairs }
        ensures valid { IsValid self.now }
    {
        self.list.len()
    }

    /// Whether the list has no pair.
    pub fn is_empty(&self) -> bool
        ensures { IsTrue result ↔ (self.now.pairs ≡ []) }
    {
        self.list.is_empty()
    }

    /// How many pairs the list may have.
    pub fn capacity(&self) -> u32
        ensures capacity { result ≡ self.now.capacity }
        ensures in_range { IsCapacity self.now.capacity }
    {
        self.list.capacity()
    }

    /// The coefficient that the list holds for a key of a series. The list stays in its order.
    pub fn find(&self, series: u16, key: Key) -> Option<Coef>
        ensures { result ≡ coefficient_at self.now.pairs (series_key series key) }
    {
        self.list.find(SeriesKey::new(series, key))
    }

    /// The same, and a place from which to look for the next key: a key is looked for at some places from
    /// `from` on before it is looked up, since keys are mostly asked for in the order in which they were
    /// needed. Any place is right.
    pub fn find_near(&self, from: usize, series: u16, key: Key) -> (Option<Coef>, usize)
        ensures { result.0 ≡ coefficient_at self.now.pairs (series_key series key) }
    {
        self.list.find_near(from, SeriesKey::new(series, key))
    }

    /// Those of the needed keys of a series, in order, which the list lacks or holds with another
    /// coefficient than the needed one. The list stays as it is.
    pub fn to_send(
        &self,
        alloc: Global,
        series: u16,
        needed: &[(Key, Coef)],
    ) -> Result<Coefs, AllocError>
        ensures { IfOk result (λ sent. sent ≡ to_send self.now.pairs series needed.now) }
    {
        if self.is_empty() {
            let all = Vec::from_slice(alloc, needed)?;
            return Ok(Coefs::from_vec(all));
        }
        // It brings in what holds of every list: no two keys are the same.
        let _length = self.list.len();
        let mut sent = Vec::new(alloc);
        if self.list.is_in_front(series, needed) {
            return Ok(Coefs::from_vec(sent));
        }
        let mut from = 0;
        for (key, coef) in needed {
            let (is_held, next) = self.holds(from, series, *key, *coef);
            if !is_held {
                sent.push((*key, *coef))?;
            }
            from = next;
        }
        Ok(Coefs::from_vec(sent))
    }

    // Whether the list holds the key with this coefficient, and where to look for the next one.
    fn holds(&self, from: usize, series: u16, key: Key, coef: Coef) -> (bool, usize)
        ensures { result.0 ≡ holds self.now.pairs (series_key series key, coef) }
    {
        if self.list.is_at(from, SeriesKey::new(series, key), coef) {
            return (true, from.saturating_add(1));
        }
        let (found, next) = self.find_near(from, series, key);
        match found {
            Some(held) => (coef == held, next),
            None => (false, next),
        }
    }

    /// Changes the list by a view that needs these keys of a series, each with its present
    /// coefficient: first the needed keys that are in the list come to its front, in order, and then
    /// the others are put in front, in order. What passes the capacity falls off the end.
    ///
    /// After want of memory the list has its capacity and any pairs: it is of no further use.
    pub fn renew(
        &mut self,
        alloc: Global,
        series: u16,
        needed: &[(Key, Coef)],
    ) -> Result<(), AllocError>
        requires { AreDistinct needed.now }
        ensures renewed { OnOk result
            (self.new.pairs ≡ renewed self.old.capacity self.old.pairs (in_series series needed.now)) }
        ensures capacity { self.new.capacity ≡ self.old.capacity }
    {
        // It brings in what holds of every list: no two keys are the same, and it is within its capacity.
        let _length = self.list.len();
        if self.list.is_in_front(series, needed) {
            return Ok(());
        }
        if self.list.renew_front(series, needed) {
            return Ok(());
        }
        let is_new = renew_hits(&mut self.list, alloc, series, needed)?;
        put_news(&mut self.list, series, needed, &is_new)?;
        self.list.pack(alloc)
    }
}
