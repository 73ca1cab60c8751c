//! A list of pairs, the one that was put last before the others.

ghost use Rattle.std.specs.Prelude.{◌≡◌, ◌==◌, ◌<◌, ◌≤◌, ◌+◌, ◌-◌, ◌∷◌, ◌++◌, ◌&&◌, ℕ, [], true, false, length, take, set, reverse, get_or};
ghost use Rattle.std.specs.Prelude.{if◌then◌else◌, None, Some, IfSome, IfNone, IfOk, OnOk, OnErr, IsTrue, IsFalse};
ghost use Rattle.std.specs.List.{IsDistinct};
ghost use Rattle.std.specs.Option.{option_map};
ghost use Rattle.std.specs.Map.{keys_of, lookup};
ghost use Rattle.coefficient_cache.specs.Pairs.{key_eq, coefficient_eq, coefficient_at, has, holds, in_series};
ghost use Rattle.coefficient_cache.specs.Views.{IsInFront, RenewsFront, hits, others, are_new};
ghost use Rattle.coefficient_cache.specs.Caches.{IsCapacity, IsValid};
ghost use Rattle.om3_coeff.specs.declared.coef.Coef.{Coef};
ghost use Rattle.coefficient_cache.specs.Puts.{shown, AreFound, IsTold, IsFirstHeld, HasKeys, put_entries, put_in};

use crate::in_line::{flags_in_line, set_in_line};
use crate::series_key::SeriesKey;
use om3_coeff::{Coef, Key};
use std::alloc::{AllocError, Global};
use std::collections::HashMap;
use std::marker::Model;

/// Pairs, the one that was put last before the others, at most as many as a capacity.
///
/// They stand in the order in which they were put. A pair whose key is put again, or that falls off,
/// leaves an empty place, until the list is packed. A key has a number for as long as it is held, so
/// nothing is hashed where its pair moves.
#[derive(Drop)]
pub struct PairList {
    puts: Vec<Option<(SeriesKey, Coef)>>,
    // The number of the pair at each place.
    owners: Vec<usize>,
    // Where the pair of each number stands.
    places: Vec<usize>,
    // The number of each key.
    numbers: HashMap<SeriesKey, usize>,
    // No pair stands before this place.
    start: usize,
    capacity: u32,
}

impl Model for PairList {
    ghost use Rattle.std.specs.Prelude.{reverse};
    ghost use Rattle.coefficient_cache.specs.Caches.{Cache};
    ghost use Rattle.coefficient_cache.specs.Puts.{shown, AreStored};

    ghost Value = { Cache };

    ghost view = { λ l. record { pairs = reverse (shown l.puts.items); capacity = l.capacity } };

    ghost invariant = { λ l. AreStored l.puts.items l.owners.items l.places.items l.numbers.entries l.start l.capacity };
}

// So many places may be empty, and so many numbers let go, and three quarters as many as there are
// pairs.
const SPARE: usize = 1_024;

// At so many places the next key is looked for before it is looked up.
const NEAR: usize = 8;

impl PairList {
    /// An empty list. It takes no memory.
    pub(crate) fn new(alloc: Global, capacity: u32) -> PairList
        requires { IsCapacity capacity }
        ensures { result ≡ record { pairs = []; capacity = capacity } }
    {
        PairList {
            puts: Vec::new(alloc),
            owners: Vec::new(alloc),
            places: Vec::new(alloc),
            numbers: HashMap::new(alloc),
            start: 0,
            capacity,
        }
    }

    /// How many pairs the list has.
    pub(crate) fn len(&self) -> usize
        ensures len { result ≡ length self.now.pairs }
        ensures valid { IsValid self.now }
        ensures limit { IsCapacity self.now.capacity }
    {
        self.numbers.len()
    }

    pub(crate) fn is_empty(&self) -> bool
        ensures { result ≡ (length self.now.pairs == 0) }
    {
        self.len() == 0
    }

    pub(crate) fn capacity(&self) -> u32
        ensures value { result ≡ self.now.capacity }
        ensures limit { IsCapacity self.now.capacity }
    {
        self.capacity
    }

    /// The coefficient of a key.
    pub(crate) fn find(&self, key: SeriesKey) -> Option<Coef>
        ensures { result ≡ coefficient_at self.now.pairs key }
    {
        self.find_near(self.puts.len(), key).0
    }

    /// The coefficient of a key, and where to look for the next one. The key is looked for at some places
    /// from this one on, and looked up where it isn't there: keys are mostly needed in the order in
    /// which they were.
    pub(crate) fn find_near(&self, from: usize, key: SeriesKey) -> (Option<Coef>, usize)
        ensures { result.0 ≡ coefficient_at self.now.pairs key }
    {
        let puts = self.puts.as_slice();
        let Some(place) = place_of(puts, self.places.as_slice(), &self.numbers, from, key) else {
            return (None, from);
        };
        (coef_of(puts[place]), place.saturating_add(1))
    }

    /// Whether the needed pairs are the first ones of the list, the one that is needed last before the
    /// others: so a view leaves them that needs all of them. It looks nothing up.
    pub(crate) fn is_in_front(&self, series: u16, needed: &[(Key, Coef)]) -> bool
        ensures { IsTrue result → IsInFront self.now.pairs series needed.now }
    {
        let puts = self.puts.as_slice();
        if puts.len() < needed.len() {
            return false;
        }
        let front = puts.len() - needed.len();
        for (i, (key, coef)) in needed.iter().enumerate() {
            if !is_put(puts[front + i], SeriesKey::new(series, *key), *coef) {
                return false;
            }
        }
        true
    }

    /// Gives the first pairs of the list their needed coefficients, where they are of just the needed
    /// keys, in the order in which a view leaves them. Whether they are. It looks nothing up.
    pub(crate) fn renew_front(&mut self, series: u16, needed: &[(Key, Coef)]) -> bool
        ensures front { IsTrue result → RenewsFront self.old.pairs self.new.pairs series needed.now }
        ensures other { IsFalse result → self.new ≡ self.old }
        ensures capacity { self.new.capacity ≡ self.old.capacity }
    {
        if !have_keys(self.puts.as_slice(), series, needed) {
            return false;
        }
        set_coefs(&mut self.puts, series, needed);
        true
    }

    /// Gives the needed pairs that the list holds their needed coefficients, where they stand in front of
    /// all others, in the order in which a view leaves them. Whether they do, and of each needed key
    /// whether it is new; where they don't, nothing changes, and the flags are of no use.
    pub(crate) fn renew_in_line(
        &mut self,
        alloc: Global,
        series: u16,
        needed: &[(Key, Coef)],
    ) -> Result<(bool, Vec<bool>), AllocError>
        ensures hits { let all = in_series series needed.now in IfOk result (λ told. IsTrue told.0 →
            self.new.pairs ≡ reverse (hits self.old.pairs all) ++ others self.old.pairs all) }
        ensures news { IfOk result (λ told. IsTrue told.0 →
            told.1.items ≡ are_new self.old.pairs (in_series series needed.now)) }
        ensures other { IfOk result (λ told. IsFalse told.0 → self.new ≡ self.old) }
        ensures capacity { self.new.capacity ≡ self.old.capacity }
    {
        let start = self.line_start(series, needed);
        let puts = self.puts.as_slice();
        let (is_in_line, is_new) = flags_in_line(
            alloc,
            puts,
            &self.numbers,
            start,
            series,
            needed,
        )?;
        if !is_in_line {
            return Ok((false, is_new));
        }
        set_in_line(&mut self.puts, start, series, needed, &is_new);
        Ok((true, is_new))
    }

    // Where the needed pairs start, if the first of them is held. Any place is right.
    fn line_start(&self, series: u16, needed: &[(Key, Coef)]) -> usize {
        let puts = self.puts.as_slice();
        let Some((key, _)) = needed.first() else {
            return puts.len();
        };
        let key = SeriesKey::new(series, *key);
        let places = self.places.as_slice();
        place_of(puts, places, &self.numbers, self.start, key).unwrap_or(puts.len())
    }

    /// Whether the pair stands at this place.
    pub(crate) fn is_at(&self, place: usize, key: SeriesKey, coef: Coef) -> bool
        ensures { IsTrue result → holds self.now.pairs (key, coef) ≡ true }
    {
        let puts = self.puts.as_slice();
        is_put_at(puts, place, key, coef)
    }

    /// Makes room for so many pairs more, and for as many that are put again.
    pub(crate) fn reserve(&mut self, count: usize) -> Result<(), AllocError>
        ensures { self.new ≡ self.old }
    {
        self.puts.reserve(count.saturating_mul(2))?;
        self.owners.reserve(count.saturating_mul(2))?;
        self.places.reserve(count)?;
        self.numbers.reserve(count)
    }

    /// Puts a pair in front, of a key that isn't in the list. What passes the capacity falls off the end.
    pub(crate) fn put(&mut self, key: SeriesKey, coef: Coef) -> Result<(), AllocError>
        requires { has self.old.pairs key ≡ false }
        ensures pairs { OnOk result (self.new.pairs ≡ put_entries key_eq self.old.pairs self.old.capacity key coef) }
        ensures capacity { self.new.capacity ≡ self.old.capacity }
    {
        self.make_room();
        self.add(key, coef)
    }

    /// Drops the last pair of a full list.
    fn make_room(&mut self)
        ensures room { length self.new.pairs < self.new.capacity }
        ensures pairs { self.new.pairs ≡ take (self.old.capacity - 1) self.old.pairs }
        ensures capacity { self.new.capacity ≡ self.old.capacity }
    {
        if self.len() < self.capacity() as usize {
            return;
        }
        self.drop_last();
    }

    /// The same of a key that is in the list; no other one is put. Whether it is, and where to look for the
    /// next one; this one is looked for as `find_near` does.
    pub(crate) fn put_again(
        &mut self,
        from: usize,
        key: SeriesKey,
        coef: Coef,
    ) -> Result<(bool, usize), AllocError>
        ensures there { IfOk result (λ r. r.0 ≡ has self.old.pairs key) }
        ensures pairs { OnOk result (self.new.pairs ≡
            (if has self.old.pairs key then put_entries key_eq self.old.pairs self.old.capacity key coef else self.old.pairs)) }
        ensures capacity { self.new.capacity ≡ self.old.capacity }
    {
        let puts = self.puts.as_slice();
        let Some(place) = place_of(puts, self.places.as_slice(), &self.numbers, from, key) else {
            return Ok((false, from));
        };
        move_last(
            &mut self.puts,
            &mut self.owners,
            &mut self.places,
            place,
            key,
            coef,
        )?;
        Ok((true, place.saturating_add(1)))
    }

    /// Puts a pair in front, of a key that isn't in the list, where there is room for it.
    fn add(&mut self, key: SeriesKey, coef: Coef) -> Result<(), AllocError>
        requires new { has self.old.pairs key ≡ false }
        requires room { length self.old.pairs < self.old.capacity }
        ensures pairs { OnOk result (self.new.pairs ≡ (key, coef) ∷ self.old.pairs) }
        ensures capacity { self.new.capacity ≡ self.old.capacity }
    {
        add_last(
            &mut self.puts,
            &mut self.owners,
            &mut self.places,
            &mut self.numbers,
            key,
            coef,
        )
    }

    /// Drops the last pair, if there is any.
    fn drop_last(&mut self)
        ensures pairs { self.new.pairs ≡ take (length self.old.pairs - 1) self.old.pairs }
        ensures capacity { self.new.capacity ≡ self.old.capacity }
    {
        let Some((place, key)) = first_held(self.puts.as_slice(), self.start) else {
            return;
        };
        self.numbers.remove(&key);
        self.puts[place] = None;
        self.start = place;
    }

    /// Packs the list where more than three quarters as many places are empty, or as many numbers were let
    /// go, as there are pairs, and `SPARE`.
    pub(crate) fn pack(&mut self, alloc: Global) -> Result<(), AllocError>
        ensures pairs { OnOk result (self.new.pairs ≡ self.old.pairs) }
        ensures capacity { self.new.capacity ≡ self.old.capacity }
    {
        let count = self.numbers.len();
        let most = count + count / 2 + count / 4 + SPARE;
        if self.places.len() > most {
            *self = packed(alloc, self.puts.as_slice(), count, self.capacity)?;
            return Ok(());
        }
        if self.puts.len() > most {
            close_up(
                &mut self.puts,
                &mut self.owners,
                &mut self.places,
                &self.numbers,
            );
            self.start = 0;
        }
        Ok(())
    }
}

// The place of a key's pair, where it is held. It is looked for at this one first, where it mostly is.
fn place_of(
    puts: &[Option<(SeriesKey, Coef)>],
    places: &[usize],
    numbers: &HashMap<SeriesKey, usize>,
    from: usize,
    key: SeriesKey,
) -> Option<usize>
    requires { IsTold puts.now places.now numbers.now.entries key }
    ensures held { IfSome result (λ i. (v : Coef) × (get_or puts.now i None ≡ Some (key, v))) }
    ensures none { IfNone result (lookup (key_eq key) numbers.now.entries ≡ None) }
{
    if stands_at(puts, from, key) {
        return Some(from);
    }
    place_beyond(puts, places, numbers, from, key)
}

// Whether a pair of this key is held at the place.
pub(crate) fn stands_at(puts: &[Option<(SeriesKey, Coef)>], place: usize, key: SeriesKey) -> bool
    ensures { IsTrue result → (v : Coef) × (get_or puts.now place None ≡ Some (key, v)) }
{
    if puts.len() <= place {
        return false;
    }
    is_of(puts[place], key)
}

// Whether this pair is held at the place.
fn is_put_at(puts: &[Option<(SeriesKey, Coef)>], place: usize, key: SeriesKey, coef: Coef) -> bool
    ensures { IsTrue result → get_or puts.now place None ≡ Some (key, coef) }
{
    if puts.len() <= place {
        return false;
    }
    is_put(puts[place], key, coef)
}

// The same; it is looked for at some places from this one on, and looked up where it isn't there.
fn place_beyond(
    puts: &[Option<(SeriesKey, Coef)>],
    places: &[usize],
    numbers: &HashMap<SeriesKey, usize>,
    from: usize,
    key: SeriesKey,
) -> Option<usize>
    requires { IsTold puts.now places.now numbers.now.entries key }
    ensures held { IfSome result (λ i. (v : Coef) × (get_or puts.now i None ≡ Some (key, v))) }
    ensures none { IfNone result (lookup (key_eq key) numbers.now.entries ≡ None) }
{
    let near = near_place(puts, from, key);
    if near.is_some() {
        return near;
    }
    match numbers.get(&key) {
        Some(number) => Some(places[*number]),
        None => None,
    }
}

// The place of a key's pair, where it is held at one of some places from this one on.
fn near_place(puts: &[Option<(SeriesKey, Coef)>], from: usize, key: SeriesKey) -> Option<usize>
    ensures { IfSome result (λ i. (v : Coef) × (get_or puts.now i None ≡ Some (key, v))) }
{
    for place in from..from.saturating_add(NEAR).min(puts.len()) {
        if is_of(puts[place], key) {
            return Some(place);
        }
    }
    None
}

// Puts a pair of a new key behind all others.
fn add_last(
    puts: &mut Vec<Option<(SeriesKey, Coef)>>,
    owners: &mut Vec<usize>,
    places: &mut Vec<usize>,
    numbers: &mut HashMap<SeriesKey, usize>,
    key: SeriesKey,
    coef: Coef,
) -> Result<(), AllocError>
    requires { lookup (key_eq key) numbers.old.entries ≡ None }
    ensures puts { OnOk result (puts.new.items ≡ puts.old.items ++ Some (key, coef) ∷ []) }
    ensures owners { OnOk result (owners.new.items ≡ owners.old.items ++ length places.old.items ∷ []) }
    ensures places { OnOk result (places.new.items ≡ places.old.items ++ length puts.old.items ∷ []) }
    ensures numbers { OnOk result ((q : SeriesKey) → lookup (key_eq q) numbers.new.entries ≡
        (if key_eq key q then Some (length places.old.items) else lookup (key_eq q) numbers.old.entries)) }
    ensures count { OnOk result (length numbers.new.entries ≡ length numbers.old.entries + 1) }
    ensures puts_stay { OnErr result (puts.new.items ≡ puts.old.items) }
    ensures owners_stay { OnErr result (owners.new.items ≡ owners.old.items) }
    ensures places_stay { OnErr result (places.new.items ≡ places.old.items) }
    ensures numbers_stay { OnErr result (numbers.new.entries ≡ numbers.old.entries) }
{
    puts.reserve(1)?;
    owners.reserve(1)?;
    places.reserve(1)?;
    let number = places.len();
    let end = puts.len();
    numbers.insert(key, number)?;
    let Ok(()) = puts.push(Some((key, coef))) else {
        unreachable!()
    };
    let Ok(()) = owners.push(number) else {
        unreachable!()
    };
    let Ok(()) = places.push(end) else {
        unreachable!()
    };
    Ok(())
}

// Puts the pair of a place behind all others, with this coefficient. Its old place is empty then.
fn move_last(
    puts: &mut Vec<Option<(SeriesKey, Coef)>>,
    owners: &mut Vec<usize>,
    places: &mut Vec<usize>,
    place: usize,
    key: SeriesKey,
    coef: Coef,
) -> Result<(), AllocError>
    requires place { place < length puts.old.items }
    requires owners { length owners.old.items ≡ length puts.old.items }
    requires number { get_or owners.old.items place 0 < length places.old.items }
    ensures puts { OnOk result (puts.new.items ≡ set (puts.old.items ++ Some (key, coef) ∷ []) place None) }
    ensures owners { OnOk result (owners.new.items ≡ owners.old.items ++ get_or owners.old.items place 0 ∷ []) }
    ensures places { OnOk result (places.new.items ≡ set places.old.items (get_or owners.old.items place 0) (length puts.old.items)) }
    ensures puts_stay { OnErr result (puts.new.items ≡ puts.old.items) }
    ensures owners_stay { OnErr result (owners.new.items ≡ owners.old.items) }
    ensures places_stay { OnErr result (places.new.items ≡ places.old.items) }
{
    puts.reserve(1)?;
    owners.reserve(1)?;
    let end = puts.len();
    let number = owners[place];
    let Ok(()) = puts.push(Some((key, coef))) else {
        unreachable!()
    };
    let Ok(()) = owners.push(number) else {
        unreachable!()
    };
    puts[place] = None;
    places[number] = end;
    Ok(())
}

// Moves the pairs that are held to the first places, in their order.
fn close_up(
    puts: &mut Vec<Option<(SeriesKey, Coef)>>,
    owners: &mut Vec<usize>,
    places: &mut Vec<usize>,
    numbers: &HashMap<SeriesKey, usize>,
)
    requires { AreFound puts.old.items owners.old.items places.old.items numbers.now.entries }
    ensures found { AreFound puts.new.items owners.new.items places.new.items numbers.now.entries }
    ensures shown { shown puts.new.items ≡ shown puts.old.items }
{
    let mut count = 0;
    for place in 0..puts.len() {
        if let Some((key, coef)) = puts[place] {
            move_down(puts, owners, places, place, count, key, coef);
            count += 1;
        }
    }
    puts.truncate(count);
    owners.truncate(count);
}

// Moves the pair of a place to one that is before it, or is the same.
fn move_down(
    puts: &mut Vec<Option<(SeriesKey, Coef)>>,
    owners: &mut Vec<usize>,
    places: &mut Vec<usize>,
    place: usize,
    to: usize,
    key: SeriesKey,
    coef: Coef,
)
    requires place { place < length puts.old.items }
    requires to { to ≤ place }
    requires owners { length owners.old.items ≡ length puts.old.items }
    requires number { get_or owners.old.items place 0 < length places.old.items }
    ensures puts { puts.new.items ≡ set (set puts.old.items place None) to (Some (key, coef)) }
    ensures owners { owners.new.items ≡ set owners.old.items to (get_or owners.old.items place 0) }
    ensures places { places.new.items ≡ set places.old.items (get_or owners.old.items place 0) to }
{
    let number = owners[place];
    puts[place] = None;
    puts[to] = Some((key, coef));
    owners[to] = number;
    places[number] = to;
}

// The coefficient of a pair that is held.
fn coef_of(put: Option<(SeriesKey, Coef)>) -> Option<Coef>
    ensures { result ≡ option_map (λ e. e.1) put }
{
    match put {
        Some((_, coef)) => Some(coef),
        None => None,
    }
}

// Whether this pair is held.
fn is_put(put: Option<(SeriesKey, Coef)>, key: SeriesKey, coef: Coef) -> bool
    ensures { IsTrue result → put ≡ Some (key, coef) }
{
    match put {
        Some((held, value)) => is_pair(held, value, key, coef),
        None => false,
    }
}

// Whether a pair of this key is held.
fn is_of(put: Option<(SeriesKey, Coef)>, key: SeriesKey) -> bool
    ensures { IsTrue result → (v : Coef) × (put ≡ Some (key, v)) }
{
    match put {
        Some((held, _)) => held == key,
        None => false,
    }
}

// Whether the last pairs are of the needed keys, in order, and all are held.
fn have_keys(puts: &[Option<(SeriesKey, Coef)>], series: u16, needed: &[(Key, Coef)]) -> bool
    ensures { IsTrue result → HasKeys puts.now series needed.now }
{
    if puts.len() < needed.len() {
        return false;
    }
    let front = puts.len() - needed.len();
    for (i, (key, _)) in needed.iter().enumerate() {
        if !is_of(puts[front + i], SeriesKey::new(series, *key)) {
            return false;
        }
    }
    true
}

// Puts the needed pairs in the place of the last ones.
fn set_coefs(puts: &mut Vec<Option<(SeriesKey, Coef)>>, series: u16, needed: &[(Key, Coef)])
    requires { length needed.now ≤ length puts.old.items }
    ensures { puts.new.items ≡ take (length puts.old.items - length needed.now) puts.old.items ++ put_in series needed.now }
{
    let front = puts.len() - needed.len();
    for (i, (key, coef)) in needed.iter().enumerate() {
        puts[front + i] = Some((SeriesKey::new(series, *key), *coef));
    }
}

// Whether two pairs are the same.
fn is_pair(key: SeriesKey, held: Coef, wanted: SeriesKey, coef: Coef) -> bool
    ensures { result ≡ (key_eq key wanted && coefficient_eq held coef) }
{
    key == wanted && held == coef
}

// The place and the key of the first pair that is held. None before the start is.
fn first_held(puts: &[Option<(SeriesKey, Coef)>], start: usize) -> Option<(usize, SeriesKey)>
    requires { (i : ℕ) → i < start → get_or puts.now i None ≡ None }
    ensures first { IfSome result (λ r. IsFirstHeld puts.now r.0 r.1) }
    ensures none { IfNone result (shown puts.now ≡ []) }
{
    for place in start..puts.len() {
        if let Some((key, _)) = puts[place] {
            return Some((place, key));
        }
    }
    None
}

// A list of the pairs that are held, with no empty place. Room for so many is made at once.
fn packed(
    alloc: Global,
    puts: &[Option<(SeriesKey, Coef)>],
    count: usize,
    capacity: u32,
) -> Result<PairList, AllocError>
    requires limit { IsCapacity capacity }
    requires apart { IsDistinct key_eq (keys_of (shown puts.now)) }
    requires within { length (shown puts.now) ≤ capacity }
    ensures { IfOk result (λ list. list ≡ record { pairs = reverse (shown puts.now); capacity = capacity }) }
{
    let mut list = PairList::new(alloc, capacity);
    list.reserve(count)?;
    for place in 0..puts.len() {
        if let Some((key, coef)) = puts[place] {
            list.add(key, coef)?;
        }
    }
    Ok(list)
}
