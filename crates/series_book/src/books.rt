ghost use Rattle.std.specs.Prelude.{◌≡◌, ℤ, ◌+◌, ◌-◌, ◌<◌, ◌≤◌, ◌↔◌, [], ◌∷◌, ◌++◌, length, max, IsTrue, IfSome, IfOk, OnOk, OnErr, Some};
ghost use Rattle.std.specs.Prelude.{None, slice_get, take, drop, All, false, List, Option, IsSomeAnd};
ghost use Rattle.series_book.specs.Edits.{id_of, with_slots, overwritten, is_too_large};
ghost use Rattle.series_book.specs.Books.{IsSeries, IsBook};
ghost use Rattle.whole_number.specs.SlotTimes.{EndsInTime};
ghost use Rattle.series_book.specs.declared.limits.TheConstants.{MOST_SLOTS};
ghost use Rattle.series_book.specs.declared.one_series.Series.{Series};

use crate::limits::MOST_SERIES;
use crate::names::Name;
use crate::one_series::Series;
use std::alloc::{AllocError, Global};
use std::marker::Model;

/// A list of series, no two of one name. The place of a series in it is the id of the series.
#[derive(Drop)]
pub struct Book {
    series: Vec<Series>,
}

impl Model for Book {
    ghost use Rattle.std.specs.Prelude.{List};
    ghost use Rattle.series_book.specs.declared.one_series.Series.{Series};
    ghost use Rattle.series_book.specs.Books.{IsBook};

    ghost Value = { List Series };

    ghost view = { λ book. book.series.items };

    ghost invariant = { λ book. IsBook book.series.items };
}

impl Book {
    /// A book without a series.
    pub(crate) fn new(alloc: Global) -> Result<Book, AllocError>
        ensures { IfOk result (λ book. book ≡ []) }
    {
        let series = Vec::with_capacity(alloc, MOST_SERIES)?;
        Ok(Book { series })
    }

    /// The series, in the order of their ids.
    pub fn as_slice(&self) -> &[Series]
        ensures series { result.now ≡ self.now }
        ensures book { IsBook self.now }
    {
        &self.series
    }

    /// The number of series.
    pub fn len(&self) -> usize
        ensures { result ≡ length self.now }
    {
        self.series.len()
    }

    /// Whether there is no series.
    pub fn is_empty(&self) -> bool
        ensures { IsTrue result ↔ (self.now ≡ []) }
    {
        self.series.is_empty()
    }

    /// The id of the series of this name, where there is one.
    #[tactic(auto, unfolding(crate::specs::Edits::id_of))]
    pub fn find(&self, name: &Name) -> Option<usize>
        ensures id { result ≡ id_of name.now self.now }
        ensures there { IfSome result (λ id. id < length self.now) }
    {
        self.series
            .iter()
            .position(|series| series.name.as_slice() == name.as_slice())
    }

    /// The series of this id.
    pub fn series(&self, id: usize) -> &Series
        requires { id < length self.now }
        ensures series { slice_get self.now id ≡ Some result.now }
        ensures in_range { IsSeries result.now }
        ensures book { IsBook self.now }
    {
        &self.series[id]
    }

    /// Adds a series at the end.
    pub(crate) fn add(&mut self, series: Series) -> Result<(), AllocError>
        requires in_range { IsSeries series }
        requires new { id_of series.name self.old ≡ None }
        requires room { length self.old < MOST_SERIES }
        ensures ok { OnOk result (self.new ≡ self.old ++ series ∷ []) }
        ensures err { OnErr result (self.new ≡ self.old) }
    {
        self.series.push(series)?;
        Ok(())
    }

    /// Writes a run into the slots of a series from a place on, and gives the slots that it displaced.
    pub(crate) fn put(
        &mut self,
        id: usize,
        place: usize,
        run: &[Option<i64>],
    ) -> Result<Vec<Option<i64>>, AllocError>
        requires there { id < length self.old }
        requires room { place + length run.now ≤ MOST_SLOTS }
        requires last { IfSome (slice_get self.old id)
            (λ series. EndsInTime series.start series.step (max (length series.slots) (place + length run.now))) }
        requires in_range { All (λ value. is_too_large value ≡ false) run.now }
        ensures ok { OnOk result (IsSomeAnd (slice_get self.old id)
            (λ series. self.new ≡ with_slots self.old id series (overwritten series.slots place run.now))) }
        ensures displaced { IfOk result (λ old. IsSomeAnd (slice_get self.old id)
            (λ series. old.items ≡ take (length run.now) (drop place series.slots))) }
        ensures err { OnErr result (self.new ≡ self.old) }
    {
        let series = &mut self.series[id];
        let displaced = series.slots.put(place, run)?;
        Ok(displaced)
    }

    /// Undoes a `put`, given what it displaced and the length before it.
    pub(crate) fn take_back(
        &mut self,
        id: usize,
        place: usize,
        displaced: &[Option<i64>],
        before: usize,
    )
        requires there { id < length self.old }
        requires shorter { IfSome (slice_get self.old id) (λ series. before ≤ length series.slots) }
        requires fits { length displaced.now ≤ before - place }
        requires in_range { All (λ value. is_too_large value ≡ false) displaced.now }
        ensures { (series : Series) (old run : List (Option ℤ)) → self.old ≡ with_slots self.old id series (overwritten old place run)
            → displaced.now ≡ take (length run) (drop place old) → before ≡ length old → self.new ≡ with_slots self.old id series old }
    {
        let series = &mut self.series[id];
        series.slots.take_back(place, displaced, before);
    }
}
