ghost use Rattle.std.specs.Prelude.{◌≡◌, ◌+◌, ◌<◌, ◌≤◌, [], length, max, take, drop, slice_get, All, false, unsigned_abs, IfOk, IfErr};
ghost use Rattle.std.specs.Prelude.{IfSome, IsSomeAnd, OnOk, OnErr, Ok};
ghost use Rattle.whole_number.specs.SlotTimes.{EndsInTime};
ghost use Rattle.series_book.specs.declared.limits.TheConstants.{FIXED_PAGES, MOST_SLOTS, GREATEST_START, GREATEST_STEP, GREATEST_SCALE};
ghost use Rattle.series_book.specs.declared.edits.Edit.TheVariants.{Create, Append, Set, Clear};
ghost use Rattle.series_book.specs.Edits.{IsEdit, RefusesEdit, apply, is_too_large, overwritten, with_slots, within};

use crate::books::Book;
use crate::checks::{append_refusal, clear_refusal, place_of, set_refusal};
use crate::edits::Edit;
use crate::errors::BookError;
use crate::limits::{FIXED_PAGES, MOST_SERIES};
use crate::names::Name;
use crate::one_series::Series;
use crate::outcomes::Outcome;
use crate::page_count::series_pages;
use crate::refusals::Refusal;
use crate::value_list::Values;
use std::alloc::{AllocError, Global};
use std::marker::Model;

/// A book that is held as plain lists, and the number of pages that it may take. It is the plain
/// program to which a store of pages is compared.
#[derive(Drop)]
pub struct ListBook {
    alloc: Global,
    book: Book,
    total: u64,
    used: u64,
}

impl Model for ListBook {
    ghost use Rattle.std.specs.Prelude.{◌≡◌};
    ghost use Rattle.series_book.specs.Pages.{pages_of};
    ghost use Rattle.series_book.specs.Books.{LimitedBook};

    ghost Value = { LimitedBook };

    ghost view = { λ list. record { book = list.book; total = list.total } };

    ghost invariant = { λ list. list.used ≡ pages_of list.book };
}

impl ListBook {
    /// A book without a series, which may take this many pages.
    pub fn new(alloc: Global, pages: u64) -> Result<ListBook, AllocError>
        requires { FIXED_PAGES ≤ pages }
        ensures empty { IfOk result (λ list. list.book ≡ []) }
        ensures total { IfOk result (λ list. list.total ≡ pages) }
    {
        let book = Book::new(alloc)?;
        Ok(ListBook {
            alloc,
            book,
            total: pages,
            used: FIXED_PAGES,
        })
    }

    /// The book.
    pub fn book(&self) -> &Book
        ensures { result.now ≡ self.now.book }
    {
        &self.book
    }

    /// The number of pages that the book may take.
    pub fn total(&self) -> u64
        ensures { result ≡ self.now.total }
    {
        self.total
    }

    /// Does the edit. It is refused exactly where a refusal stands, with the first that does; then,
    /// and where memory is wanting, the book is as it was.
    pub fn apply(&mut self, edit: &Edit) -> Result<Outcome, BookError>
        requires { IsEdit edit.now }
        ensures ok { IfOk result (λ outcome. apply self.old.book self.old.total edit.now ≡ Ok
            (record { book = self.new.book; slots = outcome.slots })) }
        ensures refused { IfErr result (λ error. RefusesEdit (apply self.old.book self.old.total edit.now) error) }
        ensures err { OnErr result (self.new ≡ self.old) }
        ensures total { self.new.total ≡ self.old.total }
    {
        match edit {
            Edit::Create {
                name,
                start,
                step,
                scale,
            } => self.create(name, *start, *step, *scale),
            Edit::Append { name, values } => self.append(name, values),
            Edit::Set { name, time, values } => self.set(name, *time, values),
            Edit::Clear { name, time, count } => self.clear(name, *time, *count),
        }
    }

    fn create(
        &mut self,
        name: &Name,
        start: i64,
        step: u32,
        scale: u8,
    ) -> Result<Outcome, BookError>
        requires start_in_range { unsigned_abs start ≤ GREATEST_START }
        requires step_above_zero { 1 ≤ step }
        requires step_in_range { step ≤ GREATEST_STEP }
        requires scale_in_range { scale ≤ GREATEST_SCALE }
        ensures ok { IfOk result (λ outcome. apply self.old.book self.old.total (Create name.now start step scale) ≡ Ok
            (record { book = self.new.book; slots = outcome.slots })) }
        ensures refused { IfErr result (λ error. RefusesEdit
            (apply self.old.book self.old.total (Create name.now start step scale)) error) }
        ensures err { OnErr result (self.new ≡ self.old) }
        ensures total { self.new.total ≡ self.old.total }
    {
        if self.book.find(name).is_some() {
            return Err(BookError::Refused(Refusal::SeriesExists));
        }
        if self.book.len() >= MOST_SERIES {
            return Err(BookError::Refused(Refusal::TooManySeries));
        }
        let name = name.copy()?;
        self.book
            .add(Series::empty(self.alloc, name, start, step, scale))?;
        Ok(Outcome { slots: 0 })
    }

    fn append(&mut self, name: &Name, values: &Values) -> Result<Outcome, BookError>
        ensures ok { IfOk result (λ outcome. apply self.old.book self.old.total (Append name.now values.now) ≡ Ok
            (record { book = self.new.book; slots = outcome.slots })) }
        ensures refused { IfErr result (λ error. RefusesEdit (apply self.old.book self.old.total (Append name.now values.now)) error) }
        ensures err { OnErr result (self.new ≡ self.old) }
        ensures total { self.new.total ≡ self.old.total }
    {
        let Some(id) = self.book.find(name) else {
            return Err(BookError::Refused(Refusal::UnknownSeries));
        };
        let axis = self.book.series(id).axis();
        if let Some(refusal) = append_refusal(axis, values) {
            return Err(BookError::Refused(refusal));
        }
        let place = axis.slots as usize;
        let run = values.to_slots()?;
        self.put_within(id, place, &run)
    }

    fn set(&mut self, name: &Name, time: i128, values: &Values) -> Result<Outcome, BookError>
        ensures ok { IfOk result (λ outcome. apply self.old.book self.old.total (Set name.now time values.now) ≡ Ok
            (record { book = self.new.book; slots = outcome.slots })) }
        ensures refused { IfErr result (λ error. RefusesEdit (apply self.old.book self.old.total (Set name.now time values.now)) error) }
        ensures err { OnErr result (self.new ≡ self.old) }
        ensures total { self.new.total ≡ self.old.total }
    {
        let Some(id) = self.book.find(name) else {
            return Err(BookError::Refused(Refusal::UnknownSeries));
        };
        let axis = self.book.series(id).axis();
        if let Some(refusal) = set_refusal(axis, time, values) {
            return Err(BookError::Refused(refusal));
        }
        let place = place_of(axis, time) as usize;
        let run = values.to_slots()?;
        self.put_within(id, place, &run)
    }

    fn clear(&mut self, name: &Name, time: i128, count: u64) -> Result<Outcome, BookError>
        ensures ok { IfOk result (λ outcome. apply self.old.book self.old.total (Clear name.now time count) ≡ Ok
            (record { book = self.new.book; slots = outcome.slots })) }
        ensures refused { IfErr result (λ error. RefusesEdit (apply self.old.book self.old.total (Clear name.now time count)) error) }
        ensures err { OnErr result (self.new ≡ self.old) }
        ensures total { self.new.total ≡ self.old.total }
    {
        let Some(id) = self.book.find(name) else {
            return Err(BookError::Refused(Refusal::UnknownSeries));
        };
        let axis = self.book.series(id).axis();
        if let Some(refusal) = clear_refusal(axis, time, count) {
            return Err(BookError::Refused(refusal));
        }
        let length = axis.slots as usize;
        let place = place_of(axis, time).min(length as u128) as usize;
        let end = (place + count as usize).min(length);
        let mut run = Vec::new(self.alloc);
        run.resize(end - place, None)?;
        self.put(id, place, &run)?;
        Ok(Outcome {
            slots: length as u64,
        })
    }

    /// Writes a run into a series, where the pages then stay within the total.
    fn put_within(
        &mut self,
        id: usize,
        place: usize,
        run: &[Option<i64>],
    ) -> Result<Outcome, BookError>
        requires there { id < length self.old.book }
        requires room { place + length run.now ≤ MOST_SLOTS }
        requires last { IfSome (slice_get self.old.book id)
            (λ series. EndsInTime series.start series.step (max (length series.slots) (place + length run.now))) }
        requires in_range { All (λ value. is_too_large value ≡ false) run.now }
        ensures ok { IfOk result (λ outcome. IfSome (slice_get self.old.book id)
            (λ series. within self.old.total self.old.book id series (Ok (overwritten series.slots place run.now)) ≡ Ok
            (record { book = self.new.book; slots = outcome.slots }))) }
        ensures refused { IfErr result (λ error. IfSome (slice_get self.old.book id)
            (λ series. RefusesEdit (within self.old.total self.old.book id series (Ok (overwritten series.slots place run.now))) error)) }
        ensures err { OnErr result (self.new ≡ self.old) }
        ensures total { self.new.total ≡ self.old.total }
    {
        let before = self.book.series(id).slots.as_slice().len();
        let used = self.used;
        let displaced = self.put(id, place, run)?;
        let needed = self.used;
        if needed > self.total {
            self.book.take_back(id, place, &displaced, before);
            self.used = used;
            return Err(BookError::Refused(Refusal::Full {
                needed,
                have: self.total,
            }));
        }
        Ok(Outcome {
            slots: self.book.series(id).slots.as_slice().len() as u64,
        })
    }

    /// Writes a run into a series, and gives the slots that it displaced.
    fn put(
        &mut self,
        id: usize,
        place: usize,
        run: &[Option<i64>],
    ) -> Result<Vec<Option<i64>>, BookError>
        requires there { id < length self.old.book }
        requires room { place + length run.now ≤ MOST_SLOTS }
        requires last { IfSome (slice_get self.old.book id)
            (λ series. EndsInTime series.start series.step (max (length series.slots) (place + length run.now))) }
        requires in_range { All (λ value. is_too_large value ≡ false) run.now }
        ensures ok { OnOk result (IsSomeAnd (slice_get self.old.book id)
            (λ series. self.new.book ≡ with_slots self.old.book id series (overwritten series.slots place run.now))) }
        ensures displaced { IfOk result (λ old. IsSomeAnd (slice_get self.old.book id)
            (λ series. old.items ≡ take (length run.now) (drop place series.slots))) }
        ensures refused { IfErr result (λ error. error ≡ BookError.NoMemory) }
        ensures err { OnErr result (self.new ≡ self.old) }
        ensures total { self.new.total ≡ self.old.total }
    {
        let series = self.book.series(id);
        let old = series_pages(series.slots.as_slice());
        let displaced = self.book.put(id, place, run)?;
        let new = series_pages(self.book.series(id).slots.as_slice());
        self.used = self.used - old + new;
        Ok(displaced)
    }
}
