//! What a store tells of itself, and the selection of a series.
ghost use Rattle.std.specs.Prelude.{◌≡◌, ◌≤◌, ◌<◌, ◌^◌, ◌↔◌, Some, None, length, slice_get, IsTrue, IfSome, MatchOption};
ghost use Rattle.whole_number.specs.Range.{IsValue};
ghost use Rattle.om3_coeff.specs.Spans.{IsProperIfAny};
ghost use Rattle.om3_coeff.specs.View.{Agrees};
ghost use Rattle.whole_number.specs.SlotTimes.{EndsInTime};
ghost use Rattle.series_book.specs.declared.limits.TheConstants.{MOST_SLOTS};
ghost use Rattle.series_book.specs.Edits.{id_of};
ghost use Rattle.series_book.specs.Pages.{pages_of};
ghost use Rattle.page_space.specs.Layout.{in_use};
ghost use Rattle.series_store.specs.Asking.{IsFound, IsInfo, IsNamedAt, IsStoredInfo, LacksName};
ghost use Rattle.series_catalog.specs.declared.stored_series.StoredSeries.{StoredSeries};
ghost use Rattle.series_store.specs.Shown as shown;

use crate::opening::NO_TREE;
use crate::series_info::SeriesInfo;
use crate::store::Store;
use gate_pages::Pages;
use series_book::Name;

impl<P: Pages> Store<P> {
    /// The number of pages of the store. It never changes.
    pub fn total(&self) -> u32
        ensures total { result ≡ shown.total self.now }
        ensures books { shown.ForSoundBook self.now (λ total book. result ≡ total) }
    {
        self.space.total()
    }

    /// How many pages are in use, page 0 and the catalog among them. Nothing is read.
    pub fn used(&self) -> u32
        ensures used { result ≡ in_use (shown.numbers self.now) }
        ensures within { result ≤ shown.total self.now }
        ensures books { shown.ForSoundBook self.now (λ total book. result ≡ pages_of book) }
    {
        self.space.used()
    }

    /// How many series there are, at most 512.
    pub fn len(&self) -> u32
        ensures count { result ≡ length (shown.catalog self.now) }
        ensures few { result ≤ 512 }
        ensures books { shown.ForSoundBook self.now (λ total book. result ≡ length book) }
    {
        self.catalog.len()
    }

    /// Whether more calls may be made. After a fault in a commit they may not.
    pub fn is_sound(&self) -> bool
        ensures { IsTrue result ↔ shown.IsSound self.now }
    {
        self.space.is_sound()
    }

    /// The pages.
    pub fn into_pages(self) -> P
        ensures { result ≡ shown.pages self }
    {
        self.space.into_pages()
    }

    /// What is told of the series of this id.
    pub fn info(&self, id: u16) -> SeriesInfo
        requires { id < length (shown.catalog self.now) }
        ensures id { result.id ≡ id }
        ensures few { result.id < 512 }
        ensures step { (1 ≤ result.step) × (result.step ≤ 2 ^ 31) }
        ensures start { IsValue result.start }
        ensures scale { result.scale ≤ 9 }
        ensures slots { result.slots ≤ MOST_SLOTS }
        ensures last { EndsInTime result.start result.step result.slots }
        ensures tree { (series : StoredSeries) → slice_get (shown.catalog self.now) id ≡ Some series → result.slots ≡ series.tree.slots }
        ensures stored { (series : StoredSeries) → slice_get (shown.catalog self.now) id ≡ Some series → IsStoredInfo series result }
        ensures proper { IsProperIfAny result.span }
        ensures none { result.slots ≡ 0 → result.span ≡ None }
        ensures info { shown.ForSoundSeries self.now id (λ total book series. IsInfo series id result) }
    {
        let series = self.catalog.series(id);
        SeriesInfo {
            id,
            start: series.start,
            step: series.step,
            scale: series.scale,
            slots: series.tree.slots,
            span: series.tree.span,
        }
    }

    /// What is told of the series of this name; none exactly where no series has it.
    pub fn series(&self, name: &Name) -> Option<SeriesInfo>
        ensures there { IfSome result (λ info. info.id < length (shown.catalog self.now)) }
        ensures few { IfSome result (λ info. info.id < 512) }
        ensures step { IfSome result (λ info. (1 ≤ info.step) × (info.step ≤ 2 ^ 31)) }
        ensures start { IfSome result (λ info. IsValue info.start) }
        ensures scale { IfSome result (λ info. info.scale ≤ 9) }
        ensures slots { IfSome result (λ info. info.slots ≤ MOST_SLOTS) }
        ensures last { IfSome result (λ info. EndsInTime info.start info.step info.slots) }
        ensures proper { IfSome result (λ info. IsProperIfAny info.span) }
        ensures none { IfSome result (λ info. info.slots ≡ 0 → info.span ≡ None) }
        ensures info { shown.ForSoundBook self.now (λ total book. MatchOption result (id_of name.now book ≡ None) (IsFound name.now book)) }
        // so it is by the catalog that was read
        ensures named { MatchOption result (LacksName (shown.catalog self.now) name.now)
            (λ info. IsNamedAt (shown.catalog self.now) name.now info.id) }
    {
        let id = self.catalog.find(name)?;
        Some(self.info(id))
    }

    /// Selects the series of this id: the store is then the nodes of its tree.
    pub fn select(&mut self, id: u16)
        requires { id < length (shown.catalog self.old) }
        ensures space { shown.SamePages self.old self.new }
        ensures catalog { shown.SameCatalog self.old self.new }
        ensures fit { shown.IsSound self.new → (shown.nodes self.new).fit }
        ensures slots { (series : StoredSeries) → slice_get (shown.catalog self.old) id ≡ Some series
            → shown.selected self.new ≡ series.tree }
        ensures agrees { shown.ForSoundSeries self.old id (λ total book series. Agrees (shown.nodes self.new) series.slots) }
    {
        self.trail.forget();
        self.tree = self.catalog.series(id).tree;
    }

    /// Selects no series: the store has then no slots and no root.
    pub(crate) fn select_none(&mut self)
        ensures space { self.new.space ≡ self.old.space }
        ensures catalog { self.new.catalog ≡ self.old.catalog }
        ensures idle { shown.SelectsNone self.new }
    {
        self.trail.forget();
        self.tree = NO_TREE;
    }
}
