//! The stored values of a window of slots are read, page by page.
ghost use Rattle.std.specs.Prelude.{◌≡◌, ◌≢◌, ◌<◌, ◌≤◌, ◌+◌, ◌-◌, ◌^◌, ℤ, List, Option, Some, length, slice_get, IfErr, IfOk, OnOk};
ghost use Rattle.om3_coeff.specs.Keys.{first_slot, end_slot, page_levels};
ghost use Rattle.om3_coeff.specs.Spans.{IsProperIfAny};
ghost use Rattle.page_space.specs.Shown as spaces;
ghost use Rattle.path_repair.specs.Keeping.{IsMatched};
ghost use Rattle.series_book.specs.declared.limits.TheConstants.{MOST_SLOTS};
ghost use Rattle.series_catalog.specs.declared.stored_series.StoredSeries.{StoredSeries};
ghost use Rattle.tree_walk.specs.Trees.{StandsFor, top_of_page};
ghost use Rattle.series_store.specs.Looking as looks;
ghost use Rattle.series_store.specs.Opening.{IsOutside};
ghost use Rattle.series_store.specs.Sending.{ForListBelow};
ghost use Rattle.series_store.specs.Shown as shown;
ghost use Rattle.series_store.specs.WindowReading.{IsAdded, IsTreeWindowCause, IsWindowCause};
ghost use Rattle.series_store.specs.Windows.{AreBelow, AreNone, AreOf, AreOfSome, IsPiece, meets, pages_met, piece_end, reach, window};

use crate::counting::read_page;
use crate::errors::StoreError;
use crate::store::Store;
use crate::window_values::WindowValues;
use gate_pages::Pages;
use node_page::child_of;
use om3_coeff::{Key, Span, page_levels};
use page_space::Space;
use page_spans::PageSpans;
use tree_walk::Tree;

/// A window is read in pieces, each of which lies among so many slots that begin at a multiple of this number.
const PIECE: u64 = 4_096;

/// Where the first piece of a window ends: with the window, or at the next multiple of 4,096 slots. So the pieces of a
/// window, one behind the other, read each page that holds slots once.
pub fn piece_end(from: u64, to: u64) -> u64
    requires small { from < 2 ^ 63 }
    ensures end { result ≡ piece_end from to }
    ensures piece { IsPiece from result }
    ensures on { from < to → from < result }
    ensures within { result ≤ to }
{
    to.min(PIECE * (from / PIECE) + PIECE)
}

/// Whether the range of the page of this page level and index has a slot from `from` on and below `to`.
fn meets(level: u8, index: u64, from: u64, to: u64) -> bool
    requires level { level ≤ 5 }
    requires range { end_slot (top_of_page level index) ≤ MOST_SLOTS }
    ensures { result ≡ meets from to level index }
{
    let top = Key {
        level: 7 * level,
        index,
    };
    top.first() < to && from < top.end()
}

/// Adds the value of a slot.
fn add_slot(values: &mut WindowValues, slot: u64, span: Span) -> Result<(), StoreError>
    requires small { slot < 2 ^ 63 }
    ensures added { OnOk result (IsAdded slot span.min values.old values.new) }
    ensures memory { IfErr result (λ e. e ≡ StoreError.NoMemory) }
{
    let Ok(()) = values.add(slot, span.min) else {
        return Err(StoreError::NoMemory);
    };
    Ok(())
}

/// Adds the stored values of the window from `from` on and below `to` in the range of this page level and index,
/// which has this span: of a slot, or of those below this page. What is there is of the window's slots before the range.
fn add_below<P: Pages>(
    space: &mut Space<P>,
    level: u8,
    index: u64,
    from: u64,
    to: u64,
    page: u32,
    top: Option<Span>,
    values: &mut WindowValues,
) -> Result<(), StoreError>
    requires sound { spaces.IsSound space.old }
    requires level { level ≤ 5 }
    requires range { end_slot (top_of_page level index) ≤ MOST_SLOTS }
    requires page { page < spaces.total space.old }
    requires proper { IsProperIfAny top }
    requires matched { 1 ≤ level → IsMatched page top }
    ensures looks { looks.OnlyLooks space.old space.new }
    ensures reads { (spaces.view space.new).reads ≤ (spaces.view space.old).reads + pages_met from to level index }
    ensures some { AreOfSome from (reach from to (first_slot (top_of_page level index))) values.old
        → OnOk result (AreOfSome from (reach from to (end_slot (top_of_page level index))) values.new) }
    ensures values { ForListBelow space.old level index page top
        (λ list. AreBelow list from to (first_slot (top_of_page level index)) values.old
        → OnOk result (AreBelow list from to (end_slot (top_of_page level index)) values.new)) }
    ensures stands { ForListBelow space.old level index page top (λ list. IfErr result IsOutside) }
    ensures cause { IfErr result (λ e. IsTreeWindowCause e (spaces.IsTold space.old) (spaces.view space.old) (spaces.view space.new)
        (spaces.total space.old) level page top) }
    ensures quiet { OnOk result ((spaces.view space.new).faults ≡ (spaces.view space.old).faults) }
    ensures quiet_err { IfErr result (λ e. e ≢ StoreError.DiskFault → (spaces.view space.new).faults ≡ (spaces.view space.old).faults) }
{
    let Some(span) = top else {
        return Ok(());
    };
    if !meets(level, index, from, to) {
        return Ok(());
    }
    if level == 0 {
        return add_slot(values, index, span);
    }
    let mut bytes = [0; 4096];
    let mut spans = PageSpans::new();
    read_page(space, level, page, span, &mut bytes, &mut spans)?;
    for child in 0..128 {
        let under = child_of(&bytes, child);
        let part = spans.leaf(child);
        let at = 128 * index + child as u64;
        add_below(space, level - 1, at, from, to, under, part, values)?;
    }
    Ok(())
}

/// Adds the stored values of a piece of a window of a tree, where there are none yet.
fn add_window<P: Pages>(
    space: &mut Space<P>,
    tree: Tree,
    from: u64,
    to: u64,
    values: &mut WindowValues,
) -> Result<(), StoreError>
    requires sound { spaces.IsSound space.old }
    requires few_slots { tree.slots ≤ MOST_SLOTS }
    requires within { to ≤ tree.slots }
    requires piece { IsPiece from to }
    requires root { tree.root < spaces.total space.old }
    requires proper { IsProperIfAny tree.span }
    requires matched { IsMatched tree.root tree.span }
    requires none { AreNone values.old }
    ensures looks { looks.OnlyLooks space.old space.new }
    ensures reads { (spaces.view space.new).reads ≤ (spaces.view space.old).reads + 36 }
    ensures some { OnOk result (AreOfSome from (to - from) values.new) }
    ensures values { (list : List (Option ℤ)) → spaces.IsTold space.old
        → StandsFor (spaces.view space.old).image (spaces.total space.old) tree list
        → OnOk result (AreOf from (window list from to) values.new) }
    ensures stands { (list : List (Option ℤ)) → spaces.IsTold space.old
        → StandsFor (spaces.view space.old).image (spaces.total space.old) tree list → IfErr result IsOutside }
    ensures cause { IfErr result (λ e. IsTreeWindowCause e (spaces.IsTold space.old) (spaces.view space.old) (spaces.view space.new)
        (spaces.total space.old) (page_levels tree.slots) tree.root tree.span) }
    ensures quiet { OnOk result ((spaces.view space.new).faults ≡ (spaces.view space.old).faults) }
    ensures quiet_err { IfErr result (λ e. e ≢ StoreError.DiskFault → (spaces.view space.new).faults ≡ (spaces.view space.old).faults) }
{
    let levels = page_levels(tree.slots);
    add_below(space, levels, 0, from, to, tree.root, tree.span, values)
}

impl<P: Pages> Store<P> {
    /// The stored values of the series of this id in the slots from `from` on and below `to`, which are among 4,096
    /// that begin at a multiple of 4,096, as those below `piece_end` are. Only the pages on the way to these slots are
    /// read, each once: at most 32 that hold slots, and 4 above them.
    ///
    /// Each page that is read is checked; the first that is bad for its place is `Damaged`. Where the pages stand for a
    /// book none is. Nothing is written, and the selected series stays.
    pub fn values(&mut self, id: u16, from: u64, to: u64) -> Result<WindowValues, StoreError>
        requires sound { shown.IsSound self.old }
        requires there { id < length (shown.catalog self.old) }
        requires within { (series : StoredSeries) → slice_get (shown.catalog self.old) id ≡ Some series → to ≤ series.tree.slots }
        requires piece { IsPiece from to }
        ensures values { shown.ForSeries self.old id (λ total book series. IfOk result (AreOf from (window series.slots from to))) }
        ensures stands { shown.ForSeries self.old id (λ total book series. IfErr result IsOutside) }
        // whatever the pages are
        ensures some { IfOk result (AreOfSome from (to - from)) }
        ensures reads { (shown.view self.new).reads ≤ (shown.view self.old).reads + 36 }
        ensures cause { IfErr result (λ e. IsWindowCause e (shown.IsTold self.old) (shown.numbers self.old) id (shown.view self.old)
            (shown.view self.new)) }
        ensures quiet { OnOk result ((shown.view self.new).faults ≡ (shown.view self.old).faults) }
        ensures quiet_err { IfErr result (λ e. e ≢ StoreError.DiskFault → (shown.view self.new).faults ≡ (shown.view self.old).faults) }
        ensures looks { shown.OnlyLooks self.old self.new }
        ensures catalog { shown.SameCatalog self.old self.new }
        ensures selected { shown.SelectsSame self.old self.new }
    {
        let tree = self.catalog.series(id).tree;
        let mut values = WindowValues::new(self.alloc);
        add_window(&mut self.space, tree, from, to, &mut values)?;
        Ok(values)
    }
}
