//! The values of a tree are counted, and its pages checked.
ghost use Rattle.std.specs.Prelude.{◌≡◌, ◌≢◌, ◌<◌, ◌≤◌, ◌+◌, ◌*◌, ◌^◌, ◌↔◌, ℕ, false, Some, Option, length, is_some, IsTrue, IsOk, IfOk};
ghost use Rattle.std.specs.Prelude.{IfErr, OnOk, OnErr};
ghost use Rattle.block_disk.specs.View.{Rises};
ghost use Rattle.om3_coeff.specs.Spans.{IsProper, IsProperIfAny, span};
ghost use Rattle.node_page.specs.Layout.{has_child};
ghost use Rattle.page_spans.specs.Heaps.{span_at};
ghost use Rattle.path_repair.specs.Damage.{AreBelow};
ghost use Rattle.path_repair.specs.Forms.{AreTops};
ghost use Rattle.path_repair.specs.Keeping.{IsMatched};
ghost use Rattle.path_repair.specs.TreePages.{tree_pages};
ghost use Rattle.series_book.specs.declared.limits.TheConstants.{MOST_SLOTS};
ghost use Rattle.series_store.specs.Counting.{values_below, NamesBelow, IsSlot, AreParts, HasNoSlot, IsBadFor, IsSoundPage, IsSoundTree};
ghost use Rattle.series_store.specs.Counting.{NamesWithin, IsPageCause, IsTreeCause};
ghost use Rattle.page_space.specs.Shown as spaces;
ghost use Rattle.series_store.specs.Looking as looks;

use crate::errors::StoreError;
use gate_pages::Pages;
use node_page::{PageView, child_of};
use om3_coeff::Span;
use page_space::Space;
use page_spans::PageSpans;
use path_repair::names_within;

/// The spans below the top of a page, whose bytes are to be those of a page of this page level.
fn spread(
    bytes: &[u8],
    level: u8,
    total: u32,
    page: u32,
    top: Span,
    spans: &mut PageSpans,
) -> Result<(), StoreError>
    requires whole { length bytes.now ≡ 4096 }
    requires proper { IsProper top }
    ensures damaged { IfErr result (λ e. e ≡ StoreError.Damaged page) }
    ensures bad { OnErr result (IsBadFor total level (Some top) bytes.now) }
    ensures sound { OnOk result (IsSoundPage total level bytes.now) }
    ensures below { OnOk result (AreBelow (Some top) bytes.now (span_at spans.new)) }
    ensures children { OnOk result ((child : ℕ) → child < 128 → has_child bytes.now child ≡ is_some (span_at spans.new (127 + child))) }
    ensures tops { looks.ForNodes bytes.now level top
        (λ list under index. OnOk result (AreTops list under index (λ child. span_at spans.new (127 + child)))) }
    ensures stands { looks.ForNodes bytes.now level top (λ list under index. NamesBelow total bytes.now → IsOk result) }
{
    let damaged = StoreError::Damaged { page };
    let Ok(view) = PageView::new(bytes) else {
        return Err(damaged);
    };
    if view.level() != level || !names_within(&view, total) {
        return Err(damaged);
    }
    if spans.spread(&view, top).is_err() {
        return Err(damaged);
    }
    Ok(())
}

/// Reads a page of this page level, whose top has this span, and the spans below it.
pub(crate) fn read_page<P: Pages>(
    space: &mut Space<P>,
    level: u8,
    page: u32,
    top: Span,
    bytes: &mut [u8],
    spans: &mut PageSpans,
) -> Result<(), StoreError>
    requires sound { spaces.IsSound space.old }
    requires page { page < spaces.total space.old }
    requires proper { IsProper top }
    requires whole { length bytes.old ≡ 4096 }
    ensures looks { looks.OnlyLooks space.old space.new }
    ensures one_read { (spaces.view space.new).reads ≤ (spaces.view space.old).reads + 1 }
    ensures within { IfErr result (NamesWithin (spaces.total space.old)) }
    ensures cause { IfErr result (λ e. IsPageCause e (spaces.IsTold space.old) (spaces.view space.old) (spaces.view space.new)
        (spaces.total space.old) level page (Some top)) }
    ensures quiet { OnOk result ((spaces.view space.new).faults ≡ (spaces.view space.old).faults) }
    ensures quiet_err { IfErr result (λ e. e ≢ StoreError.DiskFault → (spaces.view space.new).faults ≡ (spaces.view space.old).faults) }
    ensures reads { Rises 1 (spaces.view space.old).reads (spaces.view space.new).reads }
    ensures bytes { spaces.IsTold space.old → OnOk result (bytes.new ≡ spaces.image space.old page) }
    ensures sound { OnOk result (IsSoundPage (spaces.total space.old) level bytes.new) }
    ensures below { OnOk result (AreBelow (Some top) bytes.new (span_at spans.new)) }
    ensures children { OnOk result ((child : ℕ) → child < 128 → has_child bytes.new child ≡ is_some (span_at spans.new (127 + child))) }
    ensures tops { looks.ForPage space.old level page top
        (λ list under index. OnOk result (AreTops list under index (λ child. span_at spans.new (127 + child)))) }
    ensures stands { looks.ForPage space.old level page top
        (λ list under index. NamesBelow (spaces.total space.old) (spaces.image space.old page)
        → IfErr result (λ e. e ≡ StoreError.DiskFault)) }
{
    let Ok(()) = space.get(page, bytes) else {
        return Err(StoreError::DiskFault);
    };
    spread(bytes, level, space.total(), page, top, spans)
}

/// Whether this one of so many slots may hold what has this span: nothing, or one value.
fn is_slot(held: Option<Span>, slot: u64, slots: u64) -> bool
    ensures { IsTrue result ↔ IsSlot slots slot held }
{
    match held {
        None => true,
        Some(span) => span.min == span.max && slot < slots,
    }
}

/// The index of a part of a range.
fn part_of(index: u64, child: u8) -> u64
    requires near { index < 2 ^ 28 }
    ensures { result ≡ 128 * index + child }
{
    128 * index + u64::from(child)
}

/// Whether each of the parts of a page of this page level and index is a slot that may hold what it does, where
/// the parts of a page of this page level are slots.
fn are_slots(spans: &PageSpans, level: u8, index: u64, slots: u64) -> bool
    requires near { index < 2 ^ 28 }
    ensures parts { IsTrue result → level ≡ 1 → AreParts slots index (span_at spans.now) }
    ensures lowest { result ≡ false → level ≡ 1 }
    ensures bad { result ≡ false → HasNoSlot slots index (span_at spans.now) }
{
    if level != 1 {
        return true;
    }
    for child in 0..128 {
        if !is_slot(spans.leaf(child), part_of(index, child), slots) {
            return false;
        }
    }
    true
}

/// How many values are stored in a range of this page level and index, of a series with so many slots. The range has
/// this span: in a slot, or below this page.
pub(crate) fn count_values<P: Pages>(
    space: &mut Space<P>,
    slots: u64,
    level: u8,
    index: u64,
    page: u32,
    top: Option<Span>,
) -> Result<u64, StoreError>
    requires sound { spaces.IsSound space.old }
    requires level { level ≤ 5 }
    requires page { page < spaces.total space.old }
    requires proper { IsProperIfAny top }
    requires matched { 1 ≤ level → IsMatched page top }
    requires near { (index + 1) * 128 ^ level ≤ MOST_SLOTS }
    requires slot { level ≡ 0 → IsSlot slots index top }
    ensures looks { looks.OnlyLooks space.old space.new }
    ensures few { IfOk result (λ values. values ≤ 128 ^ level) }
    ensures within { IfErr result (NamesWithin (spaces.total space.old)) }
    ensures cause { IfErr result (λ e. IsTreeCause e (spaces.IsTold space.old) (spaces.view space.old) (spaces.view space.new)
        (spaces.total space.old) slots level index page top) }
    ensures quiet { OnOk result ((spaces.view space.new).faults ≡ (spaces.view space.old).faults) }
    ensures quiet_err { IfErr result (λ e. e ≢ StoreError.DiskFault → (spaces.view space.new).faults ≡ (spaces.view space.old).faults) }
    ensures counts { looks.ForTree space.old slots level index page top
        (λ list. IfOk result (λ values. values ≡ values_below list level index)) }
    ensures stands { looks.ForTree space.old slots level index page top (λ list. IfErr result (λ e. e ≡ StoreError.DiskFault)) }
    ensures reads { spaces.IsTold space.old → Rises (length (tree_pages (spaces.image space.old) level page)) (spaces.view space.old).reads
        (spaces.view space.new).reads }
    ensures whole { spaces.IsTold space.old → OnOk result
        (IsSoundTree (spaces.image space.old) (spaces.total space.old) slots level index page top) }
{
    let Some(span) = top else {
        return Ok(0);
    };
    if level == 0 {
        return Ok(1);
    }
    let mut bytes = [0; 4096];
    let mut spans = PageSpans::new();
    read_page(space, level, page, span, &mut bytes, &mut spans)?;
    if !are_slots(&spans, level, index, slots) {
        return Err(StoreError::Damaged { page });
    }
    let mut values = 0;
    for child in 0..128 {
        let under = child_of(&bytes, child);
        let part = spans.leaf(child);
        let more = count_values(space, slots, level - 1, part_of(index, child), under, part)?;
        values += more;
    }
    Ok(values)
}
