//! The change of a tree, page by page.
ghost use Rattle.std.specs.Prelude.{◌≡◌, ◌≢◌, ◌<◌, ◌≤◌, ◌+◌, ◌^◌, ℕ, ℤ, Some, Option, List, false, length, slice_get, IfOk, IfErr, OnOk};
ghost use Rattle.block_disk.specs.Blocks.{IsBlock};
ghost use Rattle.block_disk.specs.View.{Image};
ghost use Rattle.om3_coeff.specs.Keys.{first_slot, end_slot};
ghost use Rattle.om3_coeff.specs.Spans.{IsProperIfAny};
ghost use Rattle.whole_number.specs.Range.{IsValue};
ghost use Rattle.node_page.specs.Fields.{child_at};
ghost use Rattle.page_space.specs.Transactions.{left_by, held, told_by};
ghost use Rattle.tree_walk.specs.Trees.{top_of_page};
ghost use Rattle.page_spans.specs.Heaps.{span_at};
ghost use Rattle.path_repair.specs.Forms.{IsForm};
ghost use Rattle.path_repair.specs.Changes.{AreSame};
ghost use Rattle.path_repair.specs.Costs.{touch};
ghost use Rattle.path_repair.specs.Standing.{AreTold, AreLists, IsPlaced, IsRepaired, ForPlaced};
ghost use Rattle.path_repair.specs.Keeping.{IsNewRoot, IsMatched, Spares, root_level};
ghost use Rattle.path_repair.specs.Apart.{StandsApart, NamesDamaged, and_tree};
ghost use Rattle.page_space.specs.Shown as shown;
ghost use Rattle.path_repair.specs.Edits.{IsDamageAt};
ghost use Rattle.path_repair.specs.Repairs as repairs;
ghost use Rattle.path_repair.specs.declared.errors.RepairError.{RepairError};

use crate::change::{Place, Root, Slots, note_change, slot_after};
use crate::closing::close_page;
use crate::errors::RepairError;
use crate::opening::open_page;
use block_disk::BLOCK;
use gate_pages::Pages;
use node_page::{child_of, set_child};
use page_space::{Space, Txn};
use page_spans::PageSpans;

/// The root of a child of a page.
fn child_root(bytes: &[u8], spans: &PageSpans, child: u8) -> Root
    requires whole { IsBlock bytes.now }
    requires child { child < 128 }
    ensures page { result.page ≡ child_at bytes.now child }
    ensures span { result.span ≡ span_at spans.now (127 + child) }
    ensures proper { IsProperIfAny result.span }
{
    Root {
        page: child_of(bytes, child),
        span: spans.leaf(child),
    }
}

/// Sets the root of a child of a page.
fn set_root(bytes: &mut [u8], spans: &mut PageSpans, child: u8, root: Root)
    requires whole { IsBlock bytes.old }
    requires child { child < 128 }
    requires proper { IsProperIfAny root.span }
    ensures form { (level total : ℕ) → IsForm level total bytes.old → root.page < total → IsForm level total bytes.new }
    ensures page { child_at bytes.new child ≡ root.page }
    ensures pages { (c : ℕ) → c ≢ child → child_at bytes.new c ≡ child_at bytes.old c }
    ensures span { span_at spans.new (127 + child) ≡ root.span }
    ensures spans { (n : ℕ) → n ≢ 127 + child → span_at spans.new n ≡ span_at spans.old n }
{
    set_child(bytes, child, root.page);
    spans.set_leaf(child, root.span);
}

/// Changes the slots in the range of a place, whose tree has this root, and gives the new root.
pub(crate) fn repair<P: Pages>(
    space: &mut Space<P>,
    txn: &mut Txn,
    at: Place,
    root: Root,
    slots: Slots,
    values: &[Option<i64>],
    changed: &mut bool,
) -> Result<Root, RepairError>
    requires sound { shown.IsSound space.old }
    requires total { (told_by txn.old).total ≡ shown.total space.old }
    requires level { at.level ≤ 5 }
    requires small { end_slot (top_of_page at.level at.index) ≤ 2 ^ 35 }
    requires page { root.page < shown.total space.old }
    requires proper { IsProperIfAny root.span }
    requires values { (i : ℕ) (value : ℤ) → slice_get values.now i ≡ Some (Some value) → IsValue value }
    requires room { length (held txn.old) + touch slots.first slots.end at.height at.level at.index ≤ 64 }
    ensures moved { repairs.Moves (touch slots.first slots.end at.height at.level at.index)
        (touch slots.first slots.end at.height at.level at.index) space.old space.new txn.old txn.new }
    ensures cause { IfErr result (λ e. repairs.Explains e space.old space.new) }
    ensures quiet { OnOk result ((shown.view space.new).faults ≡ (shown.view space.old).faults) }
    ensures quiet_err { IfErr result (λ e. e ≢ RepairError.DiskFault → (shown.view space.new).faults ≡ (shown.view space.old).faults) }
    ensures page { IfOk result (λ next. next.page < shown.total space.old) }
    ensures proper { IfOk result (λ next. IsProperIfAny next.span) }
    ensures root { IfOk result (λ next. IsNewRoot (told_by txn.new).fresh root.page next.page) }
    ensures matched { IfOk result (λ next. 1 ≤ at.level → IsMatched root.page root.span → IsMatched next.page next.span) }
    ensures spares { repairs.ForPages space.old (λ base. Spares at.level (told_by txn.old).fresh (told_by txn.new).fresh
        (left_by txn.old base) (left_by txn.new base)) }
    ensures damaged { repairs.ForPages space.old (λ base. IfErr result
        (λ e. IsDamageAt txn.old txn.new base at.height at.level at.index root.page root.span e)) }
    ensures apart { repairs.ForApart space.old txn.old (λ fits stored. and_tree fits stored at.height at.level at.index root.page)
        (λ base fits stored from mine kept. OnOk result (StandsApart fits stored (left_by txn.new base) from (told_by txn.new) mine kept)) }
    // while the pages are apart as they were stored, the damaged one is so as it was stored
    ensures broken { repairs.ForApart space.old txn.old (λ fits stored. and_tree fits stored at.height at.level at.index root.page)
        (λ base fits stored from mine kept. IfErr result
        (NamesDamaged stored from (shown.total space.old) (root_level at.height at.level at.index) root.page root.span)) }
    ensures repaired { (base : Image) (count : ℕ) (list list' : List (Option ℤ)) (others : List ℕ)
        → AreTold (shown.IsTold space.old) (shown.view space.old) base
        → AreLists slots.first slots.end values.now list list'
        → IsPlaced count (left_by txn.old base) (told_by txn.old) list list' at.height at.level at.index root.page root.span others
        → IfOk result (λ next. IsRepaired count (left_by txn.old base) (left_by txn.new base)
        (told_by txn.new) list' at.level at.index next.page next.span others) }
    ensures only_faults { (base : Image) (count : ℕ) (list list' : List (Option ℤ)) (others : List ℕ)
        → AreTold (shown.IsTold space.old) (shown.view space.old) base
        → AreLists slots.first slots.end values.now list list'
        → IsPlaced count (left_by txn.old base) (told_by txn.old) list list' at.height at.level at.index root.page root.span others
        → IfErr result (λ e. e ≡ RepairError.DiskFault) }
    // where no slot is told to be changed, none is and nothing is put, and a change that changes none is told so
    ensures was { changed.new ≡ false → changed.old ≡ false }
    ensures kept { changed.new ≡ false → OnOk result (txn.new ≡ txn.old) }
    ensures same { changed.new ≡ false → OnOk result
        (ForPlaced (shown.IsTold space.old) (shown.view space.old) txn.old slots.first slots.end values.now at.height at.level at.index
        root.page root.span
        (λ list list'. AreSame list list' (first_slot (top_of_page at.level at.index)) (end_slot (top_of_page at.level at.index)))) }
    ensures idle { changed.old ≡ false → ForPlaced (shown.IsTold space.old)
        (shown.view space.old) txn.old slots.first slots.end values.now at.height at.level at.index root.page root.span
        (λ list list'. at.level ≤ at.height → list' ≡ list → OnOk result (changed.new ≡ false)) }
{
    if at.level == 0 {
        let span = slot_after(root.span, at.index, slots, values);
        note_change(changed, root.span, span);
        return Ok(Root { page: 0, span });
    }
    if at.is_settled(root.page, slots, values) {
        return Ok(root);
    }
    let mut bytes = [0; BLOCK];
    let mut spans = PageSpans::new();
    let mut is_changed = at.is_new(root.page);
    let number = open_page(space, txn, at, root, &mut bytes, &mut spans)?;
    for child in 0..128 {
        let below = at.child(child);
        if below.is_apart(slots) {
            continue;
        }
        let old = child_root(&bytes, &spans, child);
        let next = repair(space, txn, below, old, slots, values, &mut is_changed)?;
        set_root(&mut bytes, &mut spans, child, next);
    }
    if !is_changed {
        return Ok(root);
    }
    *changed = true;
    Ok(close_page(space, txn, at, number, &mut bytes, &mut spans))
}
