//! A page of a tree is read, and its spans with it.
ghost use Rattle.std.specs.Prelude.{◌≡◌, ◌<◌, ◌+◌, ◌⊎◌, ℕ, ℤ, suc, Some, Option, List, false, IsTrue, IsSome, IsOk, IfErr, OnOk, OnErr};
ghost use Rattle.std.specs.Prelude.{◌≢◌};
ghost use Rattle.block_disk.specs.Blocks.{IsBlock};
ghost use Rattle.block_disk.specs.View.{Image};
ghost use Rattle.om3_coeff.specs.Spans.{IsProperIfAny, AreSlots, span};
ghost use Rattle.node_page.specs.Fields.{child_at, level_at};
ghost use Rattle.node_page.specs.Layout.{KeepsLayout};
ghost use Rattle.page_space.specs.Transactions.{left_by};
ghost use Rattle.tree_walk.specs.Trees.{top_of_page, HoldsNodes};
ghost use Rattle.page_spans.specs.Heaps.{span_at};
ghost use Rattle.path_repair.specs.Forms.{IsForm, AreTops};
ghost use Rattle.path_repair.specs.Standing.{AreTold};
ghost use Rattle.tree_walk.specs.Paths.{NamesBeyond};
ghost use Rattle.path_repair.specs.Damage.{IsUnfit, IsUnfitAt, IsBadAt, AreBelow, IsUnsplitPage};
ghost use Rattle.page_space.specs.Shown as shown;
ghost use Rattle.path_repair.specs.Repairs as repairs;
ghost use Rattle.path_repair.specs.declared.errors.RepairError.{RepairError};

use crate::change::{Place, Root};
use crate::errors::RepairError;
use gate_pages::Pages;
use node_page::PageView;
use page_space::{Space, Txn};
use page_spans::PageSpans;

/// Whether each of the 128 children that a page names is below the total. A child that is not there is 0.
pub fn names_within(page: &PageView, total: u32) -> bool
    ensures within { IsTrue result → (child : ℕ) → child < 128 → child_at page.now.bytes.now child < total }
    ensures all { ((child : ℕ) → child < 128 → child_at page.now.bytes.now child < total) → IsTrue result }
    ensures beyond { result ≡ false → NamesBeyond total page.now.bytes.now }
{
    for child in 0..128 {
        if page.child_at(child) >= total {
            return false;
        }
    }
    true
}

/// Whether the bytes are a page of this page level, whose children are below the total.
fn is_page(bytes: &[u8], level: u8, total: u32) -> bool
    requires whole { IsBlock bytes.now }
    ensures form { IsTrue result → IsForm level total bytes.now }
    ensures sound { KeepsLayout bytes.now → level_at bytes.now ≡ level → ((child : ℕ) → child < 128 → child_at bytes.now child < total)
        → IsTrue result }
    ensures keeps { IsTrue result → KeepsLayout bytes.now }
    ensures unfit { result ≡ false → IsUnfit total level bytes.now }
{
    let Ok(page) = PageView::new(bytes) else {
        return false;
    };
    page.level() == level && names_within(&page, total)
}

/// Reads a page of this place as the transaction would leave it.
pub(crate) fn read_bytes<P: Pages>(
    space: &mut Space<P>,
    txn: &Txn,
    at: Place,
    page: u32,
    bytes: &mut [u8],
) -> Result<(), RepairError>
    requires sound { shown.IsSound space.old }
    requires page { page < shown.total space.old }
    requires whole { IsBlock bytes.old }
    ensures moved { repairs.Moves 1 0 space.old space.new txn.now txn.now }
    ensures cause { IfErr result (λ e. repairs.Explains e space.old space.new) }
    ensures quiet { OnOk result ((shown.view space.new).faults ≡ (shown.view space.old).faults) }
    ensures quiet_err { IfErr result (λ e. e ≢ RepairError.DiskFault → (shown.view space.new).faults ≡ (shown.view space.old).faults) }
    ensures form { OnOk result (IsForm at.level (shown.total space.old) bytes.new) }
    ensures bytes { repairs.ForPages space.old (λ base. OnOk result (bytes.new ≡ left_by txn.now base page)) }
    ensures sound { (base : Image) → AreTold (shown.IsTold space.old) (shown.view space.old) base → KeepsLayout (left_by txn.now base page)
        → level_at (left_by txn.now base page) ≡ at.level
        → ((child : ℕ) → child < 128 → child_at (left_by txn.now base page) child < shown.total space.old)
        → IfErr result (λ e. e ≡ RepairError.DiskFault) }
    ensures keeps { OnOk result (KeepsLayout bytes.new) }
    ensures unfit { repairs.ForPages space.old (λ base. IfErr result
        (λ e. IsUnfitAt (left_by txn.now base) (shown.total space.old) at.level page e)) }
{
    let Ok(()) = space.read(txn, page, bytes) else {
        return Err(RepairError::DiskFault);
    };
    if !is_page(bytes, at.level, space.total()) {
        return Err(RepairError::Damaged { page });
    }
    Ok(())
}

/// The spans below a root, by a page that is to be one of this page level.
fn spread(
    bytes: &[u8],
    level: u8,
    total: u32,
    root: Root,
    spans: &mut PageSpans,
) -> Result<(), RepairError>
    requires whole { IsBlock bytes.now }
    requires proper { IsProperIfAny root.span }
    ensures form { OnOk result (IsForm level total bytes.now) }
    ensures damaged { IfErr result (λ e. e ≡ RepairError.Damaged root.page) }
    ensures tops { (list : List (Option ℤ)) (below index : ℕ) → level ≡ suc below → AreSlots list → HoldsNodes list level index bytes.now
        → root.span ≡ span list (top_of_page level index)
        → OnOk result (AreTops list below index (λ child. span_at spans.new (127 + child))) }
    ensures sound { (list : List (Option ℤ)) (below index : ℕ) → level ≡ suc below → AreSlots list → HoldsNodes list level index bytes.now
        → root.span ≡ span list (top_of_page level index)
        → IsSome root.span → ((child : ℕ) → child < 128 → child_at bytes.now child < total) → IsOk result }
    ensures keeps { OnOk result (KeepsLayout bytes.now) }
    ensures below { OnOk result (AreBelow root.span bytes.now (span_at spans.new)) }
    ensures bad { OnErr result (IsUnfit total level bytes.now ⊎ IsUnsplitPage root.span bytes.now) }
{
    let damaged = RepairError::Damaged { page: root.page };
    let Some(span) = root.span else {
        return Err(damaged);
    };
    let Ok(page) = PageView::new(bytes) else {
        return Err(damaged);
    };
    if page.level() != level || !names_within(&page, total) {
        return Err(damaged);
    }
    if spans.spread(&page, span).is_err() {
        return Err(damaged);
    }
    Ok(())
}

/// Reads the root's page as the transaction would leave it, and the spans below it.
pub(crate) fn read_page<P: Pages>(
    space: &mut Space<P>,
    txn: &Txn,
    at: Place,
    root: Root,
    bytes: &mut [u8],
    spans: &mut PageSpans,
) -> Result<(), RepairError>
    requires sound { shown.IsSound space.old }
    requires page { root.page < shown.total space.old }
    requires proper { IsProperIfAny root.span }
    requires whole { IsBlock bytes.old }
    ensures moved { repairs.Moves 1 0 space.old space.new txn.now txn.now }
    ensures cause { IfErr result (λ e. repairs.Explains e space.old space.new) }
    ensures quiet { OnOk result ((shown.view space.new).faults ≡ (shown.view space.old).faults) }
    ensures quiet_err { IfErr result (λ e. e ≢ RepairError.DiskFault → (shown.view space.new).faults ≡ (shown.view space.old).faults) }
    ensures form { OnOk result (IsForm at.level (shown.total space.old) bytes.new) }
    ensures bytes { repairs.ForPages space.old (λ base. OnOk result (bytes.new ≡ left_by txn.now base root.page)) }
    ensures tops { (base : Image) (list : List (Option ℤ)) (below : ℕ) → AreTold (shown.IsTold space.old) (shown.view space.old) base
        → at.level ≡ suc below → AreSlots list
        → HoldsNodes list at.level at.index (left_by txn.now base root.page) → root.span ≡ span list (top_of_page at.level at.index)
        → OnOk result (AreTops list below at.index (λ child. span_at spans.new (127 + child))) }
    ensures sound { (base : Image) (list : List (Option ℤ)) (below : ℕ) → AreTold (shown.IsTold space.old) (shown.view space.old) base
        → at.level ≡ suc below → AreSlots list
        → HoldsNodes list at.level at.index (left_by txn.now base root.page) → root.span ≡ span list (top_of_page at.level at.index)
        → IsSome root.span
        → ((child : ℕ) → child < 128 → child_at (left_by txn.now base root.page) child < shown.total space.old)
        → IfErr result (λ e. e ≡ RepairError.DiskFault) }
    ensures keeps { OnOk result (KeepsLayout bytes.new) }
    ensures below { OnOk result (AreBelow root.span bytes.new (span_at spans.new)) }
    ensures bad { repairs.ForPages space.old (λ base. IfErr result
        (λ e. IsBadAt (left_by txn.now base) (shown.total space.old) at.level root.page root.span e)) }
{
    let Ok(()) = space.read(txn, root.page, bytes) else {
        return Err(RepairError::DiskFault);
    };
    spread(bytes, at.level, space.total(), root, spans)
}
