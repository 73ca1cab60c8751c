//! A page is opened to be changed: it is read, or a new one is taken.
ghost use Rattle.std.specs.Prelude.{◌≡◌, ◌≢◌, ◌<◌, ◌≤◌, ◌+◌, ◌⊎◌, ℕ, ℤ, suc, Option, List, None, true, false, length, slice_index, IfOk};
ghost use Rattle.std.specs.Prelude.{IfErr, OnOk};
ghost use Rattle.block_disk.specs.Blocks.{IsBlock};
ghost use Rattle.block_disk.specs.View.{Image};
ghost use Rattle.om3_coeff.specs.Spans.{IsProperIfAny, AreSlots};
ghost use Rattle.node_page.specs.Fields.{child_at};
ghost use Rattle.page_space.specs.Layout.{IsGiven};
ghost use Rattle.page_space.specs.Transactions.{left_by, told_by, OnlyFirst};
ghost use Rattle.page_spans.specs.Heaps.{span_at};
ghost use Rattle.path_repair.specs.Costs.{is_new_root};
ghost use Rattle.path_repair.specs.Forms.{IsForm};
ghost use Rattle.path_repair.specs.TreePages.{is_stored};
ghost use Rattle.path_repair.specs.Standing.{AreTold, IsPlaced, IsPartWay, IsTaken};
ghost use Rattle.path_repair.specs.Damage.{IsHeadCause};
ghost use Rattle.path_repair.specs.Apart.{StandsApart, StandsWith, NamesDamaged, NamesLink, and_page, and_tree, and_children};
ghost use Rattle.path_repair.specs.Keeping.{IsOwn, IsOpened, IsAsTold, root_level};
ghost use Rattle.page_space.specs.Shown as shown;
ghost use Rattle.path_repair.specs.Edits.{IsDamageAt};
ghost use Rattle.path_repair.specs.Repairs as repairs;
ghost use Rattle.path_repair.specs.declared.errors.RepairError.{RepairError};

use crate::change::{Place, Root};
use crate::errors::RepairError;
use crate::reading::read_page;
use gate_pages::Pages;
use node_page::{set_child, set_level};
use page_space::{Space, SpaceError, Txn};
use page_spans::PageSpans;

/// Takes a page.
fn take<P: Pages>(space: &mut Space<P>, txn: &mut Txn) -> Result<u32, RepairError>
    requires sound { shown.IsSound space.old }
    requires total { (told_by txn.old).total ≡ shown.total space.old }
    ensures moved { repairs.Moves 1 0 space.old space.new txn.old txn.new }
    ensures cause { IfErr result (λ e. repairs.Explains e space.old space.new) }
    ensures quiet { OnOk result ((shown.view space.new).faults ≡ (shown.view space.old).faults) }
    ensures quiet_err { IfErr result (λ e. e ≢ RepairError.DiskFault → (shown.view space.new).faults ≡ (shown.view space.old).faults) }
    ensures given { IfOk result (λ p. (1 ≤ p) × (p < (told_by txn.new).total)) }
    ensures first { OnlyFirst txn.old txn.new }
    ensures behind { IfOk result (λ p. IsGiven (told_by txn.new).fresh p) }
    ensures own { (base : Image) (level : ℕ) → AreTold (shown.IsTold space.old) (shown.view space.old) base
        → IfOk result (λ p. IsOwn (left_by txn.old base) (told_by txn.old).fresh (told_by txn.new).fresh level p) }
    ensures head { repairs.ForPages space.old (λ base. IfErr result (λ e. IsHeadCause (left_by txn.new base) (told_by txn.new) e)) }
    ensures apart { repairs.ForApart space.old txn.old (λ fits stored kept. kept)
        (λ base fits stored from mine kept. IfOk result (StandsWith txn.new base fits stored from mine kept)) }
    ensures broken { repairs.ForApart space.old txn.old (λ fits stored kept. kept)
        (λ base fits stored from mine kept. IfErr result (NamesLink stored from)) }
    ensures taken { repairs.ForStanding space.old txn.old
        (λ base count used. IfOk result (λ p. IsTaken count (left_by txn.old base) (left_by txn.new base) (told_by txn.new) used p)) }
    ensures sound { repairs.ForStanding space.old txn.old (λ base count used. 18 + length used ≤ (told_by txn.old).total
        → IfErr result (λ e. e ≡ RepairError.DiskFault)) }
{
    match space.alloc(txn) {
        Ok(page) => Ok(page),
        Err(SpaceError::Full { needed, have }) => Err(RepairError::Full { needed, have }),
        Err(SpaceError::DiskFault) => Err(RepairError::DiskFault),
        Err(SpaceError::Damaged { page }) => Err(RepairError::Damaged { page }),
        Err(SpaceError::NotAStore | SpaceError::NoMemory) => Err(RepairError::NoMemory),
    }
}

/// Makes all bytes 0.
fn blank(bytes: &mut [u8])
    ensures whole { length bytes.new ≡ length bytes.old }
    ensures zeros { (k : ℕ) → slice_index bytes.new k ≡ 0 }
{
    bytes.fill(0);
}

/// Makes the bytes a page of this page level whose first child is this page, and no other one is there.
pub(crate) fn start_bytes(bytes: &mut [u8], level: u8, page: u32)
    requires whole { IsBlock bytes.old }
    ensures form { (total : ℕ) → page < total → IsForm level total bytes.new }
    ensures first { child_at bytes.new 0 ≡ page }
    ensures none { (child : ℕ) → 0 < child → child < 128 → child_at bytes.new child ≡ 0 }
{
    blank(bytes);
    set_level(bytes, level);
    set_child(bytes, 0, page);
}

/// The same, with the root's span at the first leaf, and no other one.
fn start(bytes: &mut [u8], spans: &mut PageSpans, level: u8, root: Root)
    requires whole { IsBlock bytes.old }
    requires proper { IsProperIfAny root.span }
    ensures form { (total : ℕ) → root.page < total → IsForm level total bytes.new }
    ensures first { child_at bytes.new 0 ≡ root.page }
    ensures none { (child : ℕ) → 0 < child → child < 128 → child_at bytes.new child ≡ 0 }
    ensures top { span_at spans.new 127 ≡ root.span }
    ensures no_tops { (child : ℕ) → 0 < child → span_at spans.new (127 + child) ≡ None }
{
    start_bytes(bytes, level, root.page);
    spans.clear();
    spans.set_leaf(0, root.span);
}

/// Opens the page of a place, and gives its number.
pub(crate) fn open_page<P: Pages>(
    space: &mut Space<P>,
    txn: &mut Txn,
    at: Place,
    root: Root,
    bytes: &mut [u8],
    spans: &mut PageSpans,
) -> Result<u32, RepairError>
    requires sound { shown.IsSound space.old }
    requires total { (told_by txn.old).total ≡ shown.total space.old }
    requires page { root.page < shown.total space.old }
    requires proper { IsProperIfAny root.span }
    requires whole { IsBlock bytes.old }
    ensures moved { repairs.Moves 1 0 space.old space.new txn.old txn.new }
    ensures cause { IfErr result (λ e. repairs.Explains e space.old space.new) }
    ensures quiet { OnOk result ((shown.view space.new).faults ≡ (shown.view space.old).faults) }
    ensures quiet_err { IfErr result (λ e. e ≢ RepairError.DiskFault → (shown.view space.new).faults ≡ (shown.view space.old).faults) }
    ensures form { OnOk result (IsForm at.level (shown.total space.old) bytes.new) }
    ensures number { IfOk result (λ number. (1 ≤ number) × (number < shown.total space.old)) }
    ensures first { OnlyFirst txn.old txn.new }
    ensures root { IfOk result (λ number. (number ≡ root.page) ⊎ IsGiven (told_by txn.new).fresh number) }
    ensures own { repairs.ForPages space.old (λ base. IfOk result
        (λ number. IsOwn (left_by txn.old base) (told_by txn.old).fresh (told_by txn.new).fresh at.level number)) }
    ensures opened { OnOk result (IsOpened at.height at.level at.index root.page root.span bytes.new (span_at spans.new)) }
    ensures as_told { repairs.ForPages space.old (λ base. OnOk result
        (IsAsTold (left_by txn.old base) at.height at.level at.index root.page bytes.new)) }
    ensures damaged { repairs.ForPagesAbove space.old at.level
        (λ base below. IfErr result (λ e. IsDamageAt txn.old txn.new base at.height at.level at.index root.page root.span e)) }
    ensures apart { (below : ℕ) → at.level ≡ suc below
        → repairs.ForApart space.old txn.old (λ fits stored. and_tree fits stored at.height at.level at.index root.page)
        (λ base fits stored from mine kept. IfOk result
        (λ number. StandsApart fits stored (left_by txn.new base) from (told_by txn.new) (and_page number mine)
        (and_children fits stored at.height below at.index bytes.new 0 kept))) }
    ensures broken { (below : ℕ) → at.level ≡ suc below
        → repairs.ForApart space.old txn.old (λ fits stored. and_tree fits stored at.height at.level at.index root.page)
        (λ base fits stored from mine kept. IfErr result
        (NamesDamaged stored from (shown.total space.old) (root_level at.height at.level at.index) root.page root.span)) }
    ensures read { root.page ≢ 0 → is_new_root at.height at.level at.index ≡ false → txn.new ≡ txn.old }
    ensures part { (base : Image) (count : ℕ) (list list' : List (Option ℤ)) (others : List ℕ) (below : ℕ)
        → AreTold (shown.IsTold space.old) (shown.view space.old) base
        → at.level ≡ suc below → AreSlots list
        → IsPlaced count (left_by txn.old base) (told_by txn.old) list list' at.height at.level at.index root.page root.span others
        → (root.page ≡ 0 → is_stored list' at.level at.index ≡ true)
        → IfOk result (λ number. IsPartWay count (left_by txn.old base) (left_by txn.new base)
        (told_by txn.new) list list' at.height below at.index number bytes.new (λ child. span_at spans.new (127 + child)) 0 others) }
    ensures only_faults { (base : Image) (count : ℕ) (list list' : List (Option ℤ)) (others : List ℕ) (below : ℕ)
        → AreTold (shown.IsTold space.old) (shown.view space.old) base
        → at.level ≡ suc below → AreSlots list
        → IsPlaced count (left_by txn.old base) (told_by txn.old) list list' at.height at.level at.index root.page root.span others
        → (root.page ≡ 0 → is_stored list' at.level at.index ≡ true)
        → IfErr result (λ e. e ≡ RepairError.DiskFault) }
{
    if root.page != 0 && !at.is_new_root() {
        read_page(space, txn, at, root, bytes, spans)?;
        return Ok(root.page);
    }
    let number = take(space, txn)?;
    start(bytes, spans, at.level, root);
    Ok(number)
}
