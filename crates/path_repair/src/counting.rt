//! How many pages a change needs, before it is made.
ghost use Rattle.std.specs.Prelude.{◌≡◌, ◌<◌, ◌≤◌, ◌+◌, ◌^◌, ℕ, ℤ, suc, Option, List, length, IfOk, IfErr, OnOk, ◌≢◌};
ghost use Rattle.block_disk.specs.Blocks.{IsBlock};
ghost use Rattle.block_disk.specs.View.{Image};
ghost use Rattle.om3_coeff.specs.Keys.{end_slot};
ghost use Rattle.page_space.specs.Transactions.{left_by};
ghost use Rattle.tree_walk.specs.Trees.{top_of_page};
ghost use Rattle.path_repair.specs.Costs.{touch};
ghost use Rattle.path_repair.specs.Keeping.{IsLookedAt, IsAsTold, look_most, count_most};
ghost use Rattle.path_repair.specs.Forms.{IsForm};
ghost use Rattle.path_repair.specs.TreePages.{tree_pages, page_count, low, IsRooted};
ghost use Rattle.path_repair.specs.Standing.{AreTold, AreLists, IsSeen};
ghost use Rattle.page_space.specs.Shown as shown;
ghost use Rattle.path_repair.specs.Edits.{IsUnfitUnder};
ghost use Rattle.path_repair.specs.Repairs as repairs;
ghost use Rattle.path_repair.specs.declared.errors.RepairError.{RepairError};

use crate::change::{Place, Slots};
use crate::errors::RepairError;
use crate::opening::start_bytes;
use crate::reading::read_bytes;
use block_disk::BLOCK;
use gate_pages::Pages;
use node_page::child_of;
use page_space::{Space, Txn};

/// The bytes of the page of a place, or those that a new one begins with, and how many pages are new.
fn look<P: Pages>(
    space: &mut Space<P>,
    txn: &Txn,
    at: Place,
    page: u32,
    bytes: &mut [u8],
) -> Result<u64, RepairError>
    requires sound { shown.IsSound space.old }
    requires page { page < shown.total space.old }
    requires whole { IsBlock bytes.old }
    ensures moved { repairs.Moves (look_most at.height at.level at.index page) 0 space.old space.new txn.now txn.now }
    ensures cause { IfErr result (λ e. repairs.Explains e space.old space.new) }
    ensures quiet { OnOk result ((shown.view space.new).faults ≡ (shown.view space.old).faults) }
    ensures quiet_err { IfErr result (λ e. e ≢ RepairError.DiskFault → (shown.view space.new).faults ≡ (shown.view space.old).faults) }
    ensures form { OnOk result (IsForm at.level (shown.total space.old) bytes.new) }
    ensures few { IfOk result (λ pages. pages ≤ 1) }
    ensures opened { OnOk result (IsLookedAt at.height at.level at.index page bytes.new) }
    ensures as_told { repairs.ForPages space.old (λ base. OnOk result
        (IsAsTold (left_by txn.now base) at.height at.level at.index page bytes.new)) }
    ensures unfit { repairs.ForPagesAbove space.old at.level
        (λ base below. IfErr result (λ e. IsUnfitUnder txn.now base (shown.total space.old) at.height at.level at.index page e)) }
    ensures seen { (base : Image) (list : List (Option ℤ)) (below : ℕ) → AreTold (shown.IsTold space.old) (shown.view space.old) base
        → at.level ≡ suc below
        → IsRooted (left_by txn.now base) (shown.total space.old) list at.height at.level at.index page
        → IfOk result (λ pages. IsSeen (left_by txn.now base) (shown.total space.old) list at.height below at.index page bytes.new pages) }
    ensures only_faults { (base : Image) (list : List (Option ℤ)) (below : ℕ) → AreTold (shown.IsTold space.old) (shown.view space.old) base
        → at.level ≡ suc below
        → IsRooted (left_by txn.now base) (shown.total space.old) list at.height at.level at.index page
        → IfErr result (λ e. e ≡ RepairError.DiskFault) }
{
    if page != 0 && !at.is_new_root() {
        read_bytes(space, txn, at, page, bytes)?;
        return Ok(0);
    }
    start_bytes(bytes, at.level, page);
    Ok(1)
}

/// How many pages more the tree has in the range of a place once the slots are changed.
pub(crate) fn new_pages<P: Pages>(
    space: &mut Space<P>,
    txn: &Txn,
    at: Place,
    page: u32,
    slots: Slots,
    values: &[Option<i64>],
) -> Result<u64, RepairError>
    requires sound { shown.IsSound space.old }
    requires level { at.level ≤ 5 }
    requires small { end_slot (top_of_page at.level at.index) ≤ 2 ^ 35 }
    requires page { page < shown.total space.old }
    requires room { touch slots.first slots.end at.height at.level at.index ≤ 64 }
    ensures moved { repairs.Moves (count_most page slots.first slots.end at.height at.level at.index) 0 space.old space.new txn.now
        txn.now }
    ensures cause { IfErr result (λ e. repairs.Explains e space.old space.new) }
    ensures quiet { OnOk result ((shown.view space.new).faults ≡ (shown.view space.old).faults) }
    ensures quiet_err { IfErr result (λ e. e ≢ RepairError.DiskFault → (shown.view space.new).faults ≡ (shown.view space.old).faults) }
    ensures few { IfOk result (λ pages. pages ≤ touch slots.first slots.end at.height at.level at.index) }
    ensures unfit { repairs.ForPages space.old (λ base. IfErr result
        (λ e. IsUnfitUnder txn.now base (shown.total space.old) at.height at.level at.index page e)) }
    ensures counts { (base : Image) (list list' : List (Option ℤ)) → AreTold (shown.IsTold space.old) (shown.view space.old) base
        → AreLists slots.first slots.end values.now list list' → slots.end ≤ slots.first + length values.now
        → IsRooted (left_by txn.now base) (shown.total space.old) list at.height at.level at.index page
        → IfOk result (λ pages. pages + length (tree_pages (left_by txn.now base) (low at.height at.level) page) ≡ page_count list' at.level
        at.index) }
    ensures only_faults { (base : Image) (list list' : List (Option ℤ)) → AreTold (shown.IsTold space.old) (shown.view space.old) base
        → AreLists slots.first slots.end values.now list list' → slots.end ≤ slots.first + length values.now
        → IsRooted (left_by txn.now base) (shown.total space.old) list at.height at.level at.index page
        → IfErr result (λ e. e ≡ RepairError.DiskFault) }
{
    if at.level == 0 {
        return Ok(0);
    }
    if at.is_settled(page, slots, values) {
        return Ok(0);
    }
    let mut bytes = [0; BLOCK];
    let mut pages = look(space, txn, at, page, &mut bytes)?;
    for child in 0..128 {
        let below = at.child(child);
        if below.is_apart(slots) {
            continue;
        }
        let more = new_pages(space, txn, below, child_of(&bytes, child), slots, values)?;
        pages += more;
    }
    Ok(pages)
}
