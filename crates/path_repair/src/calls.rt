//! The changes of a tree.
ghost use Rattle.std.specs.Prelude.{◌≡◌, ◌<◌, ◌≤◌, ◌+◌, ◌-◌, ◌*◌, ◌^◌, ℕ, ℤ, [], ◌∷◌, max, Some, false, length, slice_get, IfOk, IfErr};
ghost use Rattle.std.specs.Prelude.{OnOk, ◌≢◌};
ghost use Rattle.om3_coeff.specs.Keys.{page_levels as levels_of};
ghost use Rattle.om3_coeff.specs.Spans.{IsProperIfAny};
ghost use Rattle.whole_number.specs.Range.{IsValue};
ghost use Rattle.page_space.specs.Shown as shown;
ghost use Rattle.page_space.specs.Transactions.{held, told_by};
ghost use Rattle.path_repair.specs.Edited.{IsErrorFor};
ghost use Rattle.path_repair.specs.Edits.{edit_of, run_in, slot_in, grow_to, clear_in, passed, IsAfter, IsDamageOf, BlamesStored};
ghost use Rattle.path_repair.specs.Edits.{LeavesCatalog};
ghost use Rattle.path_repair.specs.Keeping.{IsNewTree};
ghost use Rattle.path_repair.specs.Repairs as repairs;
ghost use Rattle.path_repair.specs.declared.errors.RepairError.{RepairError};

use crate::change::{Place, Root, Slots};
use crate::counting::new_pages;
use crate::errors::RepairError;
use crate::repairing::repair;
use gate_pages::Pages;
use om3_coeff::page_levels;
use page_space::{Space, Txn};
use tree_walk::Tree;

/// One value.
fn only(value: i64) -> [Option<i64>; 1]
    ensures { result ≡ Some value ∷ [] }
{
    [Some(value)]
}

/// Gives values to slots, none of which is cleared, in a tree of at least so many slots.
fn fill<P: Pages>(
    space: &mut Space<P>,
    txn: &mut Txn,
    tree: Tree,
    slots: Slots,
    values: &[Option<i64>],
    len: u64,
    changed: &mut bool,
) -> Result<Tree, RepairError>
    requires sound { shown.IsSound space.old }
    requires total { (told_by txn.old).total ≡ shown.total space.old }
    requires root { tree.root < shown.total space.old }
    requires proper { IsProperIfAny tree.span }
    requires few { tree.slots ≤ 2 ^ 35 }
    requires few_new { len ≤ 2 ^ 35 }
    requires longer { tree.slots ≤ len }
    requires fills { slots.end ≤ slots.first + length values.now }
    requires within { slots.end ≤ len }
    requires values { (i : ℕ) (value : ℤ) → slice_get values.now i ≡ Some (Some value) → IsValue value }
    requires room { length (held txn.old) + passed tree (edit_of slots.first slots.end len values.now) ≤ 64 }
    ensures moved { repairs.Passes space.old space.new txn.old txn.new tree (edit_of slots.first slots.end len values.now) }
    ensures cause { IfErr result (λ e. repairs.Explains e space.old space.new) }
    ensures quiet { OnOk result ((shown.view space.new).faults ≡ (shown.view space.old).faults) }
    ensures quiet_err { IfErr result (λ e. e ≢ RepairError.DiskFault → (shown.view space.new).faults ≡ (shown.view space.old).faults) }
    ensures catalog { repairs.ForPages space.old (λ base. LeavesCatalog txn.old txn.new base) }
    ensures tree { IfOk result (λ new. IsNewTree len (told_by txn.new) tree new) }
    ensures damaged { repairs.ForPages space.old (λ base. IfErr result (λ e. IsDamageOf txn.old txn.new base tree e)) }
    // where the pages of the tree and of the chain are apart, it is so before the change
    ensures stored { repairs.ForPages space.old (λ base. IfErr result (BlamesStored txn.old base tree)) }
    ensures edited { repairs.ForEdit space.old txn.old tree (edit_of slots.first slots.end len values.now)
        (λ base count list list' others. IfOk result (λ new. IsAfter txn.old txn.new base count new list' others)) }
    ensures errors { repairs.ForEdit space.old txn.old tree (edit_of slots.first slots.end len values.now)
        (λ base count list list' others. IfErr result (λ e. IsErrorFor txn.old txn.new list list' e)) }
    ensures was { changed.new ≡ false → changed.old ≡ false }
    ensures kept { changed.new ≡ false → OnOk result (txn.new ≡ txn.old) }
    ensures same { changed.new ≡ false → repairs.ForEdit space.old txn.old tree (edit_of slots.first slots.end len values.now)
        (λ base count list list' others. length list' ≡ length list → OnOk result (list' ≡ list)) }
    ensures idle { changed.old ≡ false → repairs.ForEdit space.old txn.old tree (edit_of slots.first slots.end len values.now)
        (λ base count list list' others. list' ≡ list → OnOk result (changed.new ≡ false)) }
{
    let height = page_levels(tree.slots);
    let level = page_levels(len);
    let at = Place {
        height,
        level,
        index: 0,
    };
    let more = new_pages(space, txn, at, tree.root, slots, values)?;
    let needed = u64::from(txn.used()) + more;
    let have = u64::from(space.total());
    if needed > have {
        return Err(RepairError::Full { needed, have });
    }
    let root = Root {
        page: tree.root,
        span: tree.span,
    };
    let next = repair(space, txn, at, root, slots, values, changed)?;
    Ok(Tree {
        slots: len,
        root: next.page,
        span: next.span,
    })
}

/// Gives values to the slots from one on, in a tree that has these slots at least afterwards. A missing
/// value leaves its slot as it is. It notes in `changed` that a slot is changed, or the tree gets higher.
///
/// `Full` comes first, before anything is changed: with the pages in use, those that the changed tree has
/// more than the given one would be so many, and there are fewer. Where the pages stand for a list no
/// other error comes but `DiskFault`.
pub fn put_run<P: Pages>(
    space: &mut Space<P>,
    txn: &mut Txn,
    tree: Tree,
    slot: u64,
    values: &[Option<i64>],
    changed: &mut bool,
) -> Result<Tree, RepairError>
    requires sound { shown.IsSound space.old }
    requires total { (told_by txn.old).total ≡ shown.total space.old }
    requires root { tree.root < shown.total space.old }
    requires proper { IsProperIfAny tree.span }
    requires few { tree.slots ≤ 2 ^ 35 }
    requires within { slot + length values.now ≤ 2 ^ 35 }
    requires values { (i : ℕ) (value : ℤ) → slice_get values.now i ≡ Some (Some value) → IsValue value }
    requires room { length (held txn.old) + passed tree (run_in tree slot values.now) ≤ 64 }
    ensures moved { repairs.Edits space.old space.new txn.old txn.new tree (run_in tree slot values.now) }
    ensures cause { IfErr result (λ e. repairs.Explains e space.old space.new) }
    ensures quiet { OnOk result ((shown.view space.new).faults ≡ (shown.view space.old).faults) }
    ensures quiet_err { IfErr result (λ e. e ≢ RepairError.DiskFault → (shown.view space.new).faults ≡ (shown.view space.old).faults) }
    ensures catalog { repairs.ForPages space.old (λ base. LeavesCatalog txn.old txn.new base) }
    ensures tree { IfOk result (λ new. IsNewTree (max tree.slots (slot + length values.now)) (told_by txn.new) tree new) }
    ensures damaged { repairs.ForPages space.old (λ base. IfErr result (λ e. IsDamageOf txn.old txn.new base tree e)) }
    // where the pages of the tree and of the chain are apart, it is so before the change
    ensures stored { repairs.ForPages space.old (λ base. IfErr result (BlamesStored txn.old base tree)) }
    ensures few_puts { length values.now ≤ 256 → length (held txn.new) ≤ length
        (held txn.old) + (30 + 2 * levels_of (max tree.slots (slot + length values.now))) }
    ensures edited { repairs.ForEdit space.old txn.old tree (run_in tree slot values.now)
        (λ base count list list' others. IfOk result (λ new. IsAfter txn.old txn.new base count new list' others)) }
    ensures errors { repairs.ForEdit space.old txn.old tree (run_in tree slot values.now)
        (λ base count list list' others. IfErr result (λ e. IsErrorFor txn.old txn.new list list' e)) }
    // where no change is noted nothing is put and no slot is another, and none is noted of a change that makes the same list
    ensures was { changed.new ≡ false → changed.old ≡ false }
    ensures kept { changed.new ≡ false → OnOk result (txn.new ≡ txn.old) }
    ensures same { changed.new ≡ false → repairs.ForEdit space.old txn.old tree (run_in tree slot values.now)
        (λ base count list list' rest. length list' ≡ length list → OnOk result (list' ≡ list)) }
    ensures idle { changed.old ≡ false → repairs.ForEdit space.old txn.old tree (run_in tree slot values.now)
        (λ base count list list' others. list' ≡ list → OnOk result (changed.new ≡ false)) }
{
    let end = slot + values.len() as u64;
    let slots = Slots { first: slot, end };
    fill(
        space,
        txn,
        tree,
        slots,
        values,
        tree.slots.max(end),
        changed,
    )
}

/// Gives a value to a slot, in a tree that has this slot at least afterwards. Errors are as for `put_run`.
pub fn put_slot<P: Pages>(
    space: &mut Space<P>,
    txn: &mut Txn,
    tree: Tree,
    slot: u64,
    value: i64,
) -> Result<Tree, RepairError>
    requires sound { shown.IsSound space.old }
    requires total { (told_by txn.old).total ≡ shown.total space.old }
    requires root { tree.root < shown.total space.old }
    requires proper { IsProperIfAny tree.span }
    requires few { tree.slots ≤ 2 ^ 35 }
    requires within { slot < 2 ^ 35 }
    requires value { IsValue value }
    requires room { length (held txn.old) + passed tree (slot_in tree slot value) ≤ 64 }
    ensures moved { repairs.Edits space.old space.new txn.old txn.new tree (slot_in tree slot value) }
    ensures cause { IfErr result (λ e. repairs.Explains e space.old space.new) }
    ensures quiet { OnOk result ((shown.view space.new).faults ≡ (shown.view space.old).faults) }
    ensures quiet_err { IfErr result (λ e. e ≢ RepairError.DiskFault → (shown.view space.new).faults ≡ (shown.view space.old).faults) }
    ensures catalog { repairs.ForPages space.old (λ base. LeavesCatalog txn.old txn.new base) }
    ensures tree { IfOk result (λ new. IsNewTree (max tree.slots (slot + 1)) (told_by txn.new) tree new) }
    ensures damaged { repairs.ForPages space.old (λ base. IfErr result (λ e. IsDamageOf txn.old txn.new base tree e)) }
    // where the pages of the tree and of the chain are apart, it is so before the change
    ensures stored { repairs.ForPages space.old (λ base. IfErr result (BlamesStored txn.old base tree)) }
    ensures few_reads { (shown.view space.new).reads ≤ (shown.view space.old).reads + 2 * levels_of (max tree.slots (slot + 1)) }
    ensures few_puts { length (held txn.new) ≤ length (held txn.old) + 2 * levels_of (max tree.slots (slot + 1)) }
    ensures edited { repairs.ForEdit space.old txn.old tree (slot_in tree slot value)
        (λ base count list list' others. IfOk result (λ new. IsAfter txn.old txn.new base count new list' others)) }
    ensures errors { repairs.ForEdit space.old txn.old tree (slot_in tree slot value)
        (λ base count list list' others. IfErr result (λ e. IsErrorFor txn.old txn.new list list' e)) }
{
    let end = slot + 1;
    let slots = Slots { first: slot, end };
    fill(
        space,
        txn,
        tree,
        slots,
        &only(value),
        tree.slots.max(end),
        &mut false,
    )
}

/// Makes a tree one of so many slots, not fewer than it has. The new ones are missing. Errors are as for
/// `put_run`.
pub fn grow<P: Pages>(
    space: &mut Space<P>,
    txn: &mut Txn,
    tree: Tree,
    slots: u64,
) -> Result<Tree, RepairError>
    requires sound { shown.IsSound space.old }
    requires total { (told_by txn.old).total ≡ shown.total space.old }
    requires root { tree.root < shown.total space.old }
    requires proper { IsProperIfAny tree.span }
    requires few { tree.slots ≤ 2 ^ 35 }
    requires within { slots ≤ 2 ^ 35 }
    requires longer { tree.slots ≤ slots }
    requires room { length (held txn.old) + passed tree (grow_to slots) ≤ 64 }
    ensures moved { repairs.Edits space.old space.new txn.old txn.new tree (grow_to slots) }
    ensures cause { IfErr result (λ e. repairs.Explains e space.old space.new) }
    ensures quiet { OnOk result ((shown.view space.new).faults ≡ (shown.view space.old).faults) }
    ensures quiet_err { IfErr result (λ e. e ≢ RepairError.DiskFault → (shown.view space.new).faults ≡ (shown.view space.old).faults) }
    ensures catalog { repairs.ForPages space.old (λ base. LeavesCatalog txn.old txn.new base) }
    ensures tree { IfOk result (λ new. IsNewTree slots (told_by txn.new) tree new) }
    ensures damaged { repairs.ForPages space.old (λ base. IfErr result (λ e. IsDamageOf txn.old txn.new base tree e)) }
    // where the pages of the tree and of the chain are apart, it is so before the change
    ensures stored { repairs.ForPages space.old (λ base. IfErr result (BlamesStored txn.old base tree)) }
    ensures few_puts { length (held txn.new) ≤ length (held txn.old) + (levels_of slots - levels_of tree.slots) }
    ensures edited { repairs.ForEdit space.old txn.old tree (grow_to slots)
        (λ base count list list' others. IfOk result (λ new. IsAfter txn.old txn.new base count new list' others)) }
    ensures errors { repairs.ForEdit space.old txn.old tree (grow_to slots)
        (λ base count list list' others. IfErr result (λ e. IsErrorFor txn.old txn.new list list' e)) }
{
    let none = Slots { first: 0, end: 0 };
    fill(space, txn, tree, none, &[], slots, &mut false)
}

/// Takes the values of so many slots from one on, and notes in `changed` that one had a value. The number of slots
/// stays, and pages below which nothing is stored are given back. Where the pages stand for a list no error comes but `DiskFault`.
pub fn clear_run<P: Pages>(
    space: &mut Space<P>,
    txn: &mut Txn,
    tree: Tree,
    slot: u64,
    count: u64,
    changed: &mut bool,
) -> Result<Tree, RepairError>
    requires sound { shown.IsSound space.old }
    requires total { (told_by txn.old).total ≡ shown.total space.old }
    requires root { tree.root < shown.total space.old }
    requires proper { IsProperIfAny tree.span }
    requires few { tree.slots ≤ 2 ^ 35 }
    requires within { slot + count ≤ 2 ^ 35 }
    requires room { length (held txn.old) + passed tree (clear_in tree slot count) ≤ 64 }
    ensures moved { repairs.Moves (1 * passed tree (clear_in tree slot count))
        (passed tree (clear_in tree slot count)) space.old space.new txn.old txn.new }
    ensures cause { IfErr result (λ e. repairs.Explains e space.old space.new) }
    ensures quiet { OnOk result ((shown.view space.new).faults ≡ (shown.view space.old).faults) }
    ensures quiet_err { IfErr result (λ e. e ≢ RepairError.DiskFault → (shown.view space.new).faults ≡ (shown.view space.old).faults) }
    ensures catalog { repairs.ForPages space.old (λ base. LeavesCatalog txn.old txn.new base) }
    ensures tree { IfOk result (λ new. IsNewTree tree.slots (told_by txn.new) tree new) }
    ensures damaged { repairs.ForPages space.old (λ base. IfErr result (λ e. IsDamageOf txn.old txn.new base tree e)) }
    // where the pages of the tree and of the chain are apart, it is so before the change
    ensures stored { repairs.ForPages space.old (λ base. IfErr result (BlamesStored txn.old base tree)) }
    ensures few_puts { count ≤ 4096 → length (held txn.new) ≤ length (held txn.old) + (30 + 2 * levels_of tree.slots) }
    ensures edited { repairs.ForEdit space.old txn.old tree (clear_in tree slot count)
        (λ base size list list' others. IfOk result (λ new. IsAfter txn.old txn.new base size new list' others)) }
    ensures errors { repairs.ForEdit space.old txn.old tree (clear_in tree slot count)
        (λ base size list list' others. IfErr result (λ e. e ≡ RepairError.DiskFault)) }
    // as for `put_run`
    ensures was { changed.new ≡ false → changed.old ≡ false }
    ensures kept { changed.new ≡ false → OnOk result (txn.new ≡ txn.old) }
    ensures same { changed.new ≡ false → repairs.ForEdit space.old txn.old tree (clear_in tree slot count)
        (λ base size list list' others. OnOk result (list' ≡ list)) }
    ensures idle { changed.old ≡ false → repairs.ForEdit space.old txn.old tree (clear_in tree slot count)
        (λ base size list list' others. list' ≡ list → OnOk result (changed.new ≡ false)) }
{
    let levels = page_levels(tree.slots);
    let at = Place {
        height: levels,
        level: levels,
        index: 0,
    };
    let root = Root {
        page: tree.root,
        span: tree.span,
    };
    let slots = Slots {
        first: slot,
        end: slot + count,
    };
    let next = repair(space, txn, at, root, slots, &[], changed)?;
    Ok(Tree {
        slots: tree.slots,
        root: next.page,
        span: next.span,
    })
}
