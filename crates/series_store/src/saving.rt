//! Changes of the slots of a series are staged.
ghost use Rattle.std.specs.Prelude.{◌≡◌, ◌≢◌, ◌≤◌, ◌<◌, ◌+◌, ◌⊎◌, ◌↔◌, max, Option, Ok, All, false, IsTrue, IsSome, length, slice_get};
ghost use Rattle.std.specs.Prelude.{IfOk, IfErr, OnOk, OnErr, IfSome};
ghost use Rattle.whole_number.specs.SlotTimes.{EndsInTime};
ghost use Rattle.block_disk.specs.Counts.{HasRisen};
ghost use Rattle.page_space.specs.Shown as spaces;
ghost use Rattle.page_space.specs.Transactions.{held, told_by};
ghost use Rattle.series_book.specs.declared.limits.TheConstants.{MOST_SLOTS};
ghost use Rattle.series_catalog.specs.Shown.{series_in};
ghost use Rattle.series_store.specs.Staging as stages;
ghost use Rattle.series_store.specs.Staging.{TakesBack};
ghost use Rattle.series_store.specs.declared.staged.Undo.{Undo};
ghost use Rattle.catalog_page.specs.Entries.{IsEntry};
ghost use Rattle.series_book.specs.Edits.{is_too_large};
ghost use Rattle.series_catalog.specs.Catalogs.{entry_of};
ghost use Rattle.series_store.specs.Changing.{after_put, with_cleared};
ghost use Rattle.series_store.specs.Results.{KeepsBook};

use crate::errors::StoreError;
use crate::staged::{Staged, Undo};
use gate_pages::Pages;
use page_space::{Space, Txn};
use path_repair::{clear_run, put_run};
use series_book::Outcome;
use series_catalog::{Catalog, put_record};
use tree_walk::Tree;

/// Whether a change changed no slot and added none.
fn is_kept(changed: bool, old: Tree, new: Tree) -> bool
    ensures { IsTrue result ↔ ((changed ≡ false) × (new.slots ≡ old.slots)) }
{
    !changed && new.slots == old.slots
}

/// What is staged where no slot of a tree changes: nothing.
fn nothing(tree: Tree) -> Staged
    ensures slots { result.outcome.slots ≡ tree.slots }
    ensures undo { result.undo ≡ Undo.Nothing }
{
    Staged {
        outcome: Outcome { slots: tree.slots },
        undo: Undo::Nothing,
    }
}

/// Gives values to the slots of a series from one on. Missing ones leave their slots as they are. Where none changes nothing is
/// staged.
pub(crate) fn put<P: Pages>(
    space: &mut Space<P>,
    txn: &mut Txn,
    catalog: &mut Catalog,
    id: u16,
    slot: u64,
    values: &[Option<i64>],
) -> Result<Staged, StoreError>
    requires sound { spaces.IsSound space.old }
    requires staged { stages.IsStaged space.old txn.old catalog.old }
    requires room { stages.HasRoomAt (length (held txn.old)) (series_in catalog.old) id slot (slot + length values.now) }
    requires there { id < length (series_in catalog.old) }
    requires some { 0 < length values.now }
    requires short { length values.now ≤ 256 }
    requires within { slot + length values.now ≤ MOST_SLOTS }
    requires last { IfSome (slice_get (series_in catalog.old) id)
        (λ one. EndsInTime one.start one.step (max one.tree.slots (slot + length values.now))) }
    requires values { All (λ value. is_too_large value ≡ false) values.now }
    // none of the slots before the last one is left as it is
    requires whole { IfSome (slice_get (series_in catalog.old) id) (λ one. (slot ≡ one.tree.slots)
        ⊎ All (λ value. IsSome value) values.now) }
    ensures answered { stages.AnswersPut id slot values.now result space.old space.new txn.old txn.new }
    ensures carried { stages.Stages result space.old space.new txn.old txn.new catalog.old catalog.new }
    ensures kept { stages.ForStagedSeries space.old txn.old id
        (λ total book series. KeepsBook book (after_put total book id series slot values.now)
        → IfOk result (λ it. it.undo ≡ Undo.Nothing)) }
    ensures quiet { OnOk result ((spaces.view space.new).faults ≡ (spaces.view space.old).faults) }
    ensures quiet_err { IfErr result (λ e. e ≢ StoreError.DiskFault → (spaces.view space.new).faults ≡ (spaces.view space.old).faults) }
{
    let old = catalog.series(id).tree;
    let mut changed = false;
    let tree = put_run(space, txn, old, slot, values, &mut changed)?;
    if is_kept(changed, old, tree) {
        return Ok(nothing(old));
    }
    save(space, txn, catalog, id, tree)
}

/// Takes the values of so many slots of a series from one on. Where none has one nothing is staged.
pub(crate) fn clear_slots<P: Pages>(
    space: &mut Space<P>,
    txn: &mut Txn,
    catalog: &mut Catalog,
    id: u16,
    slot: u64,
    count: u64,
) -> Result<Staged, StoreError>
    requires sound { spaces.IsSound space.old }
    requires staged { stages.IsStaged space.old txn.old catalog.old }
    requires room { stages.HasRoomAt (length (held txn.old)) (series_in catalog.old) id slot (slot + count) }
    requires there { id < length (series_in catalog.old) }
    requires some { 0 < count }
    requires short { count ≤ 4096 }
    requires within { IfSome (slice_get (series_in catalog.old) id) (λ one. slot + count ≤ one.tree.slots) }
    ensures answered { stages.AnswersCleared id slot count result space.old space.new txn.old txn.new }
    ensures carried { stages.Stages result space.old space.new txn.old txn.new catalog.old catalog.new }
    ensures kept { stages.ForStagedSeries space.old txn.old id
        (λ total book series. KeepsBook book (Ok (with_cleared book id series slot count)) → IfOk result (λ it. it.undo ≡ Undo.Nothing)) }
    ensures quiet { OnOk result ((spaces.view space.new).faults ≡ (spaces.view space.old).faults) }
    ensures quiet_err { IfErr result (λ e. e ≢ StoreError.DiskFault → (spaces.view space.new).faults ≡ (spaces.view space.old).faults) }
{
    let old = catalog.series(id).tree;
    let mut changed = false;
    let tree = clear_run(space, txn, old, slot, count, &mut changed)?;
    if is_kept(changed, old, tree) {
        return Ok(nothing(old));
    }
    save(space, txn, catalog, id, tree)
}

/// Writes the record of a series whose tree was changed. It reads one block at most. After an error nothing is written.
fn save<P: Pages>(
    space: &mut Space<P>,
    txn: &mut Txn,
    catalog: &mut Catalog,
    id: u16,
    tree: Tree,
) -> Result<Staged, StoreError>
    requires sound { spaces.IsSound space.old }
    requires staged { stages.IsStaged space.old txn.old catalog.old }
    requires room { length (held txn.old) < 64 }
    requires there { id < length (series_in catalog.old) }
    requires entry { IfSome (slice_get (series_in catalog.old) id)
        (λ one. IsEntry (told_by txn.old).fresh (entry_of (record one { tree = tree }))) }
    ensures stands { stages.StandsChanged id tree result space.old space.new txn.old txn.new catalog.old }
    ensures staged { OnOk result (stages.IsStaged space.new txn.new catalog.new) }
    ensures back { IfOk result (λ staged. (staged.undo ≢ Undo.Nothing)
        × TakesBack staged.undo (series_in catalog.new) (series_in catalog.old)) }
    ensures kept { OnErr result (series_in catalog.new ≡ series_in catalog.old) }
    ensures slots { IfOk result (λ staged. staged.outcome.slots ≡ tree.slots) }
    ensures superblock { told_by txn.new ≡ told_by txn.old }
    ensures len { length (held txn.new) ≤ length (held txn.old) + 1 }
    ensures reads { spaces.ReadsOne space.old space.new }
    ensures goes_on { spaces.TimeGoesOn space.old space.new }
    ensures space { spaces.numbers space.new ≡ spaces.numbers space.old }
    ensures error { IfErr result (λ e. e ≡ StoreError.DiskFault) }
    ensures cause { OnErr result (HasRisen (spaces.view space.old).faults (spaces.view space.new).faults) }
    ensures quiet { OnOk result ((spaces.view space.new).faults ≡ (spaces.view space.old).faults) }
    ensures quiet_err { IfErr result (λ e. e ≢ StoreError.DiskFault → (spaces.view space.new).faults ≡ (spaces.view space.old).faults) }
{
    put_record(space, txn, id, catalog.series(id), tree)?;
    let old = catalog.series(id).tree;
    catalog.set_tree(id, tree);
    Ok(Staged {
        outcome: Outcome { slots: tree.slots },
        undo: Undo::Tree { id, tree: old },
    })
}
