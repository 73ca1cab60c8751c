//! Edits are staged: done in a transaction and in the catalog, and not committed.
ghost use Rattle.std.specs.Prelude.{◌≡◌, ◌+◌, length, IfOk, ◌≢◌, OnOk, IfErr};
ghost use Rattle.page_space.specs.Shown as spaces;
ghost use Rattle.page_space.specs.Transactions.{held};
ghost use Rattle.series_catalog.specs.Shown.{series_in};
ghost use Rattle.series_store.specs.Staging as stages;
ghost use Rattle.series_book.specs.declared.edits.Edit.TheVariants.{Append, Set, Clear};
ghost use Rattle.series_book.specs.Edits.{IsEdit, apply};
ghost use Rattle.series_store.specs.Results.{ClearsNone, KeepsBook};
ghost use Rattle.series_store.specs.declared.staged.Undo.{Undo};

use crate::creating::create;
use crate::errors::StoreError;
use crate::saving::{clear_slots, put};
use crate::staged::{Staged, Undo};
use gate_pages::Pages;
use page_space::{Space, Txn};
use series_book::checks::{append_refusal, clear_refusal, place_of, set_refusal};
use series_book::{Edit, Name, Outcome, Refusal, Values};
use series_catalog::Catalog;

/// Stages an edit. It is refused exactly where a refusal stands, with the first that does. It reads 96 blocks at
/// most.
pub(crate) fn stage<P: Pages>(
    space: &mut Space<P>,
    txn: &mut Txn,
    catalog: &mut Catalog,
    edit: &Edit,
) -> Result<Staged, StoreError>
    requires sound { spaces.IsSound space.old }
    requires staged { stages.IsStaged space.old txn.old catalog.old }
    requires room { stages.HasRoomFor (length (held txn.old)) (series_in catalog.old) edit.now }
    requires is_edit { IsEdit edit.now }
    ensures answered { stages.AnswersEdit edit.now result space.old space.new txn.old txn.new }
    ensures carried { stages.Stages result space.old space.new txn.old txn.new catalog.old catalog.new }
    ensures quiet { OnOk result ((spaces.view space.new).faults ≡ (spaces.view space.old).faults) }
    ensures quiet_err { IfErr result (λ e. e ≢ StoreError.DiskFault → (spaces.view space.new).faults ≡ (spaces.view space.old).faults) }
    // an edit that changes no slot stages nothing
    ensures none_cleared { stages.ForStaged space.old txn.old (λ total book. ClearsNone book edit.now
        → IfOk result (λ staged. staged.undo ≡ Undo.Nothing)) }
    ensures kept { stages.ForStaged space.old txn.old (λ total book. KeepsBook book (apply book total edit.now)
        → IfOk result (λ staged. staged.undo ≡ Undo.Nothing)) }
{
    match edit {
        Edit::Create {
            name,
            start,
            step,
            scale,
        } => create(space, txn, catalog, name, *start, *step, *scale),
        Edit::Append { name, values } => append(space, txn, catalog, name, values),
        Edit::Set { name, time, values } => set(space, txn, catalog, name, *time, values),
        Edit::Clear { name, time, count } => clear(space, txn, catalog, name, *time, *count),
    }
}

fn append<P: Pages>(
    space: &mut Space<P>,
    txn: &mut Txn,
    catalog: &mut Catalog,
    name: &Name,
    values: &Values,
) -> Result<Staged, StoreError>
    requires sound { spaces.IsSound space.old }
    requires staged { stages.IsStaged space.old txn.old catalog.old }
    requires room { stages.HasRoomFor (length (held txn.old)) (series_in catalog.old) (Append name.now values.now) }
    requires is_edit { IsEdit (Append name.now values.now) }
    ensures answered { stages.AnswersEdit (Append name.now values.now) result space.old space.new txn.old txn.new }
    ensures carried { stages.Stages result space.old space.new txn.old txn.new catalog.old catalog.new }
    ensures kept { stages.ForStaged space.old txn.old (λ total book. KeepsBook book (apply book total (Append name.now values.now))
        → IfOk result (λ staged. staged.undo ≡ Undo.Nothing)) }
    ensures quiet { OnOk result ((spaces.view space.new).faults ≡ (spaces.view space.old).faults) }
    ensures quiet_err { IfErr result (λ e. e ≢ StoreError.DiskFault → (spaces.view space.new).faults ≡ (spaces.view space.old).faults) }
{
    let Some(id) = catalog.find(name) else {
        return Err(StoreError::Refused(Refusal::UnknownSeries));
    };
    let axis = catalog.series(id).axis();
    if let Some(refusal) = append_refusal(axis, values) {
        return Err(StoreError::Refused(refusal));
    }
    let run = values.to_slots()?;
    put(space, txn, catalog, id, axis.slots, &run)
}

fn set<P: Pages>(
    space: &mut Space<P>,
    txn: &mut Txn,
    catalog: &mut Catalog,
    name: &Name,
    time: i128,
    values: &Values,
) -> Result<Staged, StoreError>
    requires sound { spaces.IsSound space.old }
    requires staged { stages.IsStaged space.old txn.old catalog.old }
    requires room { stages.HasRoomFor (length (held txn.old)) (series_in catalog.old) (Set name.now time values.now) }
    requires is_edit { IsEdit (Set name.now time values.now) }
    ensures answered { stages.AnswersEdit (Set name.now time values.now) result space.old space.new txn.old txn.new }
    ensures carried { stages.Stages result space.old space.new txn.old txn.new catalog.old catalog.new }
    ensures kept { stages.ForStaged space.old txn.old (λ total book. KeepsBook book (apply book total (Set name.now time values.now))
        → IfOk result (λ staged. staged.undo ≡ Undo.Nothing)) }
    ensures quiet { OnOk result ((spaces.view space.new).faults ≡ (spaces.view space.old).faults) }
    ensures quiet_err { IfErr result (λ e. e ≢ StoreError.DiskFault → (spaces.view space.new).faults ≡ (spaces.view space.old).faults) }
{
    let Some(id) = catalog.find(name) else {
        return Err(StoreError::Refused(Refusal::UnknownSeries));
    };
    let axis = catalog.series(id).axis();
    if let Some(refusal) = set_refusal(axis, time, values) {
        return Err(StoreError::Refused(refusal));
    }
    let run = values.to_slots()?;
    put(space, txn, catalog, id, place_of(axis, time) as u64, &run)
}

/// Nothing is staged where none of the slots is there.
fn clear<P: Pages>(
    space: &mut Space<P>,
    txn: &mut Txn,
    catalog: &mut Catalog,
    name: &Name,
    time: i128,
    count: u64,
) -> Result<Staged, StoreError>
    requires sound { spaces.IsSound space.old }
    requires staged { stages.IsStaged space.old txn.old catalog.old }
    requires room { stages.HasRoomFor (length (held txn.old)) (series_in catalog.old) (Clear name.now time count) }
    ensures answered { stages.AnswersEdit (Clear name.now time count) result space.old space.new txn.old txn.new }
    ensures carried { stages.Stages result space.old space.new txn.old txn.new catalog.old catalog.new }
    ensures kept { stages.ForStaged space.old txn.old (λ total book. KeepsBook book (apply book total (Clear name.now time count))
        → IfOk result (λ staged. staged.undo ≡ Undo.Nothing)) }
    ensures quiet { OnOk result ((spaces.view space.new).faults ≡ (spaces.view space.old).faults) }
    ensures quiet_err { IfErr result (λ e. e ≢ StoreError.DiskFault → (spaces.view space.new).faults ≡ (spaces.view space.old).faults) }
    ensures none_cleared { stages.ForStaged space.old txn.old (λ total book. ClearsNone book (Clear name.now time count)
        → IfOk result (λ staged. staged.undo ≡ Undo.Nothing)) }
{
    let Some(id) = catalog.find(name) else {
        return Err(StoreError::Refused(Refusal::UnknownSeries));
    };
    let axis = catalog.series(id).axis();
    if let Some(refusal) = clear_refusal(axis, time, count) {
        return Err(StoreError::Refused(refusal));
    }
    let place = place_of(axis, time);
    if place >= u128::from(axis.slots) || count == 0 {
        let outcome = Outcome { slots: axis.slots };
        return Ok(Staged {
            outcome,
            undo: Undo::Nothing,
        });
    }
    let place = place as u64;
    let end = (place + count).min(axis.slots);
    clear_slots(space, txn, catalog, id, place, end - place)
}
