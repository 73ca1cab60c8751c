//! What is staged is committed.
ghost use Rattle.std.specs.Prelude.{◌≡◌, ◌≤◌, false, length, IfErr, OnOk, OnErr, ◌≢◌};
ghost use Rattle.block_disk.specs.Counts.{HasRisen};
ghost use Rattle.page_space.specs.Shown as spaces;
ghost use Rattle.page_space.specs.Transactions.{held, told_by};
ghost use Rattle.series_book.specs.Edits.{IsEdit, apply};
ghost use Rattle.series_catalog.specs.Shown.{series_in};
ghost use Rattle.series_store.specs.Changing.{IsAnswered};
ghost use Rattle.series_store.specs.Results.{ClearsNone, CommitsNone, KeepsBook};
ghost use Rattle.series_store.specs.Staging as stages;

use crate::errors::StoreError;
use crate::staging::stage;
use gate_pages::{DiskFault, Pages};
use page_space::{Space, Txn};
use series_book::{Edit, Outcome};
use series_catalog::Catalog;

/// Commits the transaction, if it changes anything.
pub(crate) fn finish<P: Pages>(
    space: &mut Space<P>,
    txn: Txn,
    is_changed: bool,
) -> Result<(), DiskFault>
    requires sound { spaces.IsSound space.old }
    requires total { (told_by txn).total ≡ spaces.total space.old }
    requires same { is_changed ≡ false → stages.LeavesAll space.old txn }
    ensures commits { spaces.CommitsAll txn space.old space.new }
    ensures goes_on { spaces.TimeGoesOn space.old space.new }
    ensures done { spaces.IsTold space.old → OnOk result (spaces.image space.new ≡ spaces.left space.old txn) }
    ensures superblock { OnOk result (spaces.numbers space.new ≡ told_by txn) }
    ensures old_superblock { OnErr result (spaces.numbers space.new ≡ spaces.numbers space.old) }
    ensures sound { OnOk result (spaces.IsSound space.new) }
    ensures unsound { OnErr result (spaces.IsSound space.new → ⊥) }
    ensures cause { OnErr result (HasRisen (spaces.view space.old).faults (spaces.view space.new).faults) }
    ensures quiet { OnOk result ((spaces.view space.new).faults ≡ (spaces.view space.old).faults) }
    ensures none { is_changed ≡ false → space.new ≡ space.old }
{
    if !is_changed {
        return Ok(());
    }
    space.commit(txn)
}

/// Does an edit in a transaction that changes nothing yet, and commits it. After an error the catalog is as before.
pub(crate) fn commit_one<P: Pages>(
    space: &mut Space<P>,
    txn: Txn,
    catalog: &mut Catalog,
    edit: &Edit,
) -> Result<Outcome, StoreError>
    requires sound { spaces.IsSound space.old }
    requires staged { stages.IsStaged space.old txn catalog.old }
    requires clean { stages.LeavesAll space.old txn }
    requires one { length (held txn) ≡ 1 }
    requires is_edit { IsEdit edit.now }
    ensures answered { stages.ForKept space.old (λ total book. IsAnswered (apply book total edit.now) total book result
        (spaces.view space.old) (spaces.view space.new)) }
    ensures carried { stages.CarriesOut result space.old space.new }
    ensures quiet { OnOk result ((spaces.view space.new).faults ≡ (spaces.view space.old).faults) }
    ensures quiet_err { IfErr result (λ e. e ≢ StoreError.DiskFault → (spaces.view space.new).faults ≡ (spaces.view space.old).faults) }
    ensures none_cleared { stages.ForKept space.old (λ total book. ClearsNone book edit.now
        → CommitsNone (spaces.view space.old) (spaces.view space.new)) }
    ensures kept { stages.ForKept space.old (λ total book. KeepsBook book (apply book total edit.now)
        → CommitsNone (spaces.view space.old) (spaces.view space.new)) }
    ensures stored { stages.IsStored space.new catalog.new }
    ensures more { length (series_in catalog.old) ≤ length (series_in catalog.new) }
{
    let mut txn = txn;
    let staged = stage(space, &mut txn, catalog, edit)?;
    let undo = staged.undo;
    match finish(space, txn, !undo.is_nothing()) {
        Ok(()) => Ok(staged.outcome),
        Err(_) => {
            undo.apply(catalog);
            Err(StoreError::DiskFault)
        }
    }
}
