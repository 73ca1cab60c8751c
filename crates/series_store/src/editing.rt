//! A store is edited.
ghost use Rattle.std.specs.Prelude.{◌≡◌, ◌≤◌, ◌<◌, None, length, IfOk, IfErr, OnOk, ◌≢◌};
ghost use Rattle.block_disk.specs.View.{Passes};
ghost use Rattle.gate_pages.specs.Pages.{Quiet};
ghost use Rattle.page_space.specs.Transactions.{held, left_by, told_by};
ghost use Rattle.series_book.specs.declared.limits.TheConstants.{MOST_SLOTS};
ghost use Rattle.series_book.specs.Edits.{IsEdit, apply};
ghost use Rattle.series_store.specs.Results.{IsDone, IsRefusedWith, IsBeforeOrAfter, IsEditCause, IsUnchangedFor, ClearsNone, CommitsNone};
ghost use Rattle.series_store.specs.Results.{KeepsBook};
ghost use Rattle.series_store.specs.Shown as shown;

use crate::committing::commit_one;
use crate::errors::StoreError;
use crate::store::Store;
use gate_pages::Pages;
use page_space::Txn;
use series_book::{Edit, Outcome};

impl<P: Pages> Store<P> {
    /// Does the edit in one commit. It is refused exactly where a refusal stands, with the first that does;
    /// then nothing is changed. Afterwards no series is selected.
    ///
    /// It reads 96 blocks at most, and writes 87. After `DiskFault` the store may be unsound, and has to be
    /// opened again: it has the book from before the edit, or the edited one. Where the pages stand for a
    /// book, no page is damaged.
    pub fn edit(&mut self, edit: &Edit) -> Result<Outcome, StoreError>
        requires sound { shown.IsSound self.old }
        requires is_edit { IsEdit edit.now }
        ensures done { shown.ForBook self.old (λ total book. IfOk result
            (λ outcome. IsDone total book edit.now outcome (shown.image self.new))) }
        ensures refused { shown.ForBook self.old (λ total book. IfErr result (λ e. IsRefusedWith total book edit.now e)) }
        // a crash at any moment leaves the book from before the edit, or the edited one
        ensures moments { shown.ForBook self.old (λ total book. Passes (shown.view self.old) (shown.view self.new)
            (IsBeforeOrAfter total book edit.now) (Quiet (shown.view self.old))) }
        ensures moves { shown.MovesSo self.old self.new }
        ensures goes_on { shown.TimeGoesOn self.old self.new }
        ensures cause { IfErr result (λ e. IsEditCause e (shown.IsTold self.old) (shown.numbers self.old) (shown.view self.old)
            (shown.view self.new)) }
        ensures quiet { OnOk result ((shown.view self.new).faults ≡ (shown.view self.old).faults) }
        ensures quiet_err { IfErr result (λ e. e ≢ StoreError.DiskFault → (shown.view self.new).faults ≡ (shown.view self.old).faults) }
        ensures unchanged { IfErr result (λ e. IsUnchangedFor e (shown.IsTold self.old) (shown.view self.old) (shown.view self.new)) }
        // an edit that leaves the book as it is writes and syncs nothing
        ensures same_book { shown.ForBook self.old (λ total book. KeepsBook book (apply book total edit.now)
            → CommitsNone (shown.view self.old) (shown.view self.new)) }
        // nor does a clear of slots that aren't there
        ensures idle { shown.ForBook self.old (λ total book. ClearsNone book edit.now
            → CommitsNone (shown.view self.old) (shown.view self.new)) }
        ensures sound { OnOk result (shown.IsSound self.new) }
        ensures total { shown.total self.new ≡ shown.total self.old }
        ensures slots { IfOk result (λ outcome. outcome.slots ≤ MOST_SLOTS) }
        ensures none { (self.new.tree.slots ≡ 0) × (self.new.tree.span ≡ None) }
        // no series goes away, whatever the pages are
        ensures more { length (shown.catalog self.old) ≤ length (shown.catalog self.new) }
    {
        self.select_none();
        self.edit_one(edit)
    }

    /// The same where no series is selected.
    pub(crate) fn edit_one(&mut self, edit: &Edit) -> Result<Outcome, StoreError>
        requires sound { shown.IsSound self.old }
        requires idle { shown.SelectsNone self.old }
        requires is_edit { IsEdit edit.now }
        ensures answered { shown.ForBook self.old (λ total book. shown.Answers
            (apply book total edit.now) total book result self.old self.new) }
        ensures carried { shown.CarriesOut result self.old self.new }
        ensures quiet { OnOk result ((shown.view self.new).faults ≡ (shown.view self.old).faults) }
        ensures quiet_err { IfErr result (λ e. e ≢ StoreError.DiskFault → (shown.view self.new).faults ≡ (shown.view self.old).faults) }
        ensures none_cleared { shown.ForBook self.old (λ total book. ClearsNone book edit.now
            → CommitsNone (shown.view self.old) (shown.view self.new)) }
        ensures kept { shown.ForBook self.old (λ total book. KeepsBook book (apply book total edit.now)
            → CommitsNone (shown.view self.old) (shown.view self.new)) }
        ensures idle { shown.SelectsNone self.new }
        ensures more { length (shown.catalog self.old) ≤ length (shown.catalog self.new) }
    {
        let txn = self.begin()?;
        commit_one(&mut self.space, txn, &mut self.catalog, edit)
    }

    /// A transaction over the pages, which it would leave as they are.
    pub(crate) fn begin(&mut self) -> Result<Txn, StoreError>
        requires sound { shown.IsSound self.old }
        ensures space { self.new.space ≡ self.old.space }
        ensures catalog { self.new.catalog ≡ self.old.catalog }
        ensures trail { self.new.trail ≡ self.old.trail }
        ensures tree { self.new.tree ≡ self.old.tree }
        ensures superblock { IfOk result (λ txn. told_by txn ≡ (shown.numbers self.new)) }
        ensures len { IfOk result (λ txn. length (held txn) ≡ 1) }
        ensures left { shown.IsTold self.new → IfOk result (λ txn. left_by txn (shown.image self.new) ≡ shown.image self.new) }
        ensures error { IfErr result (λ e. e ≡ StoreError.NoMemory) }
    {
        Ok(self.space.begin(self.alloc)?)
    }
}
