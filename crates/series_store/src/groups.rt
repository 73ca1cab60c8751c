//! Edits that stand ready are done together, in one commit.
ghost use Rattle.std.specs.Prelude.{◌≡◌, ◌≤◌, ◌<◌, ◌+◌, ◌*◌, ◌++◌, ◌∷◌, [], None, List, Result, true, false, is_err, IsTrue, All, length};
ghost use Rattle.std.specs.Prelude.{take, IfOk, IfErr, OnOk, OnErr, ◌≢◌};
ghost use Rattle.block_disk.specs.Counts.{HasRisen};
ghost use Rattle.page_space.specs.Shown as spaces;
ghost use Rattle.page_space.specs.Transactions.{held, told_by};
ghost use Rattle.series_book.specs.declared.edits.Edit.{Edit};
ghost use Rattle.series_book.specs.declared.outcomes.Outcome.{Outcome};
ghost use Rattle.series_book.specs.declared.refusals.Refusal.{Refusal};
ghost use Rattle.series_book.specs.Edits.{IsEdit};
ghost use Rattle.series_catalog.specs.Shown.{series_in};
ghost use Rattle.series_store.specs.Grouping as grouping;
ghost use Rattle.series_store.specs.Groups.{AreDone, AreSome, AreMany, PassesWhole, IsGroupCause, ChangeNone, HaveFewSlots, PassesUntil};
ghost use Rattle.series_store.specs.Groups.{RefuseLast};
ghost use Rattle.series_store.specs.Opening.{IsOutside};
ghost use Rattle.series_store.specs.Results.{IsUnchangedFor};
ghost use Rattle.series_store.specs.Shown as shown;
ghost use Rattle.series_store.specs.Staging as stages;

use crate::errors::StoreError;
use crate::puts::is_full;
use crate::staged::Undo;
use crate::staging::stage;
use crate::store::Store;
use gate_pages::Pages;
use page_space::{Space, Txn};
use series_book::{Edit, Outcome, Refusal};
use series_catalog::Catalog;

/// The refusal, or what else the error is.
fn refusal_in(cause: StoreError) -> Result<Refusal, StoreError>
    ensures refused { IfOk result (λ refusal. cause ≡ StoreError.Refused refusal) }
    ensures other { IfErr result (λ e. (e ≡ cause) × (stages.IsRefusal cause → ⊥)) }
{
    match cause {
        StoreError::Refused(refusal) => Ok(refusal),
        StoreError::NotAStore => Err(StoreError::NotAStore),
        StoreError::DiskFault => Err(StoreError::DiskFault),
        StoreError::Damaged { page } => Err(StoreError::Damaged { page }),
        StoreError::NoMemory => Err(StoreError::NoMemory),
    }
}

/// Whether a page is damaged.
fn is_damage(cause: StoreError) -> bool
    ensures damage { IsTrue result → grouping.IsDamage cause }
    ensures other { result ≡ false → grouping.IsDamage cause → ⊥ }
{
    match cause {
        StoreError::Refused(_) | StoreError::NotAStore => false,
        StoreError::DiskFault | StoreError::NoMemory => false,
        StoreError::Damaged { .. } => true,
    }
}

/// Stages an edit behind others, and adds its answer to theirs.
fn stage_next<P: Pages>(
    space: &mut Space<P>,
    txn: &mut Txn,
    catalog: &mut Catalog,
    edit: &Edit,
    answers: &mut Vec<Result<Outcome, Refusal>>,
) -> Result<Undo, StoreError>
    requires sound { spaces.IsSound space.old }
    requires staged { stages.IsStaged space.old txn.old catalog.old }
    requires room { stages.HasRoomFor (length (held txn.old)) (series_in catalog.old) edit.now }
    requires is_edit { IsEdit edit.now }
    ensures next { grouping.GoesNext result space.old space.new txn.old txn.new catalog.old catalog.new answers.old.items
        answers.new.items }
    ensures quiet { OnOk result ((spaces.view space.new).faults ≡ (spaces.view space.old).faults) }
    ensures quiet_err { IfErr result (λ e. e ≢ StoreError.DiskFault → (spaces.view space.new).faults ≡ (spaces.view space.old).faults) }
    ensures answered { stages.ForStaged space.old txn.old
        (λ total book. grouping.AnswersNext total book edit.now result space.new txn.old txn.new answers.old.items answers.new.items) }
{
    answers.reserve(1)?;
    match stage(space, txn, catalog, edit) {
        Ok(staged) => {
            let _added = answers.push(Ok(staged.outcome));
            Ok(staged.undo)
        }
        Err(cause) => {
            let refusal = refusal_in(cause)?;
            let _added = answers.push(Err(refusal));
            Ok(Undo::Nothing)
        }
    }
}

/// Commits the transaction, if it changes anything.
fn close<P: Pages>(space: &mut Space<P>, txn: Txn, is_changed: bool) -> Result<(), StoreError>
    requires sound { spaces.IsSound space.old }
    requires total { (told_by txn).total ≡ spaces.total space.old }
    ensures commits { spaces.CommitsAll txn space.old space.new }
    ensures goes_on { spaces.TimeGoesOn space.old space.new }
    ensures done { is_changed ≡ true → spaces.IsTold space.old → OnOk result (spaces.image space.new ≡ spaces.left space.old txn) }
    ensures superblock { is_changed ≡ true → OnOk result (spaces.numbers space.new ≡ told_by txn) }
    ensures none { is_changed ≡ false → space.new ≡ space.old }
    ensures old_superblock { OnErr result (spaces.numbers space.new ≡ spaces.numbers space.old) }
    ensures sound { OnOk result (spaces.IsSound space.new) }
    ensures unsound { OnErr result (spaces.IsSound space.new → ⊥) }
    ensures error { IfErr result (λ e. e ≡ StoreError.DiskFault) }
    ensures cause { OnErr result (HasRisen (spaces.view space.old).faults (spaces.view space.new).faults) }
    ensures quiet { OnOk result ((spaces.view space.new).faults ≡ (spaces.view space.old).faults) }
    ensures quiet_err { IfErr result (λ e. e ≢ StoreError.DiskFault → (spaces.view space.new).faults ≡ (spaces.view space.old).faults) }
{
    if !is_changed {
        return Ok(());
    }
    space.commit(txn)?;
    Ok(())
}

/// Whether the last answer is a refusal.
fn is_refused(answers: &[Result<Outcome, Refusal>]) -> bool
    ensures { (before : List (Result Outcome Refusal)) (answer : Result Outcome Refusal) → answers.now ≡ before ++ answer ∷ []
        → result ≡ is_err answer }
{
    match answers.last() {
        Some(answer) => answer.is_err(),
        None => false,
    }
}

/// The edits that follow the answered ones: none where a refusal ends them and is the last answer.
fn to_follow<'a>(ends: bool, answers: &[Result<Outcome, Refusal>], rest: &'a [Edit]) -> &'a [Edit]
    ensures { (before : List (Result Outcome Refusal)) (answer : Result Outcome Refusal) → answers.now ≡ before ++ answer ∷ []
        → grouping.Follow ends answer rest.now result.now }
{
    if ends && is_refused(answers) {
        return &rest[rest.len()..];
    }
    rest
}

/// Stages edits behind others, one after the other until too many pages are held, or until one is refused where
/// that ends them, and commits them all.
fn commit_all<P: Pages>(
    space: &mut Space<P>,
    txn: Txn,
    catalog: &mut Catalog,
    edits: &[Edit],
    ends: bool,
    is_changed: bool,
    answers: &mut Vec<Result<Outcome, Refusal>>,
) -> Result<(), StoreError>
    requires sound { spaces.IsSound space.old }
    requires staged { stages.IsStaged space.old txn catalog.old }
    requires clean { is_changed ≡ false → stages.IsKept space.old catalog.old }
    requires are_edits { All IsEdit edits.now }
    ensures groups { grouping.Groups result space.old space.new txn catalog.old catalog.new edits.now answers.old.items answers.new.items }
    ensures quiet { OnOk result ((spaces.view space.new).faults ≡ (spaces.view space.old).faults) }
    ensures quiet_err { IfErr result (λ e. e ≢ StoreError.DiskFault → (spaces.view space.new).faults ≡ (spaces.view space.old).faults) }
    ensures grouped { grouping.ForGroup space.old txn is_changed
        (λ total book. grouping.GroupsSo total book result space.old space.new txn ends is_changed edits.now answers.old.items
        answers.new.items) }
{
    let held = txn.len();
    let Some((edit, rest)) = edits.split_first() else {
        return close(space, txn, is_changed);
    };
    if is_full(held, catalog, edit) {
        return close(space, txn, is_changed);
    }
    let mut txn = txn;
    let undo = stage_next(space, &mut txn, catalog, edit, answers)?;
    let is_changed = undo.or_changed(is_changed);
    let rest = to_follow(ends, answers.as_slice(), rest);
    match commit_all(space, txn, catalog, rest, ends, is_changed, answers) {
        Ok(()) => Ok(()),
        Err(cause) => {
            undo.apply(catalog);
            Err(cause)
        }
    }
}

impl<P: Pages> Store<P> {
    /// Does some first edits in one commit: all of them, or so many that their pages fill it. The answer of each
    /// that is done stands in the list, a refusal too.
    ///
    /// It takes as many frames of the stack as there are edits. It reads 96 blocks at most for each edit that it
    /// does, and over damaged pages for each of the list and once more; it syncs four times at most. After `DiskFault`
    /// the store may be unsound, and has to be opened again: it has the book from before the edits, or the one behind
    /// all that were to be committed. After another error nothing is changed. Where the pages stand for a book, no page
    /// is damaged.
    pub fn edit_group(
        &mut self,
        edits: &[Edit],
    ) -> Result<Vec<Result<Outcome, Refusal>>, StoreError>
        requires sound { shown.IsSound self.old }
        requires some { 0 < length edits.now }
        requires are_edits { All IsEdit edits.now }
        ensures covered { IfOk result (λ answers. AreSome edits.now (length answers.items)) }
        ensures done { shown.ForBook self.old (λ total book. IfOk result
            (λ answers. AreDone total book edits.now answers.items (shown.image self.new))) }
        ensures many { shown.ForBook self.old (λ total book. IfOk result (λ answers. AreMany total book edits.now (length answers.items))) }
        ensures outside { shown.ForBook self.old (λ total book. IfErr result IsOutside) }
        // a crash at any moment leaves none of the edits that are done, or all
        ensures moments { shown.ForBook self.old (λ total book. IfOk result
            (λ answers. shown.PassesNoneOrAll total book edits.now (length answers.items) self.old self.new)) }
        ensures whole { shown.ForBook self.old (λ total book. PassesWhole total book edits.now (shown.view self.old)
            (shown.view self.new)) }
        ensures reads { shown.ForBook self.old (λ total book.
            (shown.view self.new).reads ≤ (shown.view self.old).reads + 96 * length edits.now) }
        ensures few_reads { shown.ForBook self.old (λ total book. IfOk result
            (λ answers. (shown.view self.new).reads ≤ (shown.view self.old).reads + 96 * length answers.items)) }
        // whatever the pages are, each edit is read for once at most, and the first one twice
        ensures most_reads { (shown.view self.new).reads ≤ (shown.view self.old).reads + 96 * (length edits.now + 1) }
        // edits that change no slot write and sync nothing
        ensures idle { shown.ForBook self.old (λ total book. IfOk result
            (λ answers. ChangeNone total book (take (length answers.items) edits.now) → shown.WritesNone self.old self.new)) }
        ensures moves { shown.MovesGroup self.old self.new }
        ensures goes_on { shown.TimeGoesOn self.old self.new }
        ensures cause { IfErr result (λ e. IsGroupCause e (shown.IsTold self.old) (shown.numbers self.old) (shown.view self.old)
            (shown.view self.new)) }
        ensures quiet { OnOk result ((shown.view self.new).faults ≡ (shown.view self.old).faults) }
        ensures quiet_err { IfErr result (λ e. e ≢ StoreError.DiskFault → (shown.view self.new).faults ≡ (shown.view self.old).faults) }
        ensures unchanged { IfErr result (λ e. IsUnchangedFor e (shown.IsTold self.old) (shown.view self.old) (shown.view self.new)) }
        ensures sound { OnOk result (shown.IsSound self.new) }
        ensures total { shown.total self.new ≡ shown.total self.old }
        ensures slots { IfOk result (λ answers. HaveFewSlots answers.items) }
        ensures none { (self.new.tree.slots ≡ 0) × (self.new.tree.span ≡ None) }
        // no series goes away, whatever the pages are
        ensures more { length (shown.catalog self.old) ≤ length (shown.catalog self.new) }
    {
        self.select_none();
        self.edit_some(edits, false)
    }

    /// Does some first edits in one commit, as `edit_group` does, and none behind one that is refused: only the last answer
    /// may be a refusal.
    pub fn edit_until_refused(
        &mut self,
        edits: &[Edit],
    ) -> Result<Vec<Result<Outcome, Refusal>>, StoreError>
        requires sound { shown.IsSound self.old }
        requires some { 0 < length edits.now }
        requires are_edits { All IsEdit edits.now }
        ensures covered { IfOk result (λ answers. AreSome edits.now (length answers.items)) }
        ensures done { shown.ForBook self.old (λ total book. IfOk result
            (λ answers. AreDone total book edits.now answers.items (shown.image self.new))) }
        // no edit behind a refused one is done
        ensures last { shown.ForBook self.old (λ total book. IfOk result
            (λ answers. RefuseLast total book (take (length answers.items) edits.now))) }
        ensures outside { shown.ForBook self.old (λ total book. IfErr result IsOutside) }
        // a crash at any moment leaves none of the edits that are done, or all
        ensures moments { shown.ForBook self.old (λ total book. IfOk result
            (λ answers. shown.PassesNoneOrAll total book edits.now (length answers.items) self.old self.new)) }
        ensures whole { shown.ForBook self.old (λ total book. PassesUntil total book edits.now (shown.view self.old)
            (shown.view self.new)) }
        ensures reads { shown.ForBook self.old (λ total book.
            (shown.view self.new).reads ≤ (shown.view self.old).reads + 96 * length edits.now) }
        ensures few_reads { shown.ForBook self.old (λ total book. IfOk result
            (λ answers. (shown.view self.new).reads ≤ (shown.view self.old).reads + 96 * length answers.items)) }
        // whatever the pages are, each edit is read for once at most, and the first one twice
        ensures most_reads { (shown.view self.new).reads ≤ (shown.view self.old).reads + 96 * (length edits.now + 1) }
        // edits that change no slot write and sync nothing
        ensures idle { shown.ForBook self.old (λ total book. IfOk result
            (λ answers. ChangeNone total book (take (length answers.items) edits.now) → shown.WritesNone self.old self.new)) }
        ensures moves { shown.MovesGroup self.old self.new }
        ensures goes_on { shown.TimeGoesOn self.old self.new }
        ensures cause { IfErr result (λ e. IsGroupCause e (shown.IsTold self.old) (shown.numbers self.old) (shown.view self.old)
            (shown.view self.new)) }
        ensures quiet { OnOk result ((shown.view self.new).faults ≡ (shown.view self.old).faults) }
        ensures quiet_err { IfErr result (λ e. e ≢ StoreError.DiskFault → (shown.view self.new).faults ≡ (shown.view self.old).faults) }
        ensures unchanged { IfErr result (λ e. IsUnchangedFor e (shown.IsTold self.old) (shown.view self.old) (shown.view self.new)) }
        ensures sound { OnOk result (shown.IsSound self.new) }
        ensures total { shown.total self.new ≡ shown.total self.old }
        ensures slots { IfOk result (λ answers. HaveFewSlots answers.items) }
        ensures none { (self.new.tree.slots ≡ 0) × (self.new.tree.span ≡ None) }
        // no series goes away, whatever the pages are
        ensures more { length (shown.catalog self.old) ≤ length (shown.catalog self.new) }
    {
        self.select_none();
        self.edit_some(edits, true)
    }

    /// The same with no series selected. Where a page is called damaged behind the first edit, that one is done alone, so
    /// that a page that is called damaged is so as it is stored.
    fn edit_some(
        &mut self,
        edits: &[Edit],
        ends: bool,
    ) -> Result<Vec<Result<Outcome, Refusal>>, StoreError>
        requires sound { shown.IsSound self.old }
        requires idle { shown.SelectsNone self.old }
        requires some { 0 < length edits.now }
        requires are_edits { All IsEdit edits.now }
        ensures did { grouping.DoesGroup edits.now result self.old self.new }
        ensures most_reads { (shown.view self.new).reads ≤ (shown.view self.old).reads + 96 * (length edits.now + 1) }
        ensures quiet { OnOk result ((shown.view self.new).faults ≡ (shown.view self.old).faults) }
        ensures quiet_err { IfErr result (λ e. e ≢ StoreError.DiskFault → (shown.view self.new).faults ≡ (shown.view self.old).faults) }
        ensures answered { shown.ForBook self.old (λ total book. grouping.AnswersGroup total book edits.now ends result self.old self.new) }
        ensures idle { shown.SelectsNone self.new }
    {
        let mut answers = Vec::with_capacity(self.alloc, edits.len())?;
        match self.commit_group(edits, ends, &mut answers) {
            Ok(()) => Ok(answers),
            Err(cause) => {
                if is_damage(cause) {
                    return self.edit_first(&edits[0]);
                }
                Err(cause)
            }
        }
    }

    /// Does some first edits in one commit, or none of them.
    fn commit_group(
        &mut self,
        edits: &[Edit],
        ends: bool,
        answers: &mut Vec<Result<Outcome, Refusal>>,
    ) -> Result<(), StoreError>
        requires sound { shown.IsSound self.old }
        requires idle { shown.SelectsNone self.old }
        requires none { answers.old.items ≡ [] }
        requires are_edits { All IsEdit edits.now }
        ensures groups { grouping.CommitsGroup result self.old self.new edits.now answers.new.items }
        ensures quiet { OnOk result ((shown.view self.new).faults ≡ (shown.view self.old).faults) }
        ensures quiet_err { IfErr result (λ e. e ≢ StoreError.DiskFault → (shown.view self.new).faults ≡ (shown.view self.old).faults) }
        ensures grouped { shown.ForBook self.old (λ total book.
            grouping.CommitsSo total book result self.old self.new edits.now ends answers.new.items) }
        ensures idle { shown.SelectsNone self.new }
    {
        let txn = self.begin()?;
        commit_all(
            &mut self.space,
            txn,
            &mut self.catalog,
            edits,
            ends,
            false,
            answers,
        )
    }

    /// Does one edit alone.
    fn edit_first(&mut self, edit: &Edit) -> Result<Vec<Result<Outcome, Refusal>>, StoreError>
        requires sound { shown.IsSound self.old }
        requires idle { shown.SelectsNone self.old }
        requires is_edit { IsEdit edit.now }
        ensures did { grouping.DoesGroup (edit.now ∷ []) result self.old self.new }
        ensures most_reads { (shown.view self.new).reads ≤ (shown.view self.old).reads + 96 }
        ensures quiet { OnOk result ((shown.view self.new).faults ≡ (shown.view self.old).faults) }
        ensures quiet_err { IfErr result (λ e. e ≢ StoreError.DiskFault → (shown.view self.new).faults ≡ (shown.view self.old).faults) }
        ensures idle { shown.SelectsNone self.new }
    {
        let mut answers = Vec::with_capacity(self.alloc, 1)?;
        let answer = match self.edit_one(edit) {
            Ok(outcome) => Ok(outcome),
            Err(cause) => Err(refusal_in(cause)?),
        };
        let _added = answers.push(answer);
        Ok(answers)
    }
}
