//! The sets of runs are done, by groups.
ghost use Rattle.std.specs.Prelude.{◌≡◌, ◌<◌, ◌≤◌, length, IfOk, IfErr, OnOk};
ghost use Rattle.chart_world.specs.Faults.{CountsFault, fault_in};
ghost use Rattle.run_ends.specs.Faults.{end_fault};
ghost use Rattle.series_load.specs.Sets.{AreEdits};
ghost use Rattle.series_load.specs.Steps.{BlamesNone, Counts, IsSoundFor, end_at};
ghost use Rattle.series_load.specs.Shown as loads;
ghost use Rattle.series_store.specs.Shown as shown;

use gate_pages::Pages;
use run_ends::End;
use series_book::{Edit, Outcome, Refusal};
use series_store::{Store, StoreError};

/// What an error of the store is for a load, where a run that begins at `at` was stored.
fn end_at(at: u32, error: StoreError) -> End
    ensures { result ≡ end_at at error }
{
    match error {
        StoreError::Refused(refusal) => End::Refused {
            at,
            refusal: refusal.number(),
        },
        StoreError::DiskFault => End::DiskFault,
        StoreError::Damaged { page } => End::DamagedPage { page },
        StoreError::NotAStore | StoreError::NoMemory => End::NoMemory,
    }
}

/// How many sets these answers are of, or the refusal of the last one.
fn to_count(ats: &[u32], answers: &[Result<Outcome, Refusal>]) -> Result<usize, End>
    requires some { 0 < length answers.now }
    requires placed { length answers.now ≤ length ats.now }
    ensures { Counts ats.now answers.now result }
{
    let last = answers.len() - 1;
    match answers[last] {
        Ok(_) => Ok(answers.len()),
        Err(refusal) => Err(End::Refused {
            at: ats[last],
            refusal: refusal.number(),
        }),
    }
}

/// Does some first of the sets in one commit, and answers how many.
fn commit_some<P: Pages>(store: &mut Store<P>, sets: &[Edit], ats: &[u32]) -> Result<usize, End>
    requires sound { shown.IsSound store.old }
    requires some { 0 < length sets.now }
    requires edits { AreEdits sets.now ats.now }
    ensures some { IfOk result (λ count. 0 < count) }
    ensures most { IfOk result (λ count. count ≤ length sets.now) }
    ensures does { loads.ForSets store.old sets.now ats.now
        (λ total name book runs. loads.DoesSome total name book runs result store.old store.new) }
    ensures carries { loads.CarriesOn store.old store.new }
    ensures cause { IfErr result (λ e. loads.FailsFor e store.old store.new) }
    ensures blames { IfErr result (λ e. BlamesNone e) }
    ensures faults { CountsFault (fault_in end_fault result) (shown.view store.old) (shown.view store.new) }
    ensures sound { OnOk result (shown.IsSound store.new) }
    ensures sound_for { IfErr result (λ e. IsSoundFor e (shown.view store.new)) }
{
    match store.edit_until_refused(sets) {
        Ok(answers) => to_count(ats, answers.as_slice()),
        Err(error) => Err(end_at(ats[0], error)),
    }
}

/// Does the sets one after the other, as many in each commit as their pages allow, up to the first that is refused.
pub(crate) fn commit_sets<P: Pages>(
    store: &mut Store<P>,
    sets: &[Edit],
    ats: &[u32],
) -> Result<(), End>
    requires sound { shown.IsSound store.old }
    requires edits { AreEdits sets.now ats.now }
    ensures does { loads.ForSets store.old sets.now ats.now
        (λ total name book runs. loads.DoesRuns total name book runs result store.old store.new) }
    ensures carries { loads.CarriesOn store.old store.new }
    ensures cause { IfErr result (λ e. loads.FailsFor e store.old store.new) }
    ensures blames { IfErr result (λ e. BlamesNone e) }
    ensures faults { CountsFault (fault_in end_fault result) (shown.view store.old) (shown.view store.new) }
    ensures sound { OnOk result (shown.IsSound store.new) }
    ensures sound_for { IfErr result (λ e. IsSoundFor e (shown.view store.new)) }
{
    if sets.is_empty() {
        return Ok(());
    }
    let count = commit_some(store, sets, ats)?;
    commit_sets(store, &sets[count..], &ats[count..])
}
