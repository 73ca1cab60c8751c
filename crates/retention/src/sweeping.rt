//! The clears of a rule are done, one commit each, all of them or some first ones.
ghost use Rattle.std.specs.Prelude.{◌≡◌, ◌≢◌, ◌≤◌, ◌+◌, ◌*◌, ◌↔◌, Ok, Err, length, true, false, IfOk, IfErr, IfSome, OnOk};
ghost use Rattle.chart_world.specs.Faults.{CountsFault, fault_in};
ghost use Rattle.series_book.specs.Edits.{IsEdit};
ghost use Rattle.series_store.specs.Shown as shown;
ghost use Rattle.stored_book.specs.Damage.{IsBadForEdit};
ghost use Rattle.retention.specs.Damage.{Asks, BlamesSo, IsBadForLook, IsBadForSweep};
ghost use Rattle.retention.specs.Faults.{sweep_fault};
ghost use Rattle.retention.specs.Moving.{CarriesOn, LooksOnly, ReadsFew, clear_reads, look_reads};
ghost use Rattle.retention.specs.Stepping.{DoesClear, StepsSo, clear_error};
ghost use Rattle.retention.specs.Sweeping.{Commits, FailsFor, IsNextOrNone, IsOutside, IsSoundFor, IsSwept, IsSweptSome, PassesSome};
ghost use Rattle.retention.specs.Sweeping.{PassesStep, ReadFails, StopsSo, StopsSomeSo};
ghost use Rattle.retention.specs.Sweeps.{LacksNamed, NamesNone, sweeps, sweeps_some};

use crate::clearing::next_named;
use crate::freeing::next_free;
use crate::rule::Rule;
use crate::sweep_error::SweepError;
use crate::swept::{Swept, SweptSome};
use gate_pages::Pages;
use series_book::Edit;
use series_book::limits::{MOST_SERIES, MOST_SLOTS};
use series_store::{Store, StoreError};

/// As many slots as a book may have. Each clear takes a value.
const MOST_CLEARS: u64 = MOST_SERIES as u64 * MOST_SLOTS;

/// What an error of a clear is for a sweep.
fn clear_error(cause: StoreError) -> SweepError
    ensures { result ≡ clear_error cause }
{
    match cause {
        StoreError::Refused(_) | StoreError::NotAStore => SweepError::NoMemory,
        StoreError::DiskFault => SweepError::DiskFault,
        StoreError::Damaged { page } => SweepError::Damaged { page },
        StoreError::NoMemory => SweepError::NoMemory,
    }
}

/// The next clear of a rule; none where it makes none.
fn next_clear<P: Pages>(store: &mut Store<P>, rule: &Rule) -> Result<Option<Edit>, SweepError>
    requires sound { shown.IsSound store.old }
    ensures next { shown.ForBook store.old (λ total book. IfOk result (IsNextOrNone total book rule.now)) }
    ensures is_edit { IfOk result (λ next. IfSome next IsEdit) }
    ensures outside { shown.ForBook store.old (λ total book. IfErr result IsOutside) }
    ensures cause { IfErr result (λ e. ReadFails e store.old store.new) }
    ensures blames { IfErr result (λ e. BlamesSo (IsBadForLook (Asks rule.now)) e store.new) }
    ensures faults { CountsFault (fault_in sweep_fault result) (shown.view store.old) (shown.view store.new) }
    ensures reads { (shown.view store.new).reads ≤ (shown.view store.old).reads + look_reads }
    ensures looks { LooksOnly store.old store.new }
{
    match rule {
        Rule::Before { name, .. } => next_named(store, rule, name),
        Rule::Last { name, .. } => next_named(store, rule, name),
        Rule::Free { pages } => next_free(store, *pages),
    }
}

/// Does a clear.
fn do_clear<P: Pages>(store: &mut Store<P>, clear: &Edit) -> Result<(), SweepError>
    requires sound { shown.IsSound store.old }
    requires is_edit { IsEdit clear.now }
    ensures done { shown.ForBook store.old (DoesClear clear.now result (shown.view store.old) (shown.view store.new)) }
    ensures carries { CarriesOn store.old store.new }
    ensures commits { Commits 1 store.old store.new }
    ensures cause { IfErr result (λ e. ReadFails e store.old store.new) }
    ensures blames { IfErr result (λ e. BlamesSo IsBadForEdit e store.new) }
    ensures faults { CountsFault (fault_in sweep_fault result) (shown.view store.old) (shown.view store.new) }
    ensures reads { (shown.view store.new).reads ≤ (shown.view store.old).reads + 96 }
    ensures sound { OnOk result (shown.IsSound store.new) }
    ensures sound_for { IfErr result (λ e. IsSoundFor e (shown.view store.new)) }
{
    match store.edit(clear) {
        Ok(_) => Ok(()),
        Err(cause) => Err(clear_error(cause)),
    }
}

/// Does the next clear of a rule, if there is one, and answers whether there was.
fn clear_next<P: Pages>(store: &mut Store<P>, rule: &Rule) -> Result<bool, SweepError>
    requires sound { shown.IsSound store.old }
    ensures steps { shown.ForBook store.old (λ total book. StepsSo total book rule.now result (shown.view store.old)
        (shown.view store.new)) }
    ensures carries { CarriesOn store.old store.new }
    ensures commits { Commits 1 store.old store.new }
    ensures idle { result ≡ Ok false → Commits 0 store.old store.new }
    ensures cause { IfErr result (λ e. ReadFails e store.old store.new) }
    ensures blames { IfErr result (λ e. BlamesSo (IsBadForSweep rule.now) e store.new) }
    ensures faults { CountsFault (fault_in sweep_fault result) (shown.view store.old) (shown.view store.new) }
    ensures reads { (shown.view store.new).reads ≤ (shown.view store.old).reads + clear_reads }
    ensures sound { OnOk result (shown.IsSound store.new) }
    ensures sound_for { IfErr result (λ e. IsSoundFor e (shown.view store.new)) }
{
    let next = match next_clear(store, rule) {
        Ok(next) => next,
        Err(error) => return Err(error),
    };
    let Some(clear) = next else {
        return Ok(false);
    };
    match do_clear(store, &clear) {
        Ok(()) => Ok(true),
        Err(error) => Err(error),
    }
}

/// Does at most so many first clears of a rule whose series is there.
fn clear_some<P: Pages>(
    store: &mut Store<P>,
    rule: &Rule,
    most: u64,
) -> Result<SweptSome, SweepError>
    requires sound { shown.IsSound store.old }
    ensures known { IfErr result (λ e. e ≢ SweepError.UnknownSeries) }
    ensures done { shown.ForBook store.old (λ total book. IfOk result
        (λ swept. IsSweptSome total book rule.now most swept (shown.image store.new))) }
    ensures stops { shown.ForBook store.old (λ total book. IfErr result (StopsSomeSo total book rule.now most (shown.image store.new))) }
    ensures moments { shown.ForBook store.old (λ total book. PassesStep total book rule.now most store.old store.new) }
    ensures carries { CarriesOn store.old store.new }
    ensures commits { shown.ForBook store.old (λ total book. Commits (length (sweeps_some total book rule.now most)) store.old store.new) }
    ensures within { Commits most store.old store.new }
    ensures each { IfOk result (λ swept. Commits swept.clears store.old store.new) }
    ensures few { IfOk result (λ swept. swept.clears ≤ most) }
    ensures cause { IfErr result (λ e. FailsFor e store.old store.new) }
    ensures blames { IfErr result (λ e. BlamesSo (IsBadForSweep rule.now) e store.new) }
    ensures faults { CountsFault (fault_in sweep_fault result) (shown.view store.old) (shown.view store.new) }
    ensures reads { (shown.view store.new).reads ≤ (shown.view store.old).reads + clear_reads * (most + 1) }
    ensures few_reads { shown.ForBook store.old (λ total book. ReadsFew (length (sweeps_some total book rule.now most))
        (shown.view store.old) (shown.view store.new)) }
    ensures sound { OnOk result (shown.IsSound store.new) }
    ensures sound_for { IfErr result (λ e. IsSoundFor e (shown.view store.new)) }
{
    let mut clears = 0;
    'clearing: while clears < most {
        let more = match clear_next(store, rule) {
            Ok(more) => more,
            Err(error) => return Err(error),
        };
        if !more {
            let used = store.used();
            return Ok(SweptSome {
                clears,
                used,
                more: false,
            });
        }
        clears += 1;
    }
    let next = match next_clear(store, rule) {
        Ok(next) => next,
        Err(error) => return Err(error),
    };
    let more = next.is_some();
    let used = store.used();
    Ok(SweptSome { clears, used, more })
}

/// Whether a rule names a series that isn't there.
fn names_none<P: Pages>(store: &Store<P>, rule: &Rule) -> bool
    requires sound { shown.IsSound store.now }
    ensures none { shown.ForBook store.now (λ total book. result ≡ true → NamesNone book rule.now) }
    ensures some { shown.ForBook store.now (λ total book. NamesNone book rule.now → result ≡ true) }
    ensures lacks { result ≡ true → LacksNamed (shown.catalog store.now) rule.now }
{
    match rule {
        Rule::Before { name, .. } => store.series(name).is_none(),
        Rule::Last { name, .. } => store.series(name).is_none(),
        Rule::Free { .. } => false,
    }
}

/// A step of a sweep: does the first clears of a rule, at most so many, each in one commit, and answers how many they
/// were, how many pages are in use behind them, and whether the rule makes more. What it makes then are the later
/// clears of the same list, so that steps come to what `sweep` does (`steps_go_on`).
///
/// `UnknownSeries` comes exactly where the rule names a series that isn't there, and nothing is done then. After
/// another error the clears that were done stay. After `DiskFault` the store may be unsound, and has to be opened
/// again. Where the pages stand for a book, no page is damaged. Afterwards any series may be selected, or none.
pub fn sweep_some<P: Pages>(
    store: &mut Store<P>,
    rule: &Rule,
    most: u64,
) -> Result<SweptSome, SweepError>
    requires sound { shown.IsSound store.old }
    ensures unknown { shown.ForBook store.old (λ total book. (result ≡ Err SweepError.UnknownSeries) ↔ NamesNone book rule.now) }
    ensures untouched { result ≡ Err SweepError.UnknownSeries → store.new ≡ store.old }
    // whatever the pages are: the catalog that is kept lacks the name then
    ensures lacks { result ≡ Err SweepError.UnknownSeries → LacksNamed (shown.catalog store.old) rule.now }
    ensures done { shown.ForBook store.old (λ total book. IfOk result
        (λ swept. IsSweptSome total book rule.now most swept (shown.image store.new))) }
    ensures stops { shown.ForBook store.old (λ total book. IfErr result (StopsSomeSo total book rule.now most (shown.image store.new))) }
    // a crash at any moment leaves the book behind some first clears of the step
    ensures moments { shown.ForBook store.old (λ total book. PassesStep total book rule.now most store.old store.new) }
    ensures carries { CarriesOn store.old store.new }
    // each clear is one commit at most, whatever is answered
    ensures commits { shown.ForBook store.old (λ total book. Commits (length (sweeps_some total book rule.now most)) store.old store.new) }
    ensures within { Commits most store.old store.new }
    ensures each { IfOk result (λ swept. Commits swept.clears store.old store.new) }
    ensures few { IfOk result (λ swept. swept.clears ≤ most) }
    ensures cause { IfErr result (λ e. FailsFor e store.old store.new) }
    // a page that is called damaged is so in the series that the rule names, or in any where it frees pages, or for a clear
    ensures blames { IfErr result (λ e. BlamesSo (IsBadForSweep rule.now) e store.new) }
    // no count of faults rises but that of the disk, where the error tells of it
    ensures faults { CountsFault (fault_in sweep_fault result) (shown.view store.old) (shown.view store.new) }
    // whatever the pages are
    ensures reads { (shown.view store.new).reads ≤ (shown.view store.old).reads + clear_reads * (most + 1) }
    ensures few_reads { shown.ForBook store.old (λ total book. ReadsFew (length (sweeps_some total book rule.now most))
        (shown.view store.old) (shown.view store.new)) }
    ensures sound { OnOk result (shown.IsSound store.new) }
    ensures sound_for { IfErr result (λ e. IsSoundFor e (shown.view store.new)) }
{
    if names_none(store, rule) {
        return Err(SweepError::UnknownSeries);
    }
    clear_some(store, rule, most)
}

/// Drops old slots by a rule: does its clears, each in one commit, and answers how many they were and how many pages
/// are in use behind them. specs/Sweeps.antt says which clears a rule makes of a book. It is a step that isn't cut.
///
/// `UnknownSeries` comes exactly where the rule names a series that isn't there, and nothing is done then. After
/// another error the clears that were done stay. After `DiskFault` the store may be unsound, and has to be opened
/// again. Where the pages stand for a book, no page is damaged. Afterwards any series may be selected, or none.
pub fn sweep<P: Pages>(store: &mut Store<P>, rule: &Rule) -> Result<Swept, SweepError>
    requires sound { shown.IsSound store.old }
    ensures unknown { shown.ForBook store.old (λ total book. (result ≡ Err SweepError.UnknownSeries) ↔ NamesNone book rule.now) }
    ensures untouched { result ≡ Err SweepError.UnknownSeries → store.new ≡ store.old }
    // whatever the pages are: the catalog that is kept lacks the name then
    ensures lacks { result ≡ Err SweepError.UnknownSeries → LacksNamed (shown.catalog store.old) rule.now }
    ensures done { shown.ForBook store.old (λ total book. IfOk result
        (λ swept. IsSwept total book rule.now swept (shown.image store.new))) }
    ensures stops { shown.ForBook store.old (λ total book. IfErr result (StopsSo total book rule.now (shown.image store.new))) }
    // a crash at any moment leaves the book behind some first clears of the rule
    ensures moments { shown.ForBook store.old (λ total book. PassesSome total book rule.now store.old store.new) }
    ensures carries { CarriesOn store.old store.new }
    // each clear is one commit at most, whatever is answered
    ensures commits { shown.ForBook store.old (λ total book. Commits (length (sweeps total book rule.now)) store.old store.new) }
    ensures few_reads { shown.ForBook store.old (λ total book. ReadsFew (length (sweeps total book rule.now)) (shown.view store.old)
        (shown.view store.new)) }
    ensures each { IfOk result (λ swept. Commits swept.clears store.old store.new) }
    ensures cause { IfErr result (λ e. FailsFor e store.old store.new) }
    // a page that is called damaged is so in the series that the rule names, or in any where it frees pages, or for a clear
    ensures blames { IfErr result (λ e. BlamesSo (IsBadForSweep rule.now) e store.new) }
    // no count of faults rises but that of the disk, where the error tells of it
    ensures faults { CountsFault (fault_in sweep_fault result) (shown.view store.old) (shown.view store.new) }
    ensures sound { OnOk result (shown.IsSound store.new) }
    ensures sound_for { IfErr result (λ e. IsSoundFor e (shown.view store.new)) }
{
    match sweep_some(store, rule, MOST_CLEARS) {
        Ok(swept) => Ok(Swept {
            clears: swept.clears,
            used: u64::from(swept.used),
        }),
        Err(error) => Err(error),
    }
}
