//! The lines of an input, one after the other, into a series.
ghost use Rattle.std.specs.Prelude.{◌≡◌, ◌≢◌, ◌<◌, ◌≤◌, ◌+◌, ◌^◌, ◌++◌, ℕ, List, Option, [], None, true, false, unsigned_abs, length, IfOk};
ghost use Rattle.std.specs.Prelude.{IfErr, OnOk};
ghost use Rattle.chart_world.specs.Faults.{CountsFault, fault_in};
ghost use Rattle.run_ends.specs.Faults.{end_fault};
ghost use Rattle.series_load.specs.Runs.{Run};
ghost use Rattle.series_load.specs.Steps.{AddsReading, BlamesLine, BlamesNone, BlamesText, IsSoundFor, LineReads, SaysSo, Took, closed};
ghost use Rattle.series_load.specs.Steps.{points_with};
ghost use Rattle.series_load.specs.Shown as loads;
ghost use Rattle.series_store.specs.Shown as shown;
ghost use Rattle.run_ends.specs.declared.ending.End.TheVariants.{NoMemory};
ghost use Rattle.series_load.specs.declared.open_run.Reading.{Reading};

use crate::committing::commit_sets;
use crate::kept_sets::KeptSets;
use crate::open_run::{OpenRun, Reading};
use crate::said::{Said, said_of};
use gate_pages::Pages;
use run_ends::End;
use series_book::Name;
use series_store::Store;
use std::alloc::Global;

/// A load on its way: the series, and what was read of it.
#[derive(Drop)]
pub(crate) struct Loader {
    pub(crate) alloc: Global,
    pub(crate) name: Name,
    pub(crate) step: u32,
    pub(crate) scale: u8,
    /// The sets of the runs that have ended and aren't done.
    pub(crate) kept: KeptSets,
    /// The run that stands open.
    pub(crate) run: OpenRun,
    /// No line has come that isn't empty.
    pub(crate) first: bool,
    /// How many rows have a value.
    pub(crate) points: u64,
}

impl Loader {
    pub(crate) fn new(alloc: Global, name: &Name, step: u32, scale: u8) -> Result<Loader, End>
        ensures name { IfOk result (λ loader. loader.name ≡ name.now) }
        ensures step { IfOk result (λ loader. loader.step ≡ step) }
        ensures scale { IfOk result (λ loader. loader.scale ≡ scale) }
        ensures none { IfOk result (λ loader. loader.run.values.items ≡ []) }
        ensures sets { IfOk result (λ loader. loader.kept.sets.items ≡ []) }
        ensures ats { IfOk result (λ loader. loader.kept.ats.items ≡ []) }
        ensures first { IfOk result (λ loader. loader.first ≡ true) }
        ensures points { IfOk result (λ loader. loader.points ≡ 0) }
        ensures err { IfErr result (λ e. e ≡ NoMemory) }
    {
        let Ok(name) = name.copy() else {
            return Err(End::NoMemory);
        };
        Ok(Loader {
            alloc,
            name,
            step,
            scale,
            kept: KeptSets::new(alloc)?,
            run: OpenRun::new(alloc)?,
            first: true,
            points: 0,
        })
    }

    /// The run that stands open ends, if there is one: its set is kept.
    fn close(&mut self) -> Result<(), End>
        ensures keeps { (waiting : List Run) (open_run : Option Run) → loads.KeepsSo self.old waiting open_run
            → OnOk result (loads.KeepsSo self.new (waiting ++ closed open_run) None) }
        ensures none { OnOk result (self.new.run.values.items ≡ []) }
        ensures edits { loads.KeepsEdits self.old → loads.KeepsEdits self.new }
        ensures err { IfErr result (λ e. e ≡ NoMemory) }
        ensures name { self.new.name ≡ self.old.name }
        ensures step { self.new.step ≡ self.old.step }
        ensures scale { self.new.scale ≡ self.old.scale }
        ensures first { self.new.first ≡ self.old.first }
        ensures points { self.new.points ≡ self.old.points }
    {
        if self.run.values.is_empty() {
            return Ok(());
        }
        let set = self.run.to_set(self.alloc, &self.name)?;
        self.kept.push(self.run.at, set)?;
        self.run.values.clear();
        Ok(())
    }

    /// Does the sets that are kept.
    pub(crate) fn commit<P: Pages>(&mut self, store: &mut Store<P>) -> Result<(), End>
        requires sound { shown.IsSound store.old }
        requires edits { loads.KeepsEdits self.old }
        ensures does { loads.ForRuns store.old self.old
            (λ total book waiting open_run. loads.DoesRuns total self.old.name book waiting result store.old store.new) }
        ensures keeps { (waiting : List Run) (open_run : Option Run) → loads.KeepsSo self.old waiting open_run
            → OnOk result (loads.KeepsSo self.new [] open_run) }
        ensures carries { loads.CarriesOn store.old store.new }
        ensures cause { IfErr result (λ e. loads.FailsFor e store.old store.new) }
        ensures blames { IfErr result (λ e. BlamesNone e) }
        ensures faults { CountsFault (fault_in end_fault result) (shown.view store.old) (shown.view store.new) }
        ensures sound { OnOk result (shown.IsSound store.new) }
        ensures sound_for { IfErr result (λ e. IsSoundFor e (shown.view store.new)) }
        ensures edits { loads.KeepsEdits self.new }
        ensures name { self.new.name ≡ self.old.name }
        ensures step { self.new.step ≡ self.old.step }
        ensures scale { self.new.scale ≡ self.old.scale }
        ensures first { self.new.first ≡ self.old.first }
        ensures points { self.new.points ≡ self.old.points }
        ensures run { self.new.run ≡ self.old.run }
    {
        commit_sets(store, self.kept.sets.as_slice(), self.kept.ats.as_slice())?;
        self.kept.clear();
        Ok(())
    }

    /// Does the sets that are kept, and that of the run that stands open, if there is one.
    pub(crate) fn end<P: Pages>(&mut self, store: &mut Store<P>) -> Result<(), End>
        requires sound { shown.IsSound store.old }
        requires edits { loads.KeepsEdits self.old }
        ensures does { loads.ForRuns store.old self.old
            (λ total book waiting open_run. loads.DoesRuns total self.old.name book
            (waiting ++ closed open_run) result store.old store.new) }
        ensures keeps { (waiting : List Run) (open_run : Option Run) → loads.KeepsSo self.old waiting open_run
            → OnOk result (loads.KeepsSo self.new [] None) }
        ensures carries { loads.CarriesOn store.old store.new }
        ensures cause { IfErr result (λ e. loads.FailsFor e store.old store.new) }
        ensures blames { IfErr result (λ e. BlamesNone e) }
        ensures faults { CountsFault (fault_in end_fault result) (shown.view store.old) (shown.view store.new) }
        ensures sound { OnOk result (shown.IsSound store.new) }
        ensures sound_for { IfErr result (λ e. IsSoundFor e (shown.view store.new)) }
        ensures edits { loads.KeepsEdits self.new }
        ensures name { self.new.name ≡ self.old.name }
        ensures step { self.new.step ≡ self.old.step }
        ensures scale { self.new.scale ≡ self.old.scale }
        ensures first { self.new.first ≡ self.old.first }
        ensures points { self.new.points ≡ self.old.points }
    {
        self.close()?;
        self.commit(store)
    }

    /// Ends the load at a bad line: the sets of the runs before it are done first.
    pub(crate) fn stop<P: Pages>(&mut self, store: &mut Store<P>, at: u32) -> End
        requires sound { shown.IsSound store.old }
        requires edits { loads.KeepsEdits self.old }
        ensures does { loads.ForRuns store.old self.old
            (λ total book waiting open_run. loads.StopsAt at total self.old.name book
            (waiting ++ closed open_run) result store.old store.new) }
        ensures carries { loads.CarriesOn store.old store.new }
        ensures cause { loads.FailsFor result store.old store.new }
        ensures blames { BlamesLine at result }
        ensures faults { CountsFault (end_fault result) (shown.view store.old) (shown.view store.new) }
        ensures sound_for { IsSoundFor result (shown.view store.new) }
        ensures edits { loads.KeepsEdits self.new }
        ensures name { self.new.name ≡ self.old.name }
        ensures step { self.new.step ≡ self.old.step }
        ensures scale { self.new.scale ≡ self.old.scale }
        ensures points { self.new.points ≡ self.old.points }
    {
        match self.end(store) {
            Ok(()) => End::BadInput { at: u64::from(at) },
            Err(end) => end,
        }
    }

    /// Takes a reading: it goes on with the run that stands open, or ends it. A run with 256 readings ends.
    fn take_reading(&mut self, at: u32, next: &Reading) -> Result<(), End>
        requires near { unsigned_abs next.now.time < 10 ^ 19 }
        ensures does { (waiting : List Run) (open_run : Option Run) → loads.KeepsSo self.old waiting open_run
            → OnOk result (Took (AddsReading self.old.step at next.now open_run) self.old.name waiting self.new.kept self.new.run) }
        ensures edits { loads.KeepsEdits self.old → loads.KeepsEdits self.new }
        ensures err { IfErr result (λ e. e ≡ NoMemory) }
        ensures name { self.new.name ≡ self.old.name }
        ensures step { self.new.step ≡ self.old.step }
        ensures scale { self.new.scale ≡ self.old.scale }
        ensures first { self.new.first ≡ self.old.first }
        ensures points { self.new.points ≡ self.old.points }
    {
        if !self.run.is_followed_by(next, self.step) {
            self.close()?;
            return self.run.begin(at, next);
        }
        self.run.push(next)?;
        if self.run.is_full() {
            return self.close();
        }
        Ok(())
    }

    /// Takes what a line says that isn't empty and isn't bad.
    fn take_said(&mut self, at: u32, said: Said) -> Result<(), End>
        requires few { self.old.points < 2 ^ 63 }
        requires near { (reading : Reading) → said ≡ Said.Point reading → unsigned_abs reading.time < 10 ^ 19 }
        requires good { said ≢ Said.Bad }
        ensures does { (waiting : List Run) (open_run : Option Run) (text : List ℕ) → loads.KeepsSo self.old waiting open_run
            → 0 < length text → SaysSo self.old.scale self.old.first text said
            → OnOk result (loads.TookLine at text waiting open_run self.old self.new) }
        ensures edits { loads.KeepsEdits self.old → loads.KeepsEdits self.new }
        ensures err { IfErr result (λ e. e ≡ NoMemory) }
        ensures name { self.new.name ≡ self.old.name }
        ensures step { self.new.step ≡ self.old.step }
        ensures scale { self.new.scale ≡ self.old.scale }
        ensures first { self.new.first ≡ false }
        ensures more { self.new.points ≤ self.old.points + 1 }
        ensures counts { self.new.points ≡ points_with self.old.points said }
    {
        match said {
            Said::Header => {
                self.first = false;
                Ok(())
            }
            Said::Point(reading) => {
                self.first = false;
                self.points += 1;
                self.take_reading(at, &reading)
            }
            Said::Gap => {
                self.first = false;
                self.close()
            }
            Said::Bad => unreachable!(),
        }
    }

    /// Takes a line of at most 8,192 bytes. An empty one is passed over. Where as many sets are kept as may be, they are done.
    pub(crate) fn take_line<P: Pages>(
        &mut self,
        store: &mut Store<P>,
        at: u32,
        line: &[u8],
    ) -> Result<(), End>
        requires sound { shown.IsSound store.old }
        requires edits { loads.KeepsEdits self.old }
        requires few { self.old.points < 2 ^ 63 }
        ensures does { loads.ForRuns store.old self.old
            (λ total book waiting open_run. loads.TakesLine at line.now total book waiting open_run result self.old self.new store.old
            store.new) }
        // whatever the pages are
        ensures reads { OnOk result (LineReads self.old.scale self.old.first self.old.points line.now self.new.first self.new.points) }
        ensures blames { IfErr result (λ e. BlamesText self.old.scale at self.old.first line.now e) }
        ensures carries { loads.CarriesOn store.old store.new }
        ensures cause { IfErr result (λ e. loads.FailsFor e store.old store.new) }
        ensures faults { CountsFault (fault_in end_fault result) (shown.view store.old) (shown.view store.new) }
        ensures sound { OnOk result (shown.IsSound store.new) }
        ensures sound_for { IfErr result (λ e. IsSoundFor e (shown.view store.new)) }
        ensures edits { loads.KeepsEdits self.new }
        ensures name { self.new.name ≡ self.old.name }
        ensures step { self.new.step ≡ self.old.step }
        ensures scale { self.new.scale ≡ self.old.scale }
        ensures more { self.new.points ≤ self.old.points + 1 }
    {
        if line.is_empty() {
            return Ok(());
        }
        let said = said_of(self.alloc, line, self.scale, self.first)?;
        if said.is_bad() {
            return Err(self.stop(store, at));
        }
        self.take_said(at, said)?;
        if self.kept.is_full() {
            return self.commit(store);
        }
        Ok(())
    }
}
