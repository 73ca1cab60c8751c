//! A whole input into a series.
ghost use Rattle.std.specs.Prelude.{◌≡◌, ◌≢◌, ◌≤◌, ◌<◌, ◌^◌, ◌↔◌, [], None, Err, true, length, IfOk, IfErr, IfSome, OnOk};
ghost use Rattle.chart_world.specs.Faults.{CountsFault, fault_in};
ghost use Rattle.chart_world.specs.Reading.{IsReadUp, unread_input};
ghost use Rattle.series_book.specs.Edits.{id_of};
ghost use Rattle.run_ends.specs.Faults.{end_fault};
ghost use Rattle.series_load.specs.Ends.{EndsAtBad, EndsAtBadOf, IsRead, OfScale};
ghost use Rattle.series_load.specs.Sides.{Goes};
ghost use Rattle.series_load.specs.Shown as loads;
ghost use Rattle.series_store.specs.Asking.{LacksName};
ghost use Rattle.series_store.specs.Shown as shown;
ghost use Rattle.series_load.specs.Steps.{IsSoundFor};
ghost use Rattle.run_ends.specs.declared.ending.End.TheVariants.{InputTooLong, UnknownSeries, NoMemory};

use crate::loader::Loader;
use chart_world::Lines;
use gate_pages::PageWorld;
use line_runs::{run_lines, stop_end};
use run_ends::End;
use series_book::Name;
use series_store::Store;
use std::alloc::Global;

/// A reader of lines.
fn new_lines(alloc: Global) -> Result<Lines, End>
    ensures lines { IfOk result (λ lines. lines ≡ unread_input) }
    ensures err { IfErr result (λ e. e ≡ NoMemory) }
{
    let Ok(lines) = Lines::new(alloc) else {
        return Err(End::NoMemory);
    };
    Ok(lines)
}

/// Stores the readings of the input, CSV lines, in the series of this name, and answers how many rows have a
/// value. Each longest run of at most 256 readings whose times follow each other by the series' step is
/// one set. The sets of runs that have ended are done together, as many in one commit as its pages allow, at
/// the latest before the next take of the input. A header may be the first line that isn't empty; empty
/// lines are passed over; a row without a value ends a run and leaves its slot alone.
///
/// After `Ok` the input was read to its end. The sets of the runs that ended before a bad line, or before a
/// refused set, stay. After a fault of the input a run that hadn't ended isn't stored. It sends nothing.
pub fn load<P: PageWorld>(alloc: Global, store: &mut Store<P>, name: &Name) -> Result<u64, End>
    requires sound { shown.IsSound store.old }
    // the name is looked up first, and nothing is taken where no series has it
    ensures unknown { shown.ForBook store.old (λ total book. (result ≡ Err UnknownSeries) ↔ (id_of name.now book ≡ None)) }
    ensures untouched { result ≡ Err UnknownSeries → store.new ≡ store.old }
    // whatever the pages are: the catalog that was read lacks the name then
    ensures lacks { result ≡ Err UnknownSeries → LacksName (shown.catalog store.old) name.now }
    // what was read and stored, at the end and at each moment
    ensures outcome { loads.ForNamed store.old name.now
        (λ total book series. loads.LoadsSo P.Streams name.now total book series result store.old store.new) }
    // whatever the pages are: a line that is told is the first bad one, by the scale that the catalog says
    ensures line { IfErr result (λ e. IfSome (P.left (shown.pages store.old))
        (λ input. EndsAtBadOf (shown.catalog store.old) name.now input e)) }
    // and at the end no line is bad, and so many rows have a reading
    ensures read { IfOk result (λ count. IfSome (P.left (shown.pages store.old))
        (λ input. OfScale (shown.catalog store.old) name.now (λ scale. IsRead scale input count))) }
    ensures within { OnOk result (IfSome (P.left (shown.pages store.old)) (λ input. length input ≤ 2 ^ 32)) }
    ensures whole { OnOk result (IsReadUp (P.left (shown.pages store.old)) (P.left (shown.pages store.new))) }
    ensures long { result ≡ Err InputTooLong → IfSome (P.left (shown.pages store.old)) (λ input. 2 ^ 32 < length input) }
    ensures goes { Goes (loads.side_of P.Streams store.old) (loads.side_of P.Streams store.new) }
    ensures cause { IfErr result (λ e. loads.EndsFor P.Streams e store.old store.new) }
    // no count of faults rises but that of the call that the error tells
    ensures faults { CountsFault (fault_in end_fault result) (shown.view store.old) (shown.view store.new) }
    ensures sound { OnOk result (shown.IsSound store.new) }
    ensures sound_for { IfErr result (λ e. IsSoundFor e (shown.view store.new)) }
{
    let Some(found) = store.series(name) else {
        return Err(End::UnknownSeries);
    };
    let info = store.info(found.id);
    let mut loader = Loader::new(alloc, name, info.step, info.scale)?;
    let mut lines = new_lines(alloc)?;
    load_lines(store, &mut loader, &mut lines)
}

/// Loads all lines.
fn load_lines<P: PageWorld>(
    store: &mut Store<P>,
    loader: &mut Loader,
    lines: &mut Lines,
) -> Result<u64, End>
    requires sound { shown.IsSound store.old }
    requires fresh { lines.old ≡ unread_input }
    requires none { loader.old.run.values.items ≡ [] }
    requires sets { loader.old.kept.sets.items ≡ [] }
    requires ats { loader.old.kept.ats.items ≡ [] }
    requires first { loader.old.first ≡ true }
    requires points { loader.old.points ≡ 0 }
    ensures known { result ≢ Err UnknownSeries }
    ensures outcome { loads.ForLoaded store.old loader.old
        (λ total book series. loads.LoadsSo P.Streams loader.old.name total book series result store.old store.new) }
    ensures line { IfErr result (λ e. IfSome (P.left (shown.pages store.old)) (λ input. EndsAtBad loader.old.scale input e)) }
    ensures read { IfOk result (λ count. IfSome (P.left (shown.pages store.old)) (λ input. IsRead loader.old.scale input count)) }
    ensures within { OnOk result (IfSome (P.left (shown.pages store.old)) (λ input. length input ≤ 2 ^ 32)) }
    ensures whole { OnOk result (IsReadUp (P.left (shown.pages store.old)) (P.left (shown.pages store.new))) }
    ensures long { result ≡ Err InputTooLong → IfSome (P.left (shown.pages store.old)) (λ input. 2 ^ 32 < length input) }
    ensures goes { Goes (loads.side_of P.Streams store.old) (loads.side_of P.Streams store.new) }
    ensures cause { IfErr result (λ e. loads.EndsFor P.Streams e store.old store.new) }
    ensures faults { CountsFault (fault_in end_fault result) (shown.view store.old) (shown.view store.new) }
    ensures sound { OnOk result (shown.IsSound store.new) }
    ensures sound_for { IfErr result (λ e. IsSoundFor e (shown.view store.new)) }
{
    match run_lines(loader, store, lines) {
        Ok(()) => Ok(loader.points),
        Err(stop) => Err(stop_end(stop)),
    }
}
