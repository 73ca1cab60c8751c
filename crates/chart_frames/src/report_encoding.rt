// The bytes of reports.
ghost use Rattle.std.specs.Prelude.{◌≡◌, ◌≤◌, ◌+◌, ◌*◌, ◌++◌, ℕ, List, length, replicate, IsTrue, OnOk, All};
ghost use Rattle.series_book.specs.Names.{is_name};
ghost use Rattle.whole_number.specs.Range.{IsValue};
ghost use Rattle.chart_frames.specs.Format.{number_bytes};
ghost use Rattle.chart_frames.specs.Frames.{number_of_flag, FitsCatalog, FitsValues, FitsReport};
ghost use Rattle.chart_frames.specs.Spelled.{framed, name_before, facts_before, listed_before, series_before, catalog_before, run_before};
ghost use Rattle.chart_frames.specs.Spelled.{runs_before, values_before, asked_before, counts_before, report_before};

use crate::encoding::{
    number_of_flag, put_byte, put_long, put_short, put_signed, put_start, put_two, put_word,
};
use crate::limits::NAME_BYTES;
use crate::reports::{CatalogFrame, ListedSeries, Report, Run, ValuesFrame};
use std::alloc::AllocError;

// So many bytes of 0.
fn put_blank(out: &mut Vec<u8>, count: usize) -> Result<(), AllocError>
    requires { count ≤ 31 }
    ensures { OnOk result (out.new.items ≡ out.old.items ++ replicate count 0) }
{
    let blank = [0; NAME_BYTES];
    out.extend_from_slice(&blank[..count])
}

// A name's length, the name, and 0 up to 31 bytes.
fn put_name(out: &mut Vec<u8>, name: &[u8]) -> Result<(), AllocError>
    requires { IsTrue (is_name name.now) }
    ensures { OnOk result ((tail : List ℕ) → out.new.items ++ tail ≡ out.old.items ++ name_before name.now tail) }
{
    put_byte(out, name.len() as u8)?;
    out.extend_from_slice(name)?;
    put_blank(out, NAME_BYTES - name.len())
}

// What a catalog says of a series behind its name.
#[tactic(auto, unfolding(crate::specs::Spelled::facts_before))]
fn put_facts(out: &mut Vec<u8>, s: &ListedSeries) -> Result<(), AllocError>
    ensures { OnOk result ((tail : List ℕ) → out.new.items ++ tail ≡ out.old.items ++ facts_before s.now.scale s.now.start s.now.step
        s.now.slots s.now.has s.now.rmin s.now.rmax tail) }
{
    put_byte(out, s.scale)?;
    put_signed(out, s.start)?;
    put_word(out, s.step)?;
    put_long(out, s.slots)?;
    put_byte(out, s.has)?;
    put_two(out, s.rmin, s.rmax)
}

fn put_listed(out: &mut Vec<u8>, s: &ListedSeries) -> Result<(), AllocError>
    ensures { OnOk result ((tail : List ℕ) → out.new.items ++ tail ≡ out.old.items ++ listed_before s.now tail) }
{
    put_name(out, s.name.as_slice())?;
    put_facts(out, s)
}

fn put_series(out: &mut Vec<u8>, series: &[ListedSeries]) -> Result<(), AllocError>
    ensures { OnOk result ((tail : List ℕ) → out.new.items ++ tail ≡ out.old.items ++ series_before series.now tail) }
{
    for s in series {
        put_listed(out, s)?;
    }
    Ok(())
}

// The pages, and the number of series.
#[tactic(auto, unfolding(crate::specs::Spelled::catalog_before))]
fn put_pages(out: &mut Vec<u8>, total: u32, used: u32, count: u16) -> Result<(), AllocError>
    ensures { OnOk result ((tail : List ℕ) → out.new.items ++ tail ≡ out.old.items ++ catalog_before total used count tail) }
{
    put_word(out, total)?;
    put_word(out, used)?;
    put_short(out, count)
}

fn put_counted(out: &mut Vec<u8>, c: &CatalogFrame, count: u16) -> Result<(), AllocError>
    requires { count ≤ 512 }
    ensures { OnOk result ((tail : List ℕ) → out.new.items ++ tail ≡ out.old.items ++ framed (11 + 70 * count) 8
        (catalog_before c.now.total c.now.used count (series_before c.now.series tail))) }
{
    put_start(out, 11 + 70 * count as u32, 8)?;
    put_pages(out, c.total, c.used, count)?;
    put_series(out, c.series.as_slice())
}

fn put_catalog(out: &mut Vec<u8>, c: &CatalogFrame) -> Result<(), AllocError>
    requires { FitsCatalog c.now }
    ensures { OnOk result ((tail : List ℕ) → out.new.items ++ tail
        ≡ out.old.items ++ framed (11 + 70 * length c.now.series) 8
        (catalog_before c.now.total c.now.used (length c.now.series) (series_before c.now.series tail))) }
{
    let count = c.series.as_slice().len() as u16;
    put_counted(out, c, count)
}

#[tactic(auto, unfolding(crate::specs::Spelled::run_before))]
fn put_run(out: &mut Vec<u8>, run: &Run) -> Result<(), AllocError>
    ensures { OnOk result ((tail : List ℕ) → out.new.items ++ tail ≡ out.old.items ++ run_before run.now tail) }
{
    put_long(out, run.first)?;
    put_long(out, run.count)
}

fn put_runs(out: &mut Vec<u8>, runs: &[Run]) -> Result<(), AllocError>
    ensures { OnOk result ((tail : List ℕ) → out.new.items ++ tail ≡ out.old.items ++ runs_before runs.now tail) }
{
    for run in runs {
        put_run(out, run)?;
    }
    Ok(())
}

fn put_values(out: &mut Vec<u8>, values: &[i64]) -> Result<(), AllocError>
    requires { All IsValue values.now }
    ensures { OnOk result ((tail : List ℕ) → out.new.items ++ tail ≡ out.old.items ++ values_before values.now tail) }
{
    for value in values {
        put_signed(out, *value)?;
    }
    Ok(())
}

// The series, and where more values are.
#[tactic(auto, unfolding(crate::specs::Spelled::asked_before))]
fn put_asked(out: &mut Vec<u8>, v: &ValuesFrame) -> Result<(), AllocError>
    ensures { OnOk result ((tail : List ℕ) → out.new.items ++ tail ≡ out.old.items ++ asked_before v.now.series
        (number_of_flag v.now.more) v.now.next tail) }
{
    put_short(out, v.series)?;
    put_byte(out, number_of_flag(v.more))?;
    put_signed(out, v.next)
}

#[tactic(auto, unfolding(crate::specs::Spelled::counts_before))]
fn put_counts(out: &mut Vec<u8>, runs: u16, values: u16) -> Result<(), AllocError>
    ensures { OnOk result ((tail : List ℕ) → out.new.items ++ tail ≡ out.old.items ++ counts_before runs values tail) }
{
    put_short(out, runs)?;
    put_short(out, values)
}

fn put_both(out: &mut Vec<u8>, v: &ValuesFrame, runs: u16, values: u16) -> Result<(), AllocError>
    requires runs { runs ≤ 4096 }
    requires values { values ≤ 4096 }
    requires fits { All IsValue v.now.values }
    ensures { OnOk result ((tail : List ℕ) → out.new.items ++ tail ≡ out.old.items ++ framed (16 + (16 * runs + 8 * values)) 9
        (asked_before v.now.series (number_of_flag v.now.more) v.now.next
        (counts_before runs values (runs_before v.now.runs (values_before v.now.values tail))))) }
{
    put_start(out, 16 + (16 * runs as u32 + 8 * values as u32), 9)?;
    put_asked(out, v)?;
    put_counts(out, runs, values)?;
    put_runs(out, v.runs.as_slice())?;
    put_values(out, v.values.as_slice())
}

fn put_stored(out: &mut Vec<u8>, v: &ValuesFrame) -> Result<(), AllocError>
    requires { FitsValues v.now }
    ensures { OnOk result ((tail : List ℕ) → out.new.items ++ tail ≡ out.old.items ++ framed
        (16 + (16 * length v.now.runs + 8 * length v.now.values)) 9
        (asked_before v.now.series (number_of_flag v.now.more) v.now.next
        (counts_before (length v.now.runs) (length v.now.values) (runs_before v.now.runs (values_before v.now.values tail))))) }
{
    let runs = v.runs.as_slice().len() as u16;
    let values = v.values.as_slice().len() as u16;
    put_both(out, v, runs, values)
}

fn put_swept(out: &mut Vec<u8>, clears: u16, used: u32, more: bool) -> Result<(), AllocError>
    ensures { OnOk result ((tail : List ℕ) → out.new.items ++ tail ≡ out.old.items ++ framed 8 10
        (number_bytes 2 clears ++ (number_bytes 4 used ++ (number_bytes 1 (number_of_flag more) ++ tail)))) }
{
    put_start(out, 8, 10)?;
    put_short(out, clears)?;
    put_word(out, used)?;
    put_byte(out, number_of_flag(more))
}

/// The bytes of a report, from its length on.
pub(crate) fn put_report(out: &mut Vec<u8>, report: &Report) -> Result<(), AllocError>
    requires { FitsReport report.now }
    ensures { OnOk result ((tail : List ℕ) → out.new.items ++ tail ≡ out.old.items ++ report_before report.now tail) }
{
    match report {
        Report::Catalog(catalog) => put_catalog(out, catalog),
        Report::Values(values) => put_stored(out, values),
        Report::Swept { clears, used, more } => put_swept(out, *clears, *used, *more),
    }
}
