// The fields of a frame of stored values.
ghost use Rattle.std.specs.Prelude.{◌≡◌, ◌==◌, ◌<◌, ◌≤◌, ◌+◌, ◌-◌, ◌*◌, ◌++◌, [], ℕ, pos, suc, length, All, IsTrue, IfOk, IfErr};
ghost use Rattle.whole_number.specs.Range.{IsTime, IsValue};
ghost use Rattle.chart_frames.specs.declared.limits.TheConstants.{MOST_SLOTS};
ghost use Rattle.chart_frames.specs.declared.reports.Run.{Run};
ghost use Rattle.chart_frames.specs.Format.{Format, number_bytes};
ghost use Rattle.chart_frames.specs.Reading.{Reads, read};
ghost use Rattle.chart_frames.specs.Fields.{lesser, takes_of, value_field, more_field, next_time_field, are_counts, counts_fields};
ghost use Rattle.chart_frames.specs.Fields.{asked_fields, run_fields, runs_fields, values_list, stored_values, values_fields};
ghost use Rattle.chart_frames.specs.Frames.{Fits, FitsRun, FitRuns};
ghost use Rattle.chart_frames.specs.Spelled.{signed_bytes, framed, asked_before, counts_before, run_before, runs_before, values_before};
ghost use Rattle.chart_frames.specs.Spelled.{frame_before};
ghost use Rattle.chart_frames.specs.Items.{Fails};
ghost use Rattle.chart_frames.specs.ReportParts.{values_frame, room_behind, runs_in, PushesRun, PushesValue};

use crate::fields::{Stop, byte_at, long_at, short_at, signed_at};
use crate::frame::Frame;
use crate::heads::{is_time, series_at};
use crate::item_stop::ItemStop;
use crate::limits::{
    MOST_SLOTS, MOST_VALUES, RUN_BYTES, SLOTS_OF_VALUES, VALUE_BYTES, VALUES_LENGTH,
};
use crate::report_lists::{RunList, ValueList};
use crate::reports::{Report, Run, ValuesFrame};
use crate::rows::value_at;
use std::alloc::Global;

#[tactic(auto, unfolding(crate::specs::Fields::more_field))]
fn more_at(bytes: &[u8]) -> Result<(u8, &[u8]), Stop>
    ensures reads { (next : ℕ → Format) → Reads result (read (more_field next) bytes.now) (λ x. read (next x.0) x.1.now) }
    ensures takes { IfOk result (λ x. (x.0 ≤ 1) × (bytes.now ≡ number_bytes 1 x.0 ++ x.1.now)) }
{
    let (more, rest) = byte_at(bytes)?;
    if more > 1 {
        return Err(Stop::Bad(bytes.len()));
    }
    Ok((more, rest))
}

#[tactic(auto, unfolding(crate::specs::Fields::next_time_field))]
fn next_time_at(more: u8, bytes: &[u8]) -> Result<(i64, &[u8]), Stop>
    ensures reads { (next : Format) → Reads result (read (next_time_field more next) bytes.now) (λ x. read next x.1.now) }
    ensures takes { IfOk result (λ x. IsTime x.0 × (more ≡ 0 → x.0 ≡ pos 0) × (bytes.now ≡ signed_bytes x.0 ++ x.1.now)) }
{
    let (next, rest) = signed_at(bytes)?;
    if !is_time(next) || (more != 1 && next.unsigned_abs() != 0) {
        return Err(Stop::Bad(bytes.len()));
    }
    Ok((next, rest))
}

fn are_counts(length: u32, runs: u16, values: u16) -> bool
    ensures { result ≡ are_counts length runs values }
{
    VALUES_LENGTH + (RUN_BYTES * runs as u32 + VALUE_BYTES * values as u32) == length
        && values <= MOST_VALUES
        && runs <= values
        && (values == 0 || runs >= 1)
}

// The numbers of runs and of values.
#[tactic(auto, unfolding(crate::specs::Fields::counts_fields))]
fn counts_at(length: u32, bytes: &[u8]) -> Result<((u16, u16), &[u8]), Stop>
    ensures reads { (next : ℕ → ℕ → Format) → Reads result (read (counts_fields length next) bytes.now)
        (λ x. read (next x.0.0 x.0.1) x.1.now) }
    ensures takes { IfOk result (λ x. IsTrue (are_counts length x.0.0 x.0.1)
        × (bytes.now ≡ number_bytes 2 x.0.0 ++ (number_bytes 2 x.0.1 ++ x.1.now))) }
{
    let (runs, rest) = short_at(bytes)?;
    let (values, after) = short_at(rest)?;
    if !are_counts(length, runs, values) {
        return Err(Stop::Bad(rest.len()));
    }
    Ok(((runs, values), after))
}

/// What stands before the runs.
#[derive(Clone, Copy)]
pub struct ValuesHead {
    series: u16,
    more: u8,
    next: i64,
    runs: u16,
    values: u16,
}

#[tactic(auto, unfolding(crate::specs::Fields::asked_fields, crate::specs::Fields::next_fields, crate::specs::Spelled::asked_before, crate::specs::Spelled::counts_before))]
fn head_at(length: u32, bytes: &[u8]) -> Result<(ValuesHead, &[u8]), Stop>
    ensures reads { (next : ℕ → ℕ → Format) → Reads result (read (asked_fields length next) bytes.now)
        (λ x. read (next x.0.runs x.0.values) x.1.now) }
    ensures known { IfOk result (λ x. (x.0.series < 512) × (x.0.more ≤ 1)) }
    ensures next { IfOk result (λ x. IsTime x.0.next × (x.0.more ≡ 0 → x.0.next ≡ pos 0)) }
    ensures counts { IfOk result (λ x. IsTrue (are_counts length x.0.runs x.0.values)) }
    ensures takes { IfOk result (λ x. bytes.now ≡ asked_before x.0.series x.0.more x.0.next (counts_before x.0.runs x.0.values x.1.now)) }
{
    let (series, rest) = series_at(bytes)?;
    let (more, rest) = more_at(rest)?;
    let (next, rest) = next_time_at(more, rest)?;
    let ((runs, values), rest) = counts_at(length, rest)?;
    Ok((
        ValuesHead {
            series,
            more,
            next,
            runs,
            values,
        },
        rest,
    ))
}

fn lesser(a: u64, b: u64) -> u64
    ensures { result ≡ lesser a b }
{
    if a <= b { a } else { b }
}

fn takes_of(behind: u16, left: u64, many: u64) -> bool
    ensures { result ≡ takes_of behind left many }
{
    if many == 0 {
        return false;
    }
    if behind == 0 {
        many == left
    } else {
        many < left
    }
}

/// Where the next run may begin and must have ended, and how many values are left.
#[derive(Clone, Copy)]
pub struct Room {
    pub from: u64,
    pub limit: u64,
    pub left: u64,
}

// A run before so many others.
#[tactic(auto, unfolding(crate::specs::Fields::run_fields, crate::specs::Spelled::run_before))]
fn run_at(room: Room, behind: u16, bytes: &[u8]) -> Result<(Run, &[u8]), Stop>
    requires few { room.left ≤ 4096 }
    ensures reads { (next : ℕ → ℕ → Format) → Reads result (read (run_fields room.from room.limit room.left behind next) bytes.now)
        (λ x. read (next x.0.first x.0.count) x.1.now) }
    ensures fits { IfOk result (λ x. FitsRun room.from room.limit room.left x.0) }
    ensures all { IfOk result (λ x. behind ≡ 0 → x.0.count ≡ room.left) }
    ensures takes { IfOk result (λ x. bytes.now ≡ run_before x.0 x.1.now) }
{
    let (first, rest) = long_at(bytes)?;
    if first < room.from || first >= room.limit {
        return Err(Stop::Bad(bytes.len()));
    }
    let (count, after) = long_at(rest)?;
    if !takes_of(behind, room.left, count) || count > room.limit - first {
        return Err(Stop::Bad(rest.len()));
    }
    Ok((Run { first, count }, after))
}

// Where the next run may stand behind this one.
fn room_behind(room: Room, run: Run) -> Room
    requires fits { FitsRun room.from room.limit room.left run }
    requires slots { room.limit ≤ MOST_SLOTS }
    ensures { result ≡ room_behind room run }
{
    Room {
        from: run.first + run.count + 1,
        limit: lesser(room.limit, run.first + SLOTS_OF_VALUES),
        left: room.left - run.count,
    }
}

// Reads one more, before so many others.
fn push_run<'a>(
    runs: &mut Vec<Run>,
    room: Room,
    behind: u16,
    bytes: &'a [u8],
) -> Result<(Room, &'a [u8]), ItemStop>
    requires slots { room.limit ≤ MOST_SLOTS }
    requires few { room.left ≤ 4096 }
    ensures ok { IfOk result (λ x. PushesRun room behind runs.old.items runs.new.items bytes.now x.0 x.1.now) }
    ensures err { IfErr result (λ e. (next : Format) → Fails e (read (runs_in room (suc behind) next) bytes.now)) }
{
    match run_at(room, behind, bytes) {
        Ok((run, rest)) => match runs.push(run) {
            Ok(()) => Ok((room_behind(room, run), rest)),
            Err(_) => Err(ItemStop::NoMemory),
        },
        Err(stop) => Err(ItemStop::Stop(stop)),
    }
}

// Reads so many runs over so many values.
fn fill_runs<'a>(
    runs: &mut Vec<Run>,
    count: u16,
    values: u16,
    bytes: &'a [u8],
) -> Result<&'a [u8], ItemStop>
    requires empty { runs.old.items ≡ [] }
    requires few { values ≤ 4096 }
    requires none { count ≡ 0 → values ≡ 0 }
    ensures fits { IfOk result (λ rest. FitRuns 0 MOST_SLOTS values runs.new.items × (length runs.new.items ≡ count)) }
    ensures takes { IfOk result (λ rest. bytes.now ≡ runs_before runs.new.items rest.now) }
    ensures on { IfOk result (λ rest. (next : Format) → read (runs_fields 0 MOST_SLOTS values count next) bytes.now ≡ read next rest.now) }
    ensures err { IfErr result (λ e. (next : Format) → Fails e (read (runs_fields 0 MOST_SLOTS values count next) bytes.now)) }
{
    let mut room = Room {
        from: 0,
        limit: MOST_SLOTS,
        left: values as u64,
    };
    let mut rest = bytes;
    for k in 0..count {
        match push_run(runs, room, count - k - 1, rest) {
            Ok((after, tail)) => {
                room = after;
                rest = tail;
            }
            Err(stop) => return Err(stop),
        }
    }
    Ok(rest)
}

// Reads one more. The bytes that follow it.
fn push_value<'a>(values: &mut Vec<i64>, bytes: &'a [u8]) -> Result<&'a [u8], ItemStop>
    ensures ok { IfOk result (λ rest. PushesValue values.old.items values.new.items bytes.now rest.now) }
    ensures err { IfErr result (λ e. (next : Format) → Fails e (read (value_field (λ v. next)) bytes.now)) }
{
    match value_at(bytes) {
        Ok((value, rest)) => match values.push(value) {
            Ok(()) => Ok(rest),
            Err(_) => Err(ItemStop::NoMemory),
        },
        Err(stop) => Err(ItemStop::Stop(stop)),
    }
}

// Reads so many values.
fn fill_values<'a>(values: &mut Vec<i64>, count: u16, bytes: &'a [u8]) -> Result<&'a [u8], ItemStop>
    requires { values.old.items ≡ [] }
    ensures ok { IfOk result (λ rest. (length values.new.items ≡ count) × All IsValue values.new.items
        × (bytes.now ≡ values_before values.new.items rest.now)) }
    ensures err { IfErr result (λ e. Fails e (read (values_list count) bytes.now)) }
{
    let mut rest = bytes;
    for _ in 0..count {
        match push_value(values, rest) {
            Ok(after) => rest = after,
            Err(stop) => return Err(stop),
        }
    }
    Ok(rest)
}

// Reads the runs, and then the values in them.
#[tactic(auto, unfolding(crate::specs::Fields::stored_values))]
fn fill_both<'a>(
    runs: &mut Vec<Run>,
    values: &mut Vec<i64>,
    head: ValuesHead,
    bytes: &'a [u8],
) -> Result<&'a [u8], ItemStop>
    requires empty { (runs.old.items ≡ []) × (values.old.items ≡ []) }
    requires few { head.values ≤ 4096 }
    requires none { head.runs ≡ 0 → head.values ≡ 0 }
    ensures fits { IfOk result (λ rest. FitRuns 0 MOST_SLOTS head.values runs.new.items × All IsValue values.new.items) }
    ensures counts { IfOk result (λ rest. (length runs.new.items ≡ head.runs) × (length values.new.items ≡ head.values)) }
    ensures takes { IfOk result (λ rest. bytes.now ≡ runs_before runs.new.items (values_before values.new.items rest.now)) }
    ensures err { IfErr result (λ e. Fails e (read (stored_values head.runs head.values) bytes.now)) }
{
    match fill_runs(runs, head.runs, head.values, bytes) {
        Ok(rest) => fill_values(values, head.values, rest),
        Err(stop) => Err(stop),
    }
}

fn values_of(head: ValuesHead, runs: Vec<Run>, values: Vec<i64>) -> Frame
    ensures { result ≡ values_frame head.series (head.more == 1) head.next runs.items values.items }
{
    Frame::Report(Report::Values(ValuesFrame {
        series: head.series,
        more: head.more == 1,
        next: head.next,
        runs: RunList::from_vec(runs),
        values: ValueList::from_vec(values),
    }))
}

/// Stored values, behind the kind.
#[tactic(auto, unfolding(crate::specs::Fields::values_fields))]
pub(crate) fn values_at(
    alloc: Global,
    length: u32,
    bytes: &[u8],
) -> Result<(Frame, &[u8]), ItemStop>
    ensures ok { IfOk result (λ x. Fits x.0 × (framed length 9 bytes.now ≡ frame_before x.0 x.1.now)) }
    ensures err { IfErr result (λ e. Fails e (read (values_fields length) bytes.now)) }
{
    match head_at(length, bytes) {
        Ok((head, rest)) => {
            let mut runs = Vec::new(alloc);
            let mut values = Vec::new(alloc);
            match fill_both(&mut runs, &mut values, head, rest) {
                Ok(after) => Ok((values_of(head, runs, values), after)),
                Err(stop) => Err(stop),
            }
        }
        Err(stop) => Err(ItemStop::Stop(stop)),
    }
}
