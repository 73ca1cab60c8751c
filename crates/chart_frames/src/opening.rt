// A frame up to its items: the length, the kind, and the fields of the kind.
ghost use Rattle.std.specs.Prelude.{◌≡◌, ◌≢◌, ◌+◌, ◌*◌, ◌++◌, ℕ, Ok, Err, IsTrue, IfOk, IfErr};
ghost use Rattle.chart_frames.specs.Format.{Format, stop, number_bytes};
ghost use Rattle.chart_frames.specs.Reading.{Reads, read};
ghost use Rattle.chart_frames.specs.Fields.{is_view_length, is_length, admits, names_first, names_second, session_fields, done_fields};
ghost use Rattle.chart_frames.specs.Fields.{refused_fields, opened_fields, live_fields, swept_fields, place_fields, source_fields};
ghost use Rattle.chart_frames.specs.Fields.{view_fields, head_fields, kind_fields, length_field, kind_field, frame_fields};
ghost use Rattle.chart_frames.specs.Frames.{Fits, FitsPlace, FitsSource, FitsViewHead, FitsRowsHead};
ghost use Rattle.chart_frames.specs.Spelled.{framed, frame_before, view_before, rows_before, two_before, signed_bytes};
ghost use Rattle.chart_frames.specs.Items.{Fails};
ghost use Rattle.chart_frames.specs.Places.{Opens};

use crate::admitting::{admits, is_length};
use crate::catalog_reading::{any_word_at, catalog_at};
use crate::fields::{Stop, byte_at, long_at, short_at, word_at};
use crate::frame::{Frame, RowsFrame, ViewFrame};
use crate::heads::{
    Axis, Stored, axis_at, count_at, flag_at, range_at, row_count_at, series_at, session_at,
    sides_at, stored_at, window_at,
};
use crate::item_stop::ItemStop;
use crate::limits::{MOST_CLEARS, MOST_COEFS, MOST_SLOTS};
use crate::reports::Report;
use crate::values_reading::values_at;
use m4_groups::Rows;
use om3_coeff::Coefs;
use series_book::refusal_numbers::{
    BAD_FILTER, BAD_LINE, FULL, LIVE_TOO_LARGE, SUM_TOO_LARGE, VIEW_TOO_LARGE,
};
use std::alloc::Global;

/// What stands at the front of a stream.
pub enum Opening {
    /// A frame without items, or a report.
    Whole(Frame),
    /// A view without its coefficients.
    View(ViewFrame),
    /// Rows without the rows.
    Rows(RowsFrame),
}

#[tactic(auto, unfolding(crate::specs::Fields::length_field))]
fn length_at(bytes: &[u8]) -> Result<(u32, &[u8]), Stop>
    ensures reads { (next : ℕ → Format) → Reads result (read (length_field next) bytes.now) (λ x. read (next x.0) x.1.now) }
    ensures takes { IfOk result (λ x. IsTrue (is_length x.0) × (bytes.now ≡ number_bytes 4 x.0 ++ x.1.now)) }
{
    let (length, rest) = word_at(bytes)?;
    if !is_length(length) {
        return Err(Stop::Bad(bytes.len()));
    }
    Ok((length, rest))
}

#[tactic(auto, unfolding(crate::specs::Fields::kind_field))]
fn kind_at(length: u32, bytes: &[u8]) -> Result<(u8, &[u8]), Stop>
    ensures reads { (next : ℕ → Format) → Reads result (read (kind_field length next) bytes.now) (λ x. read (next x.0) x.1.now) }
    ensures takes { IfOk result (λ x. IsTrue (admits length x.0) × (bytes.now ≡ number_bytes 1 x.0 ++ x.1.now)) }
{
    let (kind, rest) = byte_at(bytes)?;
    if !admits(length, kind) {
        return Err(Stop::Bad(bytes.len()));
    }
    Ok((kind, rest))
}

#[tactic(auto, unfolding(crate::specs::Fields::done_fields))]
fn done_at(bytes: &[u8]) -> Result<(Frame, &[u8]), Stop>
    ensures reads { Reads result (read done_fields bytes.now) (λ x. Ok x.1.now) }
    ensures takes { IfOk result (λ x. Fits x.0 × (framed 9 1 bytes.now ≡ frame_before x.0 x.1.now)) }
{
    let (slots, rest) = long_at(bytes)?;
    if slots > MOST_SLOTS {
        return Err(Stop::Bad(bytes.len()));
    }
    Ok((Frame::Done { slots }, rest))
}

fn names_second(number: u8) -> bool
    ensures { result ≡ names_second number }
{
    number == VIEW_TOO_LARGE || number == FULL || number == LIVE_TOO_LARGE
}

fn names_first(number: u8) -> bool
    ensures { result ≡ names_first number }
{
    let second = names_second(number);
    number == BAD_LINE || number == BAD_FILTER || second
}

#[tactic(auto, unfolding(crate::specs::Fields::refused_fields))]
fn refused_at(bytes: &[u8]) -> Result<(Frame, &[u8]), Stop>
    ensures reads { Reads result (read refused_fields bytes.now) (λ x. Ok x.1.now) }
    ensures takes { IfOk result (λ x. Fits x.0 × (framed 18 2 bytes.now ≡ frame_before x.0 x.1.now)) }
{
    let (number, rest) = byte_at(bytes)?;
    if number == 0 || number > SUM_TOO_LARGE {
        return Err(Stop::Bad(bytes.len()));
    }
    let (a, after) = long_at(rest)?;
    if !names_first(number) && a != 0 {
        return Err(Stop::Bad(rest.len()));
    }
    let (b, end) = long_at(after)?;
    if !names_second(number) && b != 0 {
        return Err(Stop::Bad(after.len()));
    }
    Ok((Frame::Refused { number, a, b }, end))
}

#[tactic(auto, unfolding(crate::specs::Fields::opened_fields))]
fn opened_at(bytes: &[u8]) -> Result<(Frame, &[u8]), Stop>
    ensures reads { Reads result (read opened_fields bytes.now) (λ x. Ok x.1.now) }
    ensures takes { IfOk result (λ x. Fits x.0 × (framed 9 3 bytes.now ≡ frame_before x.0 x.1.now)) }
{
    let (session, rest) = session_at(bytes)?;
    let (cache, after) = word_at(rest)?;
    if cache == 0 || cache > MOST_COEFS {
        return Err(Stop::Bad(rest.len()));
    }
    Ok((Frame::Opened { session, cache }, after))
}

fn closed_at(bytes: &[u8]) -> Result<(Frame, &[u8]), Stop>
    ensures reads { Reads result (read (session_fields stop) bytes.now) (λ x. Ok x.1.now) }
    ensures takes { IfOk result (λ x. Fits x.0 × (framed 5 4 bytes.now ≡ frame_before x.0 x.1.now)) }
{
    let (session, rest) = session_at(bytes)?;
    Ok((Frame::Closed { session }, rest))
}

#[tactic(auto, unfolding(crate::specs::Fields::live_fields))]
fn live_at(bytes: &[u8]) -> Result<(Frame, &[u8]), Stop>
    ensures reads { Reads result (read live_fields bytes.now) (λ x. Ok x.1.now) }
    ensures takes { IfOk result (λ x. Fits x.0 × (framed 6 7 bytes.now ≡ frame_before x.0 x.1.now)) }
{
    let (session, rest) = session_at(bytes)?;
    let (on, after) = flag_at(rest)?;
    Ok((Frame::Live { session, on }, after))
}

#[tactic(auto, unfolding(crate::specs::Fields::swept_fields))]
fn swept_at(bytes: &[u8]) -> Result<(Frame, &[u8]), Stop>
    ensures reads { Reads result (read swept_fields bytes.now) (λ x. Ok x.1.now) }
    ensures takes { IfOk result (λ x. Fits x.0 × (framed 8 10 bytes.now ≡ frame_before x.0 x.1.now)) }
{
    let (clears, rest) = short_at(bytes)?;
    if clears > MOST_CLEARS {
        return Err(Stop::Bad(bytes.len()));
    }
    let (used, rest) = any_word_at(rest)?;
    let (more, rest) = flag_at(rest)?;
    Ok((Frame::Report(Report::Swept { clears, used, more }), rest))
}

/// Where a view is shown.
#[derive(Clone, Copy)]
pub struct Shown {
    session: u32,
    series: u16,
    w: u16,
    h: u16,
    t0: i64,
    t1: i64,
}

#[tactic(auto, unfolding(crate::specs::Fields::place_fields))]
fn shown_at(bytes: &[u8]) -> Result<(Shown, &[u8]), Stop>
    ensures reads { (next : Format) → Reads result (read (place_fields next) bytes.now) (λ x. read next x.1.now) }
    ensures fits { IfOk result (λ x. FitsPlace x.0.session x.0.series x.0.w x.0.h x.0.t0 x.0.t1) }
    ensures takes { IfOk result (λ x. bytes.now ≡ number_bytes 4 x.0.session ++ (number_bytes 2 x.0.series
        ++ (number_bytes 2 x.0.w ++ (number_bytes 2 x.0.h ++ two_before x.0.t0 x.0.t1 x.1.now)))) }
{
    let (session, rest) = session_at(bytes)?;
    let (series, rest) = series_at(rest)?;
    let ((w, h), rest) = sides_at(rest)?;
    let ((t0, t1), rest) = window_at(rest)?;
    let shown = Shown {
        session,
        series,
        w,
        h,
        t0,
        t1,
    };
    Ok((shown, rest))
}

/// What is shown of a view.
#[derive(Clone, Copy)]
pub struct Source {
    lo: i64,
    hi: i64,
    axis: Axis,
    stored: Stored,
    count: u32,
}

#[tactic(auto, unfolding(crate::specs::Fields::source_fields))]
fn source_at(length: u32, bytes: &[u8]) -> Result<(Source, &[u8]), Stop>
    ensures reads { (next : ℕ → ℕ → Format) → Reads result (read (source_fields length next) bytes.now)
        (λ x. read (next x.0.axis.slots x.0.count) x.1.now) }
    ensures fits { IfOk result (λ x. FitsSource x.0.lo x.0.hi x.0.axis.start x.0.axis.step x.0.axis.slots x.0.stored.has x.0.stored.rmin
        x.0.stored.rmax × (84 + 25 * x.0.count ≡ length)) }
    ensures takes { IfOk result (λ x. bytes.now ≡ two_before x.0.lo x.0.hi (signed_bytes x.0.axis.start ++ (number_bytes 4 x.0.axis.step
        ++ (number_bytes 8 x.0.axis.slots ++ (number_bytes 1 x.0.stored.has
        ++ two_before x.0.stored.rmin x.0.stored.rmax (number_bytes 4 x.0.count ++ x.1.now)))))) }
{
    let ((lo, hi), rest) = range_at(bytes)?;
    let (axis, rest) = axis_at(rest)?;
    let (stored, rest) = stored_at(axis.slots, rest)?;
    let (count, rest) = count_at(length, rest)?;
    let source = Source {
        lo,
        hi,
        axis,
        stored,
        count,
    };
    Ok((source, rest))
}

#[tactic(auto, unfolding(crate::specs::Fields::view_fields, crate::specs::Spelled::place_before, crate::specs::Spelled::source_before))]
fn view_at(alloc: Global, length: u32, bytes: &[u8]) -> Result<(ViewFrame, &[u8]), Stop>
    requires { IsTrue (is_view_length length) }
    ensures reads { (next : ℕ → ℕ → Format) → Reads result (read (view_fields length next) bytes.now)
        (λ x. read (next x.0.slots x.0.count) x.1.now) }
    ensures fits { IfOk result (λ x. FitsViewHead x.0) }
    ensures length { IfOk result (λ x. 84 + 25 * x.0.count ≡ length) }
    ensures takes { IfOk result (λ x. bytes.now ≡ view_before x.0 x.1.now) }
{
    let (shown, rest) = shown_at(bytes)?;
    let (source, rest) = source_at(length, rest)?;
    let view = ViewFrame {
        session: shown.session,
        series: shown.series,
        w: shown.w,
        h: shown.h,
        t0: shown.t0,
        t1: shown.t1,
        lo: source.lo,
        hi: source.hi,
        start: source.axis.start,
        step: source.axis.step,
        slots: source.axis.slots,
        has: source.stored.has,
        rmin: source.stored.rmin,
        rmax: source.stored.rmax,
        count: source.count,
        coefs: Coefs::from_vec(Vec::new(alloc)),
    };
    Ok((view, rest))
}

#[tactic(auto, unfolding(crate::specs::Fields::head_fields, crate::specs::Spelled::rows_before))]
fn rows_at(alloc: Global, length: u32, bytes: &[u8]) -> Result<(RowsFrame, &[u8]), Stop>
    ensures reads { (next : ℕ → ℕ → Format) → Reads result (read (head_fields length next) bytes.now)
        (λ x. read (next x.0.w x.0.count) x.1.now) }
    ensures fits { IfOk result (λ x. FitsRowsHead x.0) }
    ensures length { IfOk result (λ x. 27 + 34 * x.0.count ≡ length) }
    ensures takes { IfOk result (λ x. bytes.now ≡ rows_before x.0 x.1.now) }
{
    let (session, rest) = session_at(bytes)?;
    let ((w, h), rest) = sides_at(rest)?;
    let ((lo, hi), rest) = range_at(rest)?;
    let (count, rest) = row_count_at(length, w, rest)?;
    let rows = RowsFrame {
        session,
        w,
        h,
        lo,
        hi,
        count,
        rows: Rows::from_vec(Vec::new(alloc)),
    };
    Ok((rows, rest))
}

// The fields of a frame without items.
#[tactic(auto, unfolding(crate::specs::Fields::kind_fields))]
fn short_frame_at(length: u32, kind: u8, bytes: &[u8]) -> Result<(Frame, &[u8]), Stop>
    requires admitted { IsTrue (admits length kind) }
    requires no_coefs { kind ≢ 5 }
    requires no_rows { kind ≢ 6 }
    requires no_series { kind ≢ 8 }
    requires no_values { kind ≢ 9 }
    ensures ok { IfOk result (λ x. Fits x.0 × (framed length kind bytes.now ≡ frame_before x.0 x.1.now)) }
    ensures err { IfErr result (λ e. read (kind_fields length kind) bytes.now ≡ Err e) }
{
    match kind {
        1 => done_at(bytes),
        2 => refused_at(bytes),
        3 => opened_at(bytes),
        4 => closed_at(bytes),
        7 => live_at(bytes),
        _ => swept_at(bytes),
    }
}

#[tactic(auto, unfolding(crate::specs::Fields::kind_fields))]
fn kind_fields_at(
    alloc: Global,
    length: u32,
    kind: u8,
    bytes: &[u8],
) -> Result<(Opening, &[u8]), ItemStop>
    requires { IsTrue (admits length kind) }
    ensures ok { IfOk result (λ x. Opens (framed length kind bytes.now) x.0 x.1.now) }
    ensures err { IfErr result (λ e. Fails e (read (kind_fields length kind) bytes.now)) }
{
    match kind {
        5 => match view_at(alloc, length, bytes) {
            Ok((view, rest)) => Ok((Opening::View(view), rest)),
            Err(stop) => Err(ItemStop::Stop(stop)),
        },
        6 => match rows_at(alloc, length, bytes) {
            Ok((rows, rest)) => Ok((Opening::Rows(rows), rest)),
            Err(stop) => Err(ItemStop::Stop(stop)),
        },
        8 => match catalog_at(alloc, length, bytes) {
            Ok((frame, rest)) => Ok((Opening::Whole(frame), rest)),
            Err(stop) => Err(stop),
        },
        9 => match values_at(alloc, length, bytes) {
            Ok((frame, rest)) => Ok((Opening::Whole(frame), rest)),
            Err(stop) => Err(stop),
        },
        _ => match short_frame_at(length, kind, bytes) {
            Ok((frame, rest)) => Ok((Opening::Whole(frame), rest)),
            Err(stop) => Err(ItemStop::Stop(stop)),
        },
    }
}

#[tactic(auto, unfolding(crate::specs::Fields::frame_fields))]
fn kind_start_at(bytes: &[u8]) -> Result<((u32, u8), &[u8]), Stop>
    ensures reads { Reads result (read frame_fields bytes.now) (λ x. read (kind_fields x.0.0 x.0.1) x.1.now) }
    ensures takes { IfOk result (λ x. IsTrue (admits x.0.0 x.0.1) × (bytes.now ≡ framed x.0.0 x.0.1 x.1.now)) }
{
    let (length, rest) = length_at(bytes)?;
    let (kind, rest) = kind_at(length, rest)?;
    Ok(((length, kind), rest))
}

/// The frame at the front, up to its items; a report as a whole.
pub fn opening_at(alloc: Global, bytes: &[u8]) -> Result<(Opening, &[u8]), ItemStop>
    ensures ok { IfOk result (λ x. Opens bytes.now x.0 x.1.now) }
    ensures err { IfErr result (λ e. Fails e (read frame_fields bytes.now)) }
{
    match kind_start_at(bytes) {
        Ok(((length, kind), rest)) => kind_fields_at(alloc, length, kind, rest),
        Err(stop) => Err(ItemStop::Stop(stop)),
    }
}
