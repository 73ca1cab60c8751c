ghost use Rattle.std.specs.Prelude.{◌≡◌, ◌<◌, ◌+◌, ◌*◌, ◌^◌, ◌++◌, ℕ, List, length, IfOk, OnOk, All};
ghost use Rattle.om3_coeff.specs.declared.key.Key.{Key};
ghost use Rattle.om3_coeff.specs.declared.coef.Coef.{Coef};
ghost use Rattle.chart_frames.specs.Format.{number_bytes};
ghost use Rattle.chart_frames.specs.Frames.{Fits, FitsView, spelling, flags_of, number_of_flag};
ghost use Rattle.chart_frames.specs.Spelled.{signed_bytes, two_before, place_before, source_before, view_before, coef_before, coefs_before};
ghost use Rattle.chart_frames.specs.Spelled.{row_before, rows_before, rows_all_before, framed, frame_before};

use crate::frame::{Frame, RowsFrame, ViewFrame};
use crate::report_encoding::put_report;
use m4_groups::Row;
use om3_coeff::{Coef, Key};
use std::alloc::{AllocError, Global};

#[tactic(auto, unfolding(crate::specs::Format::number_bytes))]
pub(crate) fn put_byte(out: &mut Vec<u8>, n: u8) -> Result<(), AllocError>
    ensures { OnOk result (out.new.items ≡ out.old.items ++ number_bytes 1 n) }
{
    out.extend_from_slice(&[n])
}

#[tactic(auto, unfolding(crate::specs::Format::number_bytes))]
pub(crate) fn put_short(out: &mut Vec<u8>, n: u16) -> Result<(), AllocError>
    ensures { OnOk result (out.new.items ≡ out.old.items ++ number_bytes 2 n) }
{
    out.extend_from_slice(&n.to_be_bytes())
}

#[tactic(auto, unfolding(crate::specs::Format::number_bytes))]
pub(crate) fn put_word(out: &mut Vec<u8>, n: u32) -> Result<(), AllocError>
    ensures { OnOk result (out.new.items ≡ out.old.items ++ number_bytes 4 n) }
{
    out.extend_from_slice(&n.to_be_bytes())
}

#[tactic(auto, unfolding(crate::specs::Format::number_bytes))]
pub(crate) fn put_long(out: &mut Vec<u8>, n: u64) -> Result<(), AllocError>
    ensures { OnOk result (out.new.items ≡ out.old.items ++ number_bytes 8 n) }
{
    out.extend_from_slice(&n.to_be_bytes())
}

pub(crate) fn put_signed(out: &mut Vec<u8>, n: i64) -> Result<(), AllocError>
    ensures { OnOk result (out.new.items ≡ out.old.items ++ signed_bytes n) }
{
    put_long(out, n.cast_unsigned())
}

// The length and the kind.
pub(crate) fn put_start(out: &mut Vec<u8>, length: u32, kind: u8) -> Result<(), AllocError>
    ensures { OnOk result ((tail : List ℕ) → out.new.items ++ tail ≡ out.old.items ++ framed length kind tail) }
{
    put_word(out, length)?;
    put_byte(out, kind)
}

pub(crate) fn put_two(out: &mut Vec<u8>, low: i64, high: i64) -> Result<(), AllocError>
    ensures { OnOk result ((tail : List ℕ) → out.new.items ++ tail ≡ out.old.items ++ two_before low high tail) }
{
    put_signed(out, low)?;
    put_signed(out, high)
}

// Session, series, canvas and window.
#[tactic(auto, unfolding(crate::specs::Spelled::place_before))]
fn put_place(out: &mut Vec<u8>, v: &ViewFrame) -> Result<(), AllocError>
    ensures { OnOk result ((tail : List ℕ) → out.new.items ++ tail ≡ out.old.items ++ place_before v.now tail) }
{
    put_word(out, v.session)?;
    put_short(out, v.series)?;
    put_short(out, v.w)?;
    put_short(out, v.h)?;
    put_two(out, v.t0, v.t1)
}

// The range, the slots and the values of the series, and the number of coefficients.
#[tactic(auto, unfolding(crate::specs::Spelled::source_before))]
fn put_source(out: &mut Vec<u8>, v: &ViewFrame) -> Result<(), AllocError>
    ensures { OnOk result ((tail : List ℕ) → out.new.items ++ tail ≡ out.old.items ++ source_before v.now tail) }
{
    put_two(out, v.lo, v.hi)?;
    put_signed(out, v.start)?;
    put_word(out, v.step)?;
    put_long(out, v.slots)?;
    put_byte(out, v.has)?;
    put_two(out, v.rmin, v.rmax)?;
    put_word(out, v.count)
}

fn flags_of(coef: Coef) -> u8
    ensures { result ≡ flags_of coef }
{
    let left = if coef.left { 1 } else { 0 };
    let right = if coef.right { 2 } else { 0 };
    left + right
}

#[tactic(auto, unfolding(crate::specs::Spelled::coef_before))]
fn put_coef(out: &mut Vec<u8>, key: Key, coef: Coef) -> Result<(), AllocError>
    requires { key.index < 2 ^ 40 }
    ensures { OnOk result ((tail : List ℕ) → out.new.items ++ tail ≡ out.old.items ++ coef_before (key, coef) tail) }
{
    put_long(out, key.number())?;
    put_byte(out, flags_of(coef))?;
    put_two(out, coef.dmin, coef.dmax)
}

fn put_coefs(out: &mut Vec<u8>, coefs: &[(Key, Coef)]) -> Result<(), AllocError>
    requires { All (λ e. e.0.index < 2 ^ 40) coefs.now }
    ensures { OnOk result ((tail : List ℕ) → out.new.items ++ tail ≡ out.old.items ++ coefs_before coefs.now tail) }
{
    for pair in coefs {
        put_coef(out, pair.0, pair.1)?;
    }
    Ok(())
}

fn put_view(out: &mut Vec<u8>, v: &ViewFrame) -> Result<(), AllocError>
    requires { FitsView v.now }
    ensures { OnOk result ((tail : List ℕ) → out.new.items ++ tail ≡ out.old.items ++ framed (84 + 25 * v.now.count) 5
        (view_before v.now (coefs_before v.now.coefs tail))) }
{
    put_start(out, 84 + 25 * v.count, 5)?;
    put_place(out, v)?;
    put_source(out, v)?;
    put_coefs(out, v.coefs.as_slice())
}

#[tactic(auto, unfolding(crate::specs::Spelled::row_before))]
fn put_row(out: &mut Vec<u8>, row: &Row) -> Result<(), AllocError>
    ensures { OnOk result ((tail : List ℕ) → out.new.items ++ tail ≡ out.old.items ++ row_before row.now tail) }
{
    put_short(out, row.column)?;
    put_two(out, row.first, row.least)?;
    put_two(out, row.greatest, row.last)
}

fn put_all_rows(out: &mut Vec<u8>, rows: &[Row]) -> Result<(), AllocError>
    ensures { OnOk result ((tail : List ℕ) → out.new.items ++ tail ≡ out.old.items ++ rows_all_before rows.now tail) }
{
    for row in rows {
        put_row(out, row)?;
    }
    Ok(())
}

#[tactic(auto, unfolding(crate::specs::Spelled::rows_before))]
fn put_rows_head(out: &mut Vec<u8>, r: &RowsFrame) -> Result<(), AllocError>
    ensures { OnOk result ((tail : List ℕ) → out.new.items ++ tail ≡ out.old.items ++ rows_before r.now tail) }
{
    put_word(out, r.session)?;
    put_short(out, r.w)?;
    put_short(out, r.h)?;
    put_two(out, r.lo, r.hi)?;
    put_short(out, r.count)
}

fn put_rows(out: &mut Vec<u8>, r: &RowsFrame) -> Result<(), AllocError>
    ensures { OnOk result ((tail : List ℕ) → out.new.items ++ tail ≡ out.old.items ++ framed (27 + 34 * r.now.count) 6
        (rows_before r.now (rows_all_before r.now.rows tail))) }
{
    put_start(out, 27 + 34 * r.count as u32, 6)?;
    put_rows_head(out, r)?;
    put_all_rows(out, r.rows.as_slice())
}

fn put_done(out: &mut Vec<u8>, slots: u64) -> Result<(), AllocError>
    ensures { OnOk result ((tail : List ℕ) → out.new.items ++ tail ≡ out.old.items ++ framed 9 1 (number_bytes 8 slots ++ tail)) }
{
    put_start(out, 9, 1)?;
    put_long(out, slots)
}

fn put_refused(out: &mut Vec<u8>, number: u8, a: u64, b: u64) -> Result<(), AllocError>
    ensures { OnOk result ((tail : List ℕ) → out.new.items ++ tail ≡ out.old.items ++ framed 18 2
        (number_bytes 1 number ++ (number_bytes 8 a ++ (number_bytes 8 b ++ tail)))) }
{
    put_start(out, 18, 2)?;
    put_byte(out, number)?;
    put_long(out, a)?;
    put_long(out, b)
}

fn put_opened(out: &mut Vec<u8>, session: u32, cache: u32) -> Result<(), AllocError>
    ensures { OnOk result ((tail : List ℕ) → out.new.items ++ tail ≡ out.old.items ++ framed 9 3
        (number_bytes 4 session ++ (number_bytes 4 cache ++ tail))) }
{
    put_start(out, 9, 3)?;
    put_word(out, session)?;
    put_word(out, cache)
}

fn put_closed(out: &mut Vec<u8>, session: u32) -> Result<(), AllocError>
    ensures { OnOk result ((tail : List ℕ) → out.new.items ++ tail ≡ out.old.items ++ framed 5 4 (number_bytes 4 session ++ tail)) }
{
    put_start(out, 5, 4)?;
    put_word(out, session)
}

fn put_live(out: &mut Vec<u8>, session: u32, on: bool) -> Result<(), AllocError>
    ensures { OnOk result ((tail : List ℕ) → out.new.items ++ tail ≡ out.old.items ++ framed 6 7
        (number_bytes 4 session ++ (number_bytes 1 (number_of_flag on) ++ tail))) }
{
    put_start(out, 6, 7)?;
    put_word(out, session)?;
    put_byte(out, number_of_flag(on))
}

pub(crate) fn number_of_flag(on: bool) -> u8
    ensures { result ≡ number_of_flag on }
{
    if on { 1 } else { 0 }
}

fn put_frame(out: &mut Vec<u8>, frame: &Frame) -> Result<(), AllocError>
    requires { Fits frame.now }
    ensures { OnOk result ((tail : List ℕ) → out.new.items ++ tail ≡ out.old.items ++ frame_before frame.now tail) }
{
    match frame {
        Frame::Done { slots } => put_done(out, *slots),
        Frame::Refused { number, a, b } => put_refused(out, *number, *a, *b),
        Frame::Opened { session, cache } => put_opened(out, *session, *cache),
        Frame::Closed { session } => put_closed(out, *session),
        Frame::View(view) => put_view(out, view),
        Frame::Rows(rows) => put_rows(out, rows),
        Frame::Live { session, on } => put_live(out, *session, *on),
        Frame::Report(report) => put_report(out, report),
    }
}

/// The bytes of a frame whose fields meet their rules: its one spelling. A reader of a stream of such
/// bytes finds each frame again, whatever follows it. The one error is want of memory.
pub fn encode(alloc: Global, frame: &Frame) -> Result<Vec<u8>, AllocError>
    requires { Fits frame.now }
    ensures { IfOk result (λ bytes. bytes.items ≡ spelling frame.now) }
{
    let mut out = Vec::new(alloc);
    match put_frame(&mut out, frame) {
        Ok(()) => Ok(out),
        Err(_) => Err(AllocError),
    }
}
