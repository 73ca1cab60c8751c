// The fields that stand before the items of a frame, in groups.
ghost use Rattle.std.specs.Prelude.{◌≡◌, ◌<◌, ◌≤◌, ◌≤ℤ◌, ◌+◌, ◌*◌, ◌++◌, ◌↔◌, ℕ, ℤ, pos, IsTrue, IfOk};
ghost use Rattle.whole_number.specs.Range.{IsValue, IsTime};
ghost use Rattle.chart_frames.specs.Format.{Format, number_bytes};
ghost use Rattle.chart_frames.specs.Reading.{Reads, read};
ghost use Rattle.chart_frames.specs.Fields.{session_fields, series_fields, side_field, side_fields, window_fields, range_fields};
ghost use Rattle.chart_frames.specs.Fields.{slots_field, axis_fields, has_field, rmin_field, rmax_field, stored_fields, count_fields};
ghost use Rattle.chart_frames.specs.Fields.{row_count_fields, flag_fields};
ghost use Rattle.chart_frames.specs.Frames.{IsSession, IsSide, IsWindow, IsRange, IsAxis, IsStored, number_of_flag};
ghost use Rattle.whole_number.specs.SlotTimes.{EndsInTime};
ghost use Rattle.chart_frames.specs.declared.limits.TheConstants.{MOST_SLOTS};
ghost use Rattle.chart_frames.specs.Spelled.{signed_bytes, two_before};

use crate::fields::{Stop, byte_at, long_at, short_at, signed_at, word_at};
use crate::limits::{GREATEST_STEP, MOST_PIXELS, MOST_SLOTS, SERIES_END};
use whole_number::limits::{GREATEST_TIME, GREATEST_VALUE};
use whole_number::slot_times::ends_in_time;

/// Whether this is a value that a series can hold: at most 10^18 in size.
pub fn is_value(v: i64) -> bool
    ensures { IsTrue result ↔ IsValue v }
{
    v.unsigned_abs() <= GREATEST_VALUE
}

/// Whether this may be an end of a window: at most 2 * 10^18 in size.
pub fn is_time(t: i64) -> bool
    ensures { IsTrue result ↔ IsTime t }
{
    t.unsigned_abs() <= GREATEST_TIME
}

#[tactic(auto, unfolding(crate::specs::Fields::session_fields))]
pub fn session_at(bytes: &[u8]) -> Result<(u32, &[u8]), Stop>
    ensures reads { (next : Format) → Reads result (read (session_fields next) bytes.now) (λ x. read next x.1.now) }
    ensures takes { IfOk result (λ x. IsSession x.0 × (bytes.now ≡ number_bytes 4 x.0 ++ x.1.now)) }
{
    let (session, rest) = word_at(bytes)?;
    if session == 0 {
        return Err(Stop::Bad(bytes.len()));
    }
    Ok((session, rest))
}

/// A number that is 1 or 0.
#[tactic(auto, unfolding(crate::specs::Fields::flag_fields))]
pub fn flag_at(bytes: &[u8]) -> Result<(bool, &[u8]), Stop>
    ensures reads { (next : Format) → Reads result (read (flag_fields next) bytes.now) (λ x. read next x.1.now) }
    ensures takes { IfOk result (λ x. bytes.now ≡ number_bytes 1 (number_of_flag x.0) ++ x.1.now) }
{
    let (flag, rest) = byte_at(bytes)?;
    match flag {
        0 => Ok((false, rest)),
        1 => Ok((true, rest)),
        _ => Err(Stop::Bad(bytes.len())),
    }
}

#[tactic(auto, unfolding(crate::specs::Fields::series_fields))]
pub fn series_at(bytes: &[u8]) -> Result<(u16, &[u8]), Stop>
    ensures reads { (next : Format) → Reads result (read (series_fields next) bytes.now) (λ x. read next x.1.now) }
    ensures takes { IfOk result (λ x. (x.0 < 512) × (bytes.now ≡ number_bytes 2 x.0 ++ x.1.now)) }
{
    let (series, rest) = short_at(bytes)?;
    if series >= SERIES_END {
        return Err(Stop::Bad(bytes.len()));
    }
    Ok((series, rest))
}

#[tactic(auto, unfolding(crate::specs::Fields::side_field))]
fn side_at(bytes: &[u8]) -> Result<(u16, &[u8]), Stop>
    ensures reads { (next : ℕ → Format) → Reads result (read (side_field next) bytes.now) (λ x. read (next x.0) x.1.now) }
    ensures takes { IfOk result (λ x. IsSide x.0 × (bytes.now ≡ number_bytes 2 x.0 ++ x.1.now)) }
{
    let (side, rest) = short_at(bytes)?;
    if side == 0 || side > MOST_PIXELS {
        return Err(Stop::Bad(bytes.len()));
    }
    Ok((side, rest))
}

// The width and the height.
#[tactic(auto, unfolding(crate::specs::Fields::side_fields))]
pub fn sides_at(bytes: &[u8]) -> Result<((u16, u16), &[u8]), Stop>
    ensures reads { (next : ℕ → Format) → Reads result (read (side_fields next) bytes.now) (λ x. read (next x.0.0) x.1.now) }
    ensures takes { IfOk result (λ x. IsSide x.0.0 × IsSide x.0.1
        × (bytes.now ≡ number_bytes 2 x.0.0 ++ (number_bytes 2 x.0.1 ++ x.1.now))) }
{
    let (w, rest) = side_at(bytes)?;
    let (h, rest) = side_at(rest)?;
    Ok(((w, h), rest))
}

// The two ends of a window.
#[tactic(auto, unfolding(crate::specs::Fields::window_fields))]
pub fn window_at(bytes: &[u8]) -> Result<((i64, i64), &[u8]), Stop>
    ensures reads { (next : Format) → Reads result (read (window_fields next) bytes.now) (λ x. read next x.1.now) }
    ensures takes { IfOk result (λ x. IsWindow x.0.0 x.0.1 × (bytes.now ≡ two_before x.0.0 x.0.1 x.1.now)) }
{
    let (t0, rest) = signed_at(bytes)?;
    if !is_time(t0) {
        return Err(Stop::Bad(bytes.len()));
    }
    let (t1, after) = signed_at(rest)?;
    if !is_time(t1) || t1 <= t0 {
        return Err(Stop::Bad(rest.len()));
    }
    Ok(((t0, t1), after))
}

// The two ends of a range of values.
#[tactic(auto, unfolding(crate::specs::Fields::range_fields))]
pub fn range_at(bytes: &[u8]) -> Result<((i64, i64), &[u8]), Stop>
    ensures reads { (next : Format) → Reads result (read (range_fields next) bytes.now) (λ x. read next x.1.now) }
    ensures takes { IfOk result (λ x. IsRange x.0.0 x.0.1 × (bytes.now ≡ two_before x.0.0 x.0.1 x.1.now)) }
{
    let (lo, rest) = signed_at(bytes)?;
    if !is_value(lo) {
        return Err(Stop::Bad(bytes.len()));
    }
    let (hi, after) = signed_at(rest)?;
    if !is_value(hi) || hi < lo {
        return Err(Stop::Bad(rest.len()));
    }
    Ok(((lo, hi), after))
}

// The number of slots of a series that starts there.
#[tactic(auto, unfolding(crate::specs::Fields::slots_field))]
fn slots_at(start: i64, step: u32, bytes: &[u8]) -> Result<(u64, &[u8]), Stop>
    ensures reads { (next : ℕ → Format) → Reads result (read (slots_field start step next) bytes.now) (λ x. read (next x.0) x.1.now) }
    ensures takes { IfOk result (λ x. (x.0 ≤ MOST_SLOTS) × EndsInTime start step x.0 × (bytes.now ≡ number_bytes 8 x.0 ++ x.1.now)) }
{
    let (slots, rest) = long_at(bytes)?;
    if slots > MOST_SLOTS || !ends_in_time(start, step, slots) {
        return Err(Stop::Bad(bytes.len()));
    }
    Ok((slots, rest))
}

/// The times of a series' slots.
#[derive(Clone, Copy)]
pub struct Axis {
    pub start: i64,
    pub step: u32,
    pub slots: u64,
}

#[tactic(auto, unfolding(crate::specs::Fields::axis_fields))]
pub fn axis_at(bytes: &[u8]) -> Result<(Axis, &[u8]), Stop>
    ensures reads { (next : ℕ → Format) → Reads result (read (axis_fields next) bytes.now) (λ x. read (next x.0.slots) x.1.now) }
    ensures takes { IfOk result (λ x. IsAxis x.0.start x.0.step x.0.slots
        × (bytes.now ≡ signed_bytes x.0.start ++ (number_bytes 4 x.0.step ++ (number_bytes 8 x.0.slots ++ x.1.now)))) }
{
    let (start, rest) = signed_at(bytes)?;
    if !is_value(start) {
        return Err(Stop::Bad(bytes.len()));
    }
    let (step, after) = word_at(rest)?;
    if step == 0 || step > GREATEST_STEP {
        return Err(Stop::Bad(rest.len()));
    }
    let (slots, end) = slots_at(start, step, after)?;
    Ok((Axis { start, step, slots }, end))
}

/// Whether a series has a stored value, and the least and the greatest one.
#[derive(Clone, Copy)]
pub struct Stored {
    pub has: u8,
    pub rmin: i64,
    pub rmax: i64,
}

#[tactic(auto, unfolding(crate::specs::Fields::has_field))]
fn has_at(slots: u64, bytes: &[u8]) -> Result<(u8, &[u8]), Stop>
    ensures reads { (next : ℕ → Format) → Reads result (read (has_field slots next) bytes.now) (λ x. read (next x.0) x.1.now) }
    ensures takes { IfOk result (λ x. (x.0 ≤ 1) × (x.0 ≡ 1 → 1 ≤ slots) × (bytes.now ≡ number_bytes 1 x.0 ++ x.1.now)) }
{
    let (has, rest) = byte_at(bytes)?;
    if has > 1 || (has != 0 && slots == 0) {
        return Err(Stop::Bad(bytes.len()));
    }
    Ok((has, rest))
}

#[tactic(auto, unfolding(crate::specs::Fields::rmin_field))]
fn rmin_at(has: u8, bytes: &[u8]) -> Result<(i64, &[u8]), Stop>
    ensures reads { (next : ℤ → Format) → Reads result (read (rmin_field has next) bytes.now) (λ x. read (next x.0) x.1.now) }
    ensures takes { IfOk result (λ x. IsValue x.0 × (has ≡ 0 → x.0 ≡ pos 0) × (bytes.now ≡ signed_bytes x.0 ++ x.1.now)) }
{
    let (rmin, rest) = signed_at(bytes)?;
    if !is_value(rmin) || (has != 1 && rmin.unsigned_abs() != 0) {
        return Err(Stop::Bad(bytes.len()));
    }
    Ok((rmin, rest))
}

#[tactic(auto, unfolding(crate::specs::Fields::rmax_field))]
fn rmax_at(has: u8, rmin: i64, bytes: &[u8]) -> Result<(i64, &[u8]), Stop>
    ensures reads { (next : Format) → Reads result (read (rmax_field has rmin next) bytes.now) (λ x. read next x.1.now) }
    ensures takes { IfOk result (λ x. IsValue x.0 × (rmin ≤ℤ x.0) × (has ≡ 0 → x.0 ≡ pos 0) × (bytes.now ≡ signed_bytes x.0 ++ x.1.now)) }
{
    let (rmax, rest) = signed_at(bytes)?;
    if !is_value(rmax) || rmax < rmin || (has != 1 && rmax.unsigned_abs() != 0) {
        return Err(Stop::Bad(bytes.len()));
    }
    Ok((rmax, rest))
}

#[tactic(auto, unfolding(crate::specs::Fields::stored_fields))]
pub fn stored_at(slots: u64, bytes: &[u8]) -> Result<(Stored, &[u8]), Stop>
    ensures reads { (next : Format) → Reads result (read (stored_fields slots next) bytes.now) (λ x. read next x.1.now) }
    ensures takes { IfOk result (λ x. IsStored slots x.0.has x.0.rmin x.0.rmax
        × (bytes.now ≡ number_bytes 1 x.0.has ++ two_before x.0.rmin x.0.rmax x.1.now)) }
{
    let (has, rest) = has_at(slots, bytes)?;
    let (rmin, rest) = rmin_at(has, rest)?;
    let (rmax, rest) = rmax_at(has, rmin, rest)?;
    Ok((Stored { has, rmin, rmax }, rest))
}

#[tactic(auto, unfolding(crate::specs::Fields::count_fields))]
pub fn count_at(length: u32, bytes: &[u8]) -> Result<(u32, &[u8]), Stop>
    ensures reads { (next : ℕ → Format) → Reads result (read (count_fields length next) bytes.now) (λ x. read (next x.0) x.1.now) }
    ensures takes { IfOk result (λ x. (84 + 25 * x.0 ≡ length) × (bytes.now ≡ number_bytes 4 x.0 ++ x.1.now)) }
{
    let (count, rest) = word_at(bytes)?;
    if 84 + 25 * count as u64 != length as u64 {
        return Err(Stop::Bad(bytes.len()));
    }
    Ok((count, rest))
}

#[tactic(auto, unfolding(crate::specs::Fields::row_count_fields))]
pub fn row_count_at(length: u32, w: u16, bytes: &[u8]) -> Result<(u16, &[u8]), Stop>
    ensures reads { (next : ℕ → Format) → Reads result (read (row_count_fields length w next) bytes.now) (λ x. read (next x.0) x.1.now) }
    ensures takes { IfOk result (λ x. (x.0 ≤ w) × (27 + 34 * x.0 ≡ length) × (bytes.now ≡ number_bytes 2 x.0 ++ x.1.now)) }
{
    let (count, rest) = short_at(bytes)?;
    if count > w || 27 + 34 * count as u32 != length {
        return Err(Stop::Bad(bytes.len()));
    }
    Ok((count, rest))
}
