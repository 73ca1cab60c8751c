// The coefficients of a view.
ghost use Rattle.std.specs.Prelude.{◌≡◌, ◌≢◌, ◌<◌, ◌≤◌, ◌+◌, ◌-◌, ◌^◌, ◌++◌, ◌&&◌, ◌||◌, false, true, ℕ, pos, length, All, IsTrue, OnErr};
ghost use Rattle.std.specs.Prelude.{IfOk, IfErr, MatchOption};
ghost use Rattle.om3_coeff.specs.Keys.{height, IsNode};
ghost use Rattle.chart_frames.specs.declared.limits.TheConstants.{MOST_SLOTS};
ghost use Rattle.chart_frames.specs.Format.{Format, number_bytes};
ghost use Rattle.chart_frames.specs.Reading.{Reads, read};
ghost use Rattle.chart_frames.specs.Fields.{follows, is_key, key_field, difference_field, coef_fields};
ghost use Rattle.chart_frames.specs.Frames.{IsCoef, FitsCoef, FitCoefs, key_number, flags_of};
ghost use Rattle.whole_number.specs.Range.{IsTime};
ghost use Rattle.chart_frames.specs.Spelled.{signed_bytes, two_before, coef_before, coefs_before};
ghost use Rattle.chart_frames.specs.Items.{Fails, last_key, FailsInCoefs};
ghost use Rattle.om3_coeff.specs.declared.key.Key.{Key};
ghost use Rattle.om3_coeff.specs.declared.coef.Coef.{Coef};

use crate::fields::{Stop, byte_at, long_at, signed_at};
use crate::heads::is_time;
use crate::item_stop::ItemStop;
use crate::limits::LEVEL_KEYS;
use om3_coeff::{Coef, Key, height};

// Whether a key of this number may stand behind the last one.
fn follows(last: Option<u64>, number: u64) -> bool
    ensures { result ≡ follows last number }
{
    let Some(last) = last else { return true };
    let level = number / LEVEL_KEYS;
    let above = last / LEVEL_KEYS;
    level < above || (level == above && last % LEVEL_KEYS < number % LEVEL_KEYS)
}

// The key of a number, where the tree over so many slots has a coefficient there.
#[tactic(auto, using(std::proofs::lemmas::Nat::one_shl))]
fn key_of(slots: u64, number: u64) -> Option<Key>
    requires { slots ≤ MOST_SLOTS }
    ensures { MatchOption result (is_key slots number ≡ false) (λ k. (is_key slots number ≡ true) × IsNode (height slots) k
        × (key_number k ≡ number)) }
{
    let height = height(slots);
    let level = number / LEVEL_KEYS;
    let index = number % LEVEL_KEYS;
    if level == 0 || level > height as u64 {
        return None;
    }
    let level = level as u8;
    if index >= 1 << (height - level) {
        return None;
    }
    Some(Key { level, index })
}

#[tactic(auto, unfolding(crate::specs::Fields::key_field))]
fn key_at(slots: u64, last: Option<u64>, bytes: &[u8]) -> Result<(Key, &[u8]), Stop>
    requires { slots ≤ MOST_SLOTS }
    ensures reads { (next : ℕ → Format) → Reads result (read (key_field slots last next) bytes.now)
        (λ x. read (next (key_number x.0)) x.1.now) }
    ensures takes { IfOk result (λ x. IsNode (height slots) x.0 × IsTrue (follows last (key_number x.0))
        × (bytes.now ≡ number_bytes 8 (key_number x.0) ++ x.1.now)) }
{
    let (number, rest) = long_at(bytes)?;
    let Some(key) = key_of(slots, number) else {
        return Err(Stop::Bad(bytes.len()));
    };
    if !follows(last, number) {
        return Err(Stop::Bad(bytes.len()));
    }
    Ok((key, rest))
}

#[tactic(auto, unfolding(crate::specs::Fields::difference_field))]
fn difference_at(flags: u8, bytes: &[u8]) -> Result<(i64, &[u8]), Stop>
    ensures reads { (next : Format) → Reads result (read (difference_field flags next) bytes.now) (λ x. read next x.1.now) }
    ensures takes { IfOk result (λ x. IsTime x.0 × (flags ≢ 3 → x.0 ≡ pos 0) × (bytes.now ≡ signed_bytes x.0 ++ x.1.now)) }
{
    let (difference, rest) = signed_at(bytes)?;
    if !is_time(difference) || (flags != 3 && difference.unsigned_abs() != 0) {
        return Err(Stop::Bad(bytes.len()));
    }
    Ok((difference, rest))
}

// The coefficient of which the flags and the differences were read.
fn coef_of(flags: u8, dmin: i64, dmax: i64) -> Coef
    requires low { 1 ≤ flags }
    requires high { flags ≤ 3 }
    ensures flags { flags_of result ≡ flags }
    ensures some { IsTrue (result.left || result.right) }
    ensures both { (result.left && result.right) ≡ false → flags ≢ 3 }
    ensures dmin { result.dmin ≡ dmin }
    ensures dmax { result.dmax ≡ dmax }
{
    let (left, right) = match flags {
        1 => (true, false),
        2 => (false, true),
        _ => (true, true),
    };
    Coef {
        left,
        right,
        dmin,
        dmax,
    }
}

#[tactic(auto, unfolding(crate::specs::Fields::coef_fields))]
fn coef_at(bytes: &[u8]) -> Result<(Coef, &[u8]), Stop>
    ensures reads { (next : Format) → Reads result (read (coef_fields next) bytes.now) (λ x. read next x.1.now) }
    ensures takes { IfOk result (λ x. IsCoef x.0 × (bytes.now ≡ number_bytes 1 (flags_of x.0) ++ two_before x.0.dmin x.0.dmax x.1.now)) }
{
    let (flags, rest) = byte_at(bytes)?;
    if flags == 0 || flags > 3 {
        return Err(Stop::Bad(bytes.len()));
    }
    let (dmin, rest) = difference_at(flags, rest)?;
    let (dmax, rest) = difference_at(flags, rest)?;
    Ok((coef_of(flags, dmin, dmax), rest))
}

#[tactic(auto, unfolding(crate::specs::Spelled::coef_before))]
fn pair_at(slots: u64, last: Option<u64>, bytes: &[u8]) -> Result<((Key, Coef), &[u8]), Stop>
    requires { slots ≤ MOST_SLOTS }
    ensures reads { (next : ℕ → Format) → Reads result (read (key_field slots last (λ key. coef_fields (next key))) bytes.now)
        (λ x. read (next (key_number x.0.0)) x.1.now) }
    ensures takes { IfOk result (λ x. FitsCoef slots x.0 × IsTrue (follows last (key_number x.0.0))
        × (bytes.now ≡ coef_before x.0 x.1.now)) }
{
    let (key, rest) = key_at(slots, last, bytes)?;
    let (coef, rest) = coef_at(rest)?;
    Ok(((key, coef), rest))
}

fn last_key(coefs: &[(Key, Coef)]) -> Option<u64>
    requires { All (λ e. e.0.index < 2 ^ 40) coefs.now }
    ensures { result ≡ last_key coefs.now }
{
    if coefs.is_empty() {
        return None;
    }
    let pair = coefs[coefs.len() - 1];
    Some(pair.0.number())
}

// Reads one more. The bytes that follow it.
fn push_coef<'a>(
    coefs: &mut Vec<(Key, Coef)>,
    slots: u64,
    bytes: &'a [u8],
) -> Result<&'a [u8], ItemStop>
    requires slots { slots ≤ MOST_SLOTS }
    requires fits { FitCoefs slots coefs.old.items }
    ensures fits { FitCoefs slots coefs.new.items }
    ensures ok { IfOk result (λ rest. (length coefs.new.items ≡ length coefs.old.items + 1)
        × (coefs_before coefs.new.items rest.now ≡ coefs_before coefs.old.items bytes.now)) }
    ensures unchanged { OnErr result (coefs.new.items ≡ coefs.old.items) }
    ensures err { IfErr result (λ e. (next : ℕ → Format)
        → Fails e (read (key_field slots (last_key coefs.old.items) (λ key. coef_fields (next key))) bytes.now)) }
{
    match pair_at(slots, last_key(coefs), bytes) {
        Ok((pair, rest)) => match coefs.push(pair) {
            Ok(()) => Ok(rest),
            Err(_) => Err(ItemStop::NoMemory),
        },
        Err(stop) => Err(ItemStop::Stop(stop)),
    }
}

/// Reads on, up to so many coefficients. The bytes are those behind the ones that were read.
pub fn fill_coefs<'a>(
    coefs: &mut Vec<(Key, Coef)>,
    slots: u64,
    count: u32,
    bytes: &'a [u8],
) -> Result<&'a [u8], ItemStop>
    requires slots { slots ≤ MOST_SLOTS }
    requires fits { FitCoefs slots coefs.old.items }
    requires room { length coefs.old.items ≤ count }
    ensures fits { FitCoefs slots coefs.new.items }
    ensures room { length coefs.new.items ≤ count }
    ensures ok { IfOk result (λ rest. (length coefs.new.items ≡ count)
        × (coefs_before coefs.new.items rest.now ≡ coefs_before coefs.old.items bytes.now)) }
    ensures err { IfErr result (λ e. FailsInCoefs slots count e coefs.old.items coefs.new.items bytes.now) }
{
    let mut rest = bytes;
    for _ in coefs.len()..count as usize {
        match push_coef(coefs, slots, rest) {
            Ok(after) => rest = after,
            Err(stop) => return Err(stop),
        }
    }
    Ok(rest)
}
