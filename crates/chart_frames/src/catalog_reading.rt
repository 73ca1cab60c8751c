// The fields of a catalog.
ghost use Rattle.std.specs.Prelude.{◌≡◌, ◌<◌, ◌≤◌, ◌+◌, ◌-◌, ◌*◌, ◌++◌, [], ℕ, length, All, IsTrue, IfOk, IfErr};
ghost use Rattle.std.specs.List.{list_all};
ghost use Rattle.series_book.specs.Names.{is_name};
ghost use Rattle.chart_frames.specs.Format.{Format, number_bytes};
ghost use Rattle.chart_frames.specs.Reading.{Reads, read};
ghost use Rattle.chart_frames.specs.Fields.{is_blank, is_padded, is_catalog_length, word_field, padded_field, name_fields, scale_field};
ghost use Rattle.chart_frames.specs.Fields.{facts_fields, listed_fields, series_list, listed_count_fields, pages_fields, catalog_fields};
ghost use Rattle.chart_frames.specs.Frames.{name_number, Fits, FitFacts, FitsListed};
ghost use Rattle.chart_frames.specs.Spelled.{framed, name_before, facts_before, listed_before, series_before, catalog_before, frame_before};
ghost use Rattle.chart_frames.specs.Items.{Fails};
ghost use Rattle.chart_frames.specs.ReportParts.{catalog_frame, PushesListed};

use crate::fields::{Stop, byte_at, short_at, word_at};
use crate::frame::Frame;
use crate::heads::{Axis, Stored, axis_at, stored_at};
use crate::item_stop::ItemStop;
use crate::limits::{CATALOG_LENGTH, LISTED_BYTES, NAME_BYTES};
use crate::report_lists::SeriesList;
use crate::reports::{CatalogFrame, ListedSeries, Report};
use series_book::Name;
use series_book::limits::GREATEST_SCALE;
use series_book::names::is_name;
use std::alloc::Global;

fn is_blank(byte: u8) -> bool
    ensures { result ≡ is_blank byte }
{
    byte == 0
}

// Whether all of the bytes are 0.
fn are_blank(bytes: &[u8]) -> bool
    ensures { result ≡ list_all is_blank bytes.now }
{
    bytes.iter().all(|byte| is_blank(*byte))
}

// Whether the first bytes, so many, are a name, and those behind them 0.
fn is_padded(size: u8, front: &[u8]) -> bool
    requires { size ≤ length front.now }
    ensures { result ≡ is_padded size front.now }
{
    let (name, blank) = front.split_at(size as usize);
    let clear = are_blank(blank);
    is_name(name) && clear
}

// A name of so many bytes, with 0 behind it.
fn padded_at(size: u8, bytes: &[u8]) -> Result<(&[u8], &[u8]), Stop>
    requires { size ≤ 31 }
    ensures reads { (next : Format) → Reads result (read (padded_field size next) bytes.now) (λ x. read next x.1.now) }
    ensures takes { IfOk result (λ x. IsTrue (is_name x.0.now) × (length x.0.now ≡ size)
        × (bytes.now ≡ number_bytes 31 (name_number x.0.now) ++ x.1.now)) }
{
    if bytes.len() < NAME_BYTES {
        return Err(Stop::More);
    }
    let (front, rest) = bytes.split_at(NAME_BYTES);
    if !is_padded(size, front) {
        return Err(Stop::Bad(bytes.len()));
    }
    Ok((&front[..size as usize], rest))
}

// A name, as its length and 31 bytes.
#[tactic(auto, unfolding(crate::specs::Fields::name_fields, crate::specs::Spelled::name_before))]
fn name_at(bytes: &[u8]) -> Result<(&[u8], &[u8]), Stop>
    ensures reads { (next : Format) → Reads result (read (name_fields next) bytes.now) (λ x. read next x.1.now) }
    ensures takes { IfOk result (λ x. IsTrue (is_name x.0.now) × (bytes.now ≡ name_before x.0.now x.1.now)) }
{
    let (size, rest) = byte_at(bytes)?;
    if size == 0 || size as usize > NAME_BYTES {
        return Err(Stop::Bad(bytes.len()));
    }
    let (name, after) = padded_at(size, rest)?;
    Ok((name, after))
}

#[tactic(auto, unfolding(crate::specs::Fields::scale_field))]
fn scale_at(bytes: &[u8]) -> Result<(u8, &[u8]), Stop>
    ensures reads { (next : Format) → Reads result (read (scale_field next) bytes.now) (λ x. read next x.1.now) }
    ensures takes { IfOk result (λ x. (x.0 ≤ 9) × (bytes.now ≡ number_bytes 1 x.0 ++ x.1.now)) }
{
    let (scale, rest) = byte_at(bytes)?;
    if scale > GREATEST_SCALE {
        return Err(Stop::Bad(bytes.len()));
    }
    Ok((scale, rest))
}

/// What a catalog says of a series behind its name.
#[derive(Clone, Copy)]
pub struct Facts {
    scale: u8,
    axis: Axis,
    stored: Stored,
}

#[tactic(auto, unfolding(crate::specs::Fields::facts_fields, crate::specs::Spelled::facts_before))]
fn facts_at(bytes: &[u8]) -> Result<(Facts, &[u8]), Stop>
    ensures reads { (next : Format) → Reads result (read (facts_fields next) bytes.now) (λ x. read next x.1.now) }
    ensures fits { IfOk result (λ x. FitFacts x.0.scale x.0.axis.start x.0.axis.step x.0.axis.slots x.0.stored.has x.0.stored.rmin
        x.0.stored.rmax) }
    ensures takes { IfOk result (λ x. bytes.now ≡ facts_before x.0.scale x.0.axis.start x.0.axis.step x.0.axis.slots x.0.stored.has
        x.0.stored.rmin x.0.stored.rmax x.1.now) }
{
    let (scale, rest) = scale_at(bytes)?;
    let (axis, rest) = axis_at(rest)?;
    let (stored, rest) = stored_at(axis.slots, rest)?;
    Ok((
        Facts {
            scale,
            axis,
            stored,
        },
        rest,
    ))
}

// The series of this name.
fn listed_of(name: Name, facts: Facts) -> ListedSeries
    ensures { result ≡ record {
      name = name;
      scale = facts.scale;
      start = facts.axis.start;
      step = facts.axis.step;
      slots = facts.axis.slots;
      has = facts.stored.has;
      rmin = facts.stored.rmin;
      rmax = facts.stored.rmax;
    } }
{
    ListedSeries {
        name,
        scale: facts.scale,
        start: facts.axis.start,
        step: facts.axis.step,
        slots: facts.axis.slots,
        has: facts.stored.has,
        rmin: facts.stored.rmin,
        rmax: facts.stored.rmax,
    }
}

// What a catalog says of one series.
#[tactic(auto, unfolding(crate::specs::Fields::listed_fields))]
fn told_at(bytes: &[u8]) -> Result<((&[u8], Facts), &[u8]), Stop>
    ensures reads { (next : Format) → Reads result (read (listed_fields next) bytes.now) (λ x. read next x.1.now) }
    ensures named { IfOk result (λ x. IsTrue (is_name x.0.0.now)) }
    ensures fits { IfOk result (λ x. FitFacts x.0.1.scale x.0.1.axis.start x.0.1.axis.step x.0.1.axis.slots x.0.1.stored.has
        x.0.1.stored.rmin x.0.1.stored.rmax) }
    ensures takes { IfOk result (λ x. bytes.now ≡ name_before x.0.0.now
        (facts_before x.0.1.scale x.0.1.axis.start x.0.1.axis.step x.0.1.axis.slots x.0.1.stored.has x.0.1.stored.rmin x.0.1.stored.rmax
        x.1.now)) }
{
    let (name, rest) = name_at(bytes)?;
    let (facts, rest) = facts_at(rest)?;
    Ok(((name, facts), rest))
}

// One series, and the bytes that follow it.
fn listed_at(alloc: Global, bytes: &[u8]) -> Result<(ListedSeries, &[u8]), ItemStop>
    ensures ok { IfOk result (λ x. FitsListed x.0 × (bytes.now ≡ listed_before x.0 x.1.now)) }
    ensures on { IfOk result (λ x. (next : Format) → read (listed_fields next) bytes.now ≡ read next x.1.now) }
    ensures err { IfErr result (λ e. (next : Format) → Fails e (read (listed_fields next) bytes.now)) }
{
    match told_at(bytes) {
        Ok(((name, facts), rest)) => match Name::new(alloc, name) {
            Ok(name) => Ok((listed_of(name, facts), rest)),
            Err(_) => Err(ItemStop::NoMemory),
        },
        Err(stop) => Err(ItemStop::Stop(stop)),
    }
}

// Reads one more. The bytes that follow it.
fn push_listed<'a>(
    alloc: Global,
    series: &mut Vec<ListedSeries>,
    bytes: &'a [u8],
) -> Result<&'a [u8], ItemStop>
    ensures ok { IfOk result (λ rest. PushesListed series.old.items series.new.items bytes.now rest.now) }
    ensures err { IfErr result (λ e. (next : Format) → Fails e (read (listed_fields next) bytes.now)) }
{
    match listed_at(alloc, bytes) {
        Ok((listed, rest)) => {
            series.push(listed)?;
            Ok(rest)
        }
        Err(stop) => Err(stop),
    }
}

// Reads so many series. The bytes are those behind the number of them.
fn fill_series<'a>(
    alloc: Global,
    series: &mut Vec<ListedSeries>,
    count: u16,
    bytes: &'a [u8],
) -> Result<&'a [u8], ItemStop>
    requires { series.old.items ≡ [] }
    ensures ok { IfOk result (λ rest. (length series.new.items ≡ count) × All FitsListed series.new.items
        × (bytes.now ≡ series_before series.new.items rest.now)) }
    ensures err { IfErr result (λ e. Fails e (read (series_list count) bytes.now)) }
{
    let mut rest = bytes;
    for _ in 0..count {
        match push_listed(alloc, series, rest) {
            Ok(after) => rest = after,
            Err(stop) => return Err(stop),
        }
    }
    Ok(rest)
}

/// What stands before the series of a catalog.
#[derive(Clone, Copy)]
pub struct CatalogHead {
    total: u32,
    used: u32,
    count: u16,
}

#[tactic(auto, unfolding(crate::specs::Fields::word_field))]
pub(crate) fn any_word_at(bytes: &[u8]) -> Result<(u32, &[u8]), Stop>
    ensures reads { (next : ℕ → Format) → Reads result (read (word_field next) bytes.now) (λ x. read (next x.0) x.1.now) }
    ensures takes { IfOk result (λ x. bytes.now ≡ number_bytes 4 x.0 ++ x.1.now) }
{
    let (number, rest) = word_at(bytes)?;
    Ok((number, rest))
}

#[tactic(auto, unfolding(crate::specs::Fields::listed_count_fields))]
fn listed_count_at(length: u32, bytes: &[u8]) -> Result<(u16, &[u8]), Stop>
    ensures reads { (next : ℕ → Format) → Reads result (read (listed_count_fields length next) bytes.now) (λ x. read (next x.0) x.1.now) }
    ensures takes { IfOk result (λ x. (11 + 70 * x.0 ≡ length) × (bytes.now ≡ number_bytes 2 x.0 ++ x.1.now)) }
{
    let (count, rest) = short_at(bytes)?;
    if CATALOG_LENGTH + LISTED_BYTES * count as u32 != length {
        return Err(Stop::Bad(bytes.len()));
    }
    Ok((count, rest))
}

#[tactic(auto, unfolding(crate::specs::Fields::pages_fields, crate::specs::Spelled::catalog_before))]
fn head_at(length: u32, bytes: &[u8]) -> Result<(CatalogHead, &[u8]), Stop>
    ensures reads { (next : ℕ → Format) → Reads result (read (pages_fields length next) bytes.now) (λ x. read (next x.0.count) x.1.now) }
    ensures length { IfOk result (λ x. 11 + 70 * x.0.count ≡ length) }
    ensures takes { IfOk result (λ x. bytes.now ≡ catalog_before x.0.total x.0.used x.0.count x.1.now) }
{
    let (total, rest) = any_word_at(bytes)?;
    let (used, rest) = any_word_at(rest)?;
    let (count, rest) = listed_count_at(length, rest)?;
    Ok((CatalogHead { total, used, count }, rest))
}

fn catalog_of(head: CatalogHead, series: Vec<ListedSeries>) -> Frame
    ensures { result ≡ catalog_frame head.total head.used series.items }
{
    Frame::Report(Report::Catalog(CatalogFrame {
        total: head.total,
        used: head.used,
        series: SeriesList::from_vec(series),
    }))
}

/// A catalog, behind its kind.
#[tactic(auto, unfolding(crate::specs::Fields::catalog_fields))]
pub(crate) fn catalog_at(
    alloc: Global,
    length: u32,
    bytes: &[u8],
) -> Result<(Frame, &[u8]), ItemStop>
    requires { IsTrue (is_catalog_length length) }
    ensures ok { IfOk result (λ x. Fits x.0 × (framed length 8 bytes.now ≡ frame_before x.0 x.1.now)) }
    ensures err { IfErr result (λ e. Fails e (read (catalog_fields length) bytes.now)) }
{
    match head_at(length, bytes) {
        Ok((head, rest)) => {
            let mut series = Vec::new(alloc);
            match fill_series(alloc, &mut series, head.count, rest) {
                Ok(after) => Ok((catalog_of(head, series), after)),
                Err(stop) => Err(stop),
            }
        }
        Err(stop) => Err(ItemStop::Stop(stop)),
    }
}
