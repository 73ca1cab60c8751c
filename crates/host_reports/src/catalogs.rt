//! The catalog of a store.
ghost use Rattle.std.specs.Prelude.{◌≡◌, ◌<◌, ◌≤◌, ◌^◌, ℕ, None, IfOk};
ghost use Rattle.chart_frames.specs.Frames.{FitsCatalog, FitsListed};
ghost use Rattle.om3_coeff.specs.Spans.{IsProperIfAny};
ghost use Rattle.series_book.specs.declared.one_series.Series.{Series};
ghost use Rattle.series_book.specs.declared.limits.TheConstants.{MOST_SLOTS};
ghost use Rattle.series_store.specs.Asking.{IsInfo};
ghost use Rattle.series_store.specs.Shown as shown;
ghost use Rattle.whole_number.specs.Range.{IsValue};
ghost use Rattle.whole_number.specs.SlotTimes.{EndsInTime};
ghost use Rattle.host_reports.specs.Reports.{catalog_of, greatest_of, has_of, least_of, listed};

use chart_frames::{CatalogFrame, ListedSeries, SeriesList};
use gate_pages::Pages;
use om3_coeff::Span;
use series_book::Name;
use series_store::{SeriesInfo, Store};
use std::alloc::{AllocError, Global};

/// Whether a series has a stored value, and its least and greatest one.
#[derive(Clone, Copy)]
struct Stored {
    has: u8,
    least: i64,
    greatest: i64,
}

/// The least and the greatest stored value by the span of all slots, and zeros where there is none.
fn stored_of(span: Option<Span>) -> Stored
    ensures has { result.has ≡ has_of span }
    ensures least { result.least ≡ least_of span }
    ensures greatest { result.greatest ≡ greatest_of span }
{
    match span {
        None => Stored {
            has: 0,
            least: 0,
            greatest: 0,
        },
        Some(span) => Stored {
            has: 1,
            least: span.min,
            greatest: span.max,
        },
    }
}

/// What a catalog says of a series of this name.
fn listed_series(name: &Name, info: &SeriesInfo) -> Result<ListedSeries, AllocError>
    requires step { (1 ≤ info.now.step) × (info.now.step ≤ 2 ^ 31) }
    requires start { IsValue info.now.start }
    requires scale { info.now.scale ≤ 9 }
    requires slots { info.now.slots ≤ MOST_SLOTS }
    requires last { EndsInTime info.now.start info.now.step info.now.slots }
    requires proper { IsProperIfAny info.now.span }
    requires none { info.now.slots ≡ 0 → info.now.span ≡ None }
    ensures listed { (series : Series) (id : ℕ) → name.now ≡ series.name → IsInfo series id info.now
        → IfOk result (λ one. one ≡ listed series) }
    ensures fits { IfOk result FitsListed }
{
    let stored = stored_of(info.span);
    Ok(ListedSeries {
        name: name.copy()?,
        scale: info.scale,
        start: info.start,
        step: info.step,
        slots: info.slots,
        has: stored.has,
        rmin: stored.least,
        rmax: stored.greatest,
    })
}

/// The catalog of a store: its pages, and what is told of each series. Nothing is read.
pub fn catalog_frame<P: Pages>(alloc: Global, store: &Store<P>) -> Result<CatalogFrame, AllocError>
    ensures frame { shown.ForSoundBook store.now (λ total book. IfOk result (λ frame. frame ≡ catalog_of total book)) }
    ensures fits { IfOk result FitsCatalog }
{
    let mut series = Vec::new(alloc);
    for id in 0..store.len() {
        let id = id as u16;
        let Some(named) = store.series_at(id) else {
            unreachable!()
        };
        series.push(listed_series(named.name, &store.info(id))?)?;
    }
    Ok(CatalogFrame {
        total: store.total(),
        used: store.used(),
        series: SeriesList::from_vec(series),
    })
}
