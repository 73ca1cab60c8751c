//! Answers that show no picture. `host` alone sends them.

use crate::report_lists::{RunList, SeriesList, ValueList};
use series_book::Name;

/// An answer that shows no picture: it tells of the store, and changes nothing that a client holds.
#[derive(Drop)]
pub enum Report {
    /// The series of the store.
    Catalog(CatalogFrame),
    /// Stored values of a series.
    Values(ValuesFrame),
    /// A sweep: how many clears it made, at most 64, the pages in use behind them, and whether clears
    /// are left to make.
    Swept { clears: u16, used: u32, more: bool },
}

/// The series of the store, and its pages.
#[derive(Drop)]
pub struct CatalogFrame {
    /// The pages that there are.
    pub total: u32,
    /// The pages in use.
    pub used: u32,
    /// The series in the order of their creation, at most 512. A series' number is its place.
    pub series: SeriesList,
}

/// What a catalog says of a series.
#[derive(Drop)]
pub struct ListedSeries {
    pub name: Name,
    /// The decimals that a reader may show, at most 9.
    pub scale: u8,
    /// The time of slot 0, at most 10^18 in size.
    pub start: i64,
    /// The time from one slot to the next, 1 to 2^31.
    pub step: u32,
    /// The slots, at most 2^35. The last one stands no later than 2 * 10^18.
    pub slots: u64,
    /// 1 where the series has a stored value, else 0.
    pub has: u8,
    /// The least stored value; 0 where there is none.
    pub rmin: i64,
    /// The greatest stored value; 0 where there is none.
    pub rmax: i64,
}

/// Stored values of a series in the order of their slots. The values of the first run's slots come
/// first, then those of the second one's, and so on.
#[derive(Drop)]
pub struct ValuesFrame {
    /// The series, below 512.
    pub series: u16,
    /// Whether more values of the window are left.
    pub more: bool,
    /// The time from which to ask for them, at most 2 * 10^18 in size; 0 where none are left.
    pub next: i64,
    /// The runs of slots that follow each other, by rising slot; between two of them stands a slot
    /// without a value. The last one ends at most 4,096 slots behind the first slot of the first one.
    pub runs: RunList,
    /// The values, as many as the runs have slots, at most 4,096, each at most 10^18 in size.
    pub values: ValueList,
}

/// Slots that follow each other, each with a stored value.
#[derive(Clone, Copy)]
pub struct Run {
    /// The first slot.
    pub first: u64,
    /// The number of slots, not 0.
    pub count: u64,
}
