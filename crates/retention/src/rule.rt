//! Which old slots are dropped.
use series_book::Name;

/// A rule by which old slots are dropped.
#[derive(Drop)]
pub enum Rule {
    /// The slots of a series that stand before a time.
    Before { name: Name, time: i128 },
    /// The slots of a series but the last so many, stored or missing. A series that has no more keeps all.
    Last { name: Name, count: u64 },
    /// The oldest stored slots of all series, with those of their pages, until so many pages are free.
    Free { pages: u64 },
}
