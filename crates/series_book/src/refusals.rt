ghost use Rattle.std.specs.Prelude.{◌≡◌};
ghost use Rattle.series_book.specs.Refusals.{number_of, pair_of};

use crate::refusal_numbers::{
    BAD_CACHE, BAD_CANVAS, BAD_FILTER, BAD_LINE, BAD_RANGE, BAD_WINDOW, BEFORE_START, FULL,
    LINE_TOO_LONG, NO_VIEW, OFF_GRID, RANGE_TOO_LONG, SERIES_EXISTS, SERIES_FULL, SESSION_OPEN,
    TOO_MANY_SERIES, TOO_MANY_SESSIONS, UNKNOWN_SERIES, UNKNOWN_SESSION, VALUE_TOO_LARGE,
    VIEW_TOO_LARGE,
};
use thiserror::Error;

/// Why a request is refused. A refused request changes nothing. The variants stand in the order in
/// which they are tested among those that apply.
#[derive(Clone, Copy, Debug, Error)]
pub enum Refusal {
    /// The line has more than 8,192 bytes.
    #[error("the line is too long")]
    LineTooLong,
    /// The line isn't in the grammar; `at` is the offset of its first byte that isn't.
    #[error("bad line at {at}")]
    BadLine { at: u32 },
    /// The filter isn't in its grammar; `at` counts from the filter's first byte.
    #[error("bad filter at {at}")]
    BadFilter { at: u32 },
    /// The session isn't open.
    #[error("the session is not open")]
    UnknownSession,
    /// The session is open already.
    #[error("the session is open")]
    SessionOpen,
    /// 16 sessions are open.
    #[error("too many sessions")]
    TooManySessions,
    /// The cache isn't 1 to 131,072.
    #[error("bad cache")]
    BadCache,
    /// No series has the name.
    #[error("no such series")]
    UnknownSeries,
    /// A series has the name.
    #[error("the series exists")]
    SeriesExists,
    /// There are 512 series.
    #[error("too many series")]
    TooManySeries,
    /// The time is no slot's: its distance from the start isn't a multiple of the step.
    #[error("the time is off the grid")]
    OffGrid,
    /// The time is before the start.
    #[error("the time is before the start")]
    BeforeStart,
    /// A value passes 10^18 in size.
    #[error("a value is too large")]
    ValueTooLarge,
    /// More than 256 values, or more than 4,096 slots to clear.
    #[error("the range is too long")]
    RangeTooLong,
    /// The series' length would pass 2^35, or the time of its last slot 2 * 10^18.
    #[error("the series is full")]
    SeriesFull,
    /// The session has had no answered view.
    #[error("no view")]
    NoView,
    /// The window is empty, or an end of it is out of range.
    #[error("bad window")]
    BadWindow,
    /// The width or the height isn't 1 to 4,096.
    #[error("bad canvas")]
    BadCanvas,
    /// The range's low end is above its high end, or one of them is out of range.
    #[error("bad range")]
    BadRange,
    /// The view needs more coefficients than the session's cache holds.
    #[error("{needed} coefficients are needed, and the cache holds {cache}")]
    ViewTooLarge { needed: u64, cache: u64 },
    /// The edited book would need more pages than there are.
    #[error("{needed} pages are needed, and there are {have}")]
    Full { needed: u64, have: u64 },
}

impl Refusal {
    /// The number of the refusal, as `refusal_numbers` has it.
    pub fn number(&self) -> u8
        ensures { result ≡ number_of self.now }
    {
        match self {
            Refusal::LineTooLong => LINE_TOO_LONG,
            Refusal::BadLine { .. } => BAD_LINE,
            Refusal::BadFilter { .. } => BAD_FILTER,
            Refusal::UnknownSession => UNKNOWN_SESSION,
            Refusal::SessionOpen => SESSION_OPEN,
            Refusal::TooManySessions => TOO_MANY_SESSIONS,
            Refusal::BadCache => BAD_CACHE,
            Refusal::UnknownSeries => UNKNOWN_SERIES,
            Refusal::SeriesExists => SERIES_EXISTS,
            Refusal::TooManySeries => TOO_MANY_SERIES,
            Refusal::OffGrid => OFF_GRID,
            Refusal::BeforeStart => BEFORE_START,
            Refusal::ValueTooLarge => VALUE_TOO_LARGE,
            Refusal::RangeTooLong => RANGE_TOO_LONG,
            Refusal::SeriesFull => SERIES_FULL,
            Refusal::NoView => NO_VIEW,
            Refusal::BadWindow => BAD_WINDOW,
            Refusal::BadCanvas => BAD_CANVAS,
            Refusal::BadRange => BAD_RANGE,
            Refusal::ViewTooLarge { .. } => VIEW_TOO_LARGE,
            Refusal::Full { .. } => FULL,
        }
    }

    /// The two numbers that the refusal carries, and zeros where it carries none.
    pub fn pair(&self) -> (u64, u64)
        ensures { result ≡ pair_of self.now }
    {
        match self {
            Refusal::BadLine { at } | Refusal::BadFilter { at } => (u64::from(*at), 0),
            Refusal::ViewTooLarge { needed, cache } => (*needed, *cache),
            Refusal::Full { needed, have } => (*needed, *have),
            _ => (0, 0),
        }
    }
}
