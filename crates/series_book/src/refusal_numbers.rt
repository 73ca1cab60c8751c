//! The numbers of all refusals, from 1 on, here and nowhere else: frames tell them, and statuses.

/// A line of more than 8,192 bytes.
pub const LINE_TOO_LONG: u8 = 1;

/// A line that isn't in the grammar.
pub const BAD_LINE: u8 = 2;

/// A filter that isn't in its grammar.
pub const BAD_FILTER: u8 = 3;

/// A session that isn't open.
pub const UNKNOWN_SESSION: u8 = 4;

/// A session that is open already.
pub const SESSION_OPEN: u8 = 5;

/// A session beyond those that may be open at once.
pub const TOO_MANY_SESSIONS: u8 = 6;

/// A cache whose size is out of range.
pub const BAD_CACHE: u8 = 7;

/// A name that no series has.
pub const UNKNOWN_SERIES: u8 = 8;

/// A name that a series has already.
pub const SERIES_EXISTS: u8 = 9;

/// A series beyond those that a book may have.
pub const TOO_MANY_SERIES: u8 = 10;

/// A time that is no slot's.
pub const OFF_GRID: u8 = 11;

/// A time before the start of the series.
pub const BEFORE_START: u8 = 12;

/// A value that is out of range.
pub const VALUE_TOO_LARGE: u8 = 13;

/// More values, or more slots to clear, than one edit takes.
pub const RANGE_TOO_LONG: u8 = 14;

/// A slot beyond those that a series may have.
pub const SERIES_FULL: u8 = 15;

/// A session without an answered view.
pub const NO_VIEW: u8 = 16;

/// A window that is empty or out of range.
pub const BAD_WINDOW: u8 = 17;

/// A canvas whose width or height is out of range.
pub const BAD_CANVAS: u8 = 18;

/// A range of values that is empty or out of range.
pub const BAD_RANGE: u8 = 19;

/// A view that needs more coefficients than its session's cache holds.
pub const VIEW_TOO_LARGE: u8 = 20;

/// An edit behind which the book would need more pages than there are.
pub const FULL: u8 = 21;

/// A session to follow whose last view may need more coefficients than its cache holds.
pub const LIVE_TOO_LARGE: u8 = 22;

/// Two series whose steps differ, or their starts by no multiple of the step.
pub const OTHER_GRID: u8 = 23;

/// A sum of two series of more than 10^18 in size. No refusal has a greater number.
pub const SUM_TOO_LARGE: u8 = 24;
