//! What is told of a series.
use om3_coeff::Span;

/// What is told of a series.
#[derive(Clone, Copy)]
pub struct SeriesInfo {
    /// The id, below 512.
    pub id: u16,
    /// The time of slot 0, at most 10^18 in size.
    pub start: i64,
    /// The time from a slot to the next, 1 to 2^31.
    pub step: u32,
    /// How many decimals a value has, 0 to 9.
    pub scale: u8,
    /// How many slots there are, at most 2^35; the last one stands at a time, at most at 2 * 10^18.
    pub slots: u64,
    /// The least and the greatest stored value; none where nothing is stored.
    pub span: Option<Span>,
}
