//! The tokens of a request, and what those that are no names spell.
use request_lines::RangeWord;

/// The nine tokens of a line.
#[derive(Drop)]
pub(crate) struct Words<'a> {
    pub(crate) first: &'a [u8],
    pub(crate) second: &'a [u8],
    pub(crate) a: &'a [u8],
    pub(crate) b: &'a [u8],
    pub(crate) w: &'a [u8],
    pub(crate) h: &'a [u8],
    pub(crate) t0: &'a [u8],
    pub(crate) t1: &'a [u8],
    pub(crate) range: &'a [u8],
}

/// The factors, the sides of the canvas, the ends of the window and the range of values.
#[derive(Clone, Copy)]
pub(crate) struct Numbers {
    pub(crate) a: i64,
    pub(crate) b: i64,
    pub(crate) w: u64,
    pub(crate) h: u64,
    pub(crate) t0: i128,
    pub(crate) t1: i128,
    pub(crate) range: RangeWord,
}
