use crate::reports::Report;
use m4_groups::Rows;
use om3_coeff::Coefs;

/// An answer of the server.
#[derive(Drop)]
pub enum Frame {
    /// A request was done. `slots` is the number of slots of its series, at most 2^35.
    Done { slots: u64 },
    /// A request was refused, with the refusal's number, 1 to 24. `a` is 0 unless the number is 2, 3,
    /// 20, 21 or 22, and `b` unless it is 20, 21 or 22.
    Refused { number: u8, a: u64, b: u64 },
    /// A session was opened; its number isn't 0. Its client keeps so many coefficients, 1 to 131,072.
    Opened { session: u32, cache: u32 },
    /// A session was closed; its number isn't 0.
    Closed { session: u32 },
    /// What a client lacks of a view.
    View(ViewFrame),
    /// The rows of a filtered view.
    Rows(RowsFrame),
    /// Whether a session follows its view from now on; its number isn't 0.
    Live { session: u32, on: bool },
    /// An answer that shows no picture.
    Report(Report),
}

/// A view with the coefficients that are sent for it.
#[derive(Drop)]
pub struct ViewFrame {
    /// The session, not 0.
    pub session: u32,
    /// The series, below 512.
    pub series: u16,
    /// The width in pixels, 1 to 4,096.
    pub w: u16,
    /// The height in pixels, 1 to 4,096.
    pub h: u16,
    /// The window's first time, at most 2 * 10^18 in size.
    pub t0: i64,
    /// The time behind the window's last one, at most 2 * 10^18 in size.
    pub t1: i64,
    /// The least value shown, at most 10^18 in size.
    pub lo: i64,
    /// The greatest value shown, at most 10^18 in size.
    pub hi: i64,
    /// The time of slot 0, at most 10^18 in size.
    pub start: i64,
    /// The time from one slot to the next, 1 to 2^31.
    pub step: u32,
    /// The slots of the series, at most 2^35. The last one stands no later than 2 * 10^18.
    pub slots: u64,
    /// 1 where the series has a stored value, else 0.
    pub has: u8,
    /// The least stored value; 0 where there is none.
    pub rmin: i64,
    /// The greatest stored value; 0 where there is none.
    pub rmax: i64,
    /// The number of coefficients, which is their list's length, at most 131,072.
    pub count: u32,
    /// The coefficients by falling level, then by rising index.
    pub coefs: Coefs,
}

/// The rows of a filtered view.
#[derive(Drop)]
pub struct RowsFrame {
    /// The session, not 0.
    pub session: u32,
    /// The width in pixels, 1 to 4,096.
    pub w: u16,
    /// The height in pixels, 1 to 4,096.
    pub h: u16,
    /// The least value shown, at most 10^18 in size.
    pub lo: i64,
    /// The greatest value shown, at most 10^18 in size.
    pub hi: i64,
    /// The number of rows, which is their list's length, at most the width.
    pub count: u16,
    /// The rows by rising column.
    pub rows: Rows,
}
