use crate::filter_texts::FilterText;
use crate::ranges::RangeWord;
use series_book::{Edit, Name};

/// What a line asks for.
#[derive(Drop)]
pub enum Request {
    /// A change of the book.
    Edit(Edit),
    /// Opens a session with a cache of this many coefficients, or of 65,536.
    Open {
        session: u32,
        cache: Option<u64>,
    },
    /// A view of one series on a canvas of w by h pixels over the window from t0 to t1, of the points
    /// that the filter of this text keeps, where there is one.
    View {
        session: u32,
        name: Name,
        w: u64,
        h: u64,
        t0: i128,
        t1: i128,
        range: RangeWord,
        filter: Option<FilterText>,
    },
    /// The session's last view, over another window.
    Zoom {
        session: u32,
        t0: i128,
        t1: i128,
    },
    /// The session's last view, its window moved by this much.
    Pan {
        session: u32,
        by: i128,
    },
    /// Closes a session.
    Close {
        session: u32,
    },
}
