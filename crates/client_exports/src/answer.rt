//! An answer as numbers.

ghost use Rattle.std.specs.Prelude.{◌≡◌};
ghost use Rattle.client_exports.specs.Answers.{TellsNext, TellsHand, TellsFrame, TellsReport, TellsView, TellsRows, TellsError, TellsDrawn};
ghost use Rattle.client_exports.specs.Answers.{TellsSpan};

use crate::fault::Fault;
use chart_client::ClientError;
use chart_frames::{Frame, FrameFault, Report, RowsFrame, ViewFrame};
use om3_coeff::Span;

/// What a call answers. Numbers that its code and kind don't name are 0.
#[repr(C)]
#[derive(Clone, Copy)]
pub struct Answer {
    /// 1 for a frame in hand, for one that was drawn, or for a column that has a value; 0 where there is none. 2 where
    /// the field at byte `a` of the stream breaks its rule, 3 where the coefficient of level `number` and index `a` is missing, 4
    /// where it doesn't fit, 5 where session `session` isn't open, 6 where memory ran out, 7 where the handle is closed.
    pub code: u32,
    /// The frame's kind: 1 done, 2 refused, 3 opened, 4 closed, 5 a view, 6 rows, 7 live, 8 a catalog, 9 stored values, 10 a sweep.
    pub kind: u32,
    pub session: u32,
    /// A refusal's number, the series of a view or of stored values, or how many clears a sweep made.
    pub number: u32,
    pub w: u32,
    pub h: u32,
    pub step: u32,
    /// The coefficients of a view, or the rows of a frame of rows.
    pub count: u32,
    /// The slots of a done edit or of a view, the size of an opened session's cache, 1 where a session follows its view, a refusal's
    /// first number, a catalog's pages, 1 where stored values are left, a sweep's pages in use; of `chart_next` with code 0 the
    /// bytes that are pending; and what the other codes name.
    pub a: u64,
    /// A refusal's second number, a catalog's pages in use, 1 where a sweep has clears left.
    pub b: u64,
    pub t0: i64,
    pub t1: i64,
    /// The least value of a view's or of rows' range, or a column's least.
    pub lo: i64,
    /// The greatest one.
    pub hi: i64,
    pub start: i64,
    /// The number of the bytes of what was drawn, 0 where there are none.
    pub bytes: u64,
}

impl Answer {
    /// No more than a code.
    pub(crate) fn coded(code: u32) -> Answer
        ensures { result.code ≡ code }
    {
        Answer {
            code,
            kind: 0,
            session: 0,
            number: 0,
            w: 0,
            h: 0,
            step: 0,
            count: 0,
            a: 0,
            b: 0,
            t0: 0,
            t1: 0,
            lo: 0,
            hi: 0,
            start: 0,
            bytes: 0,
        }
    }

    /// The frame in hand, or how many bytes are pending, or why none could be taken.
    pub(crate) fn of_next(
        taken: Result<(), FrameFault>,
        hand: &Option<Frame>,
        pending: u64,
    ) -> Answer
        ensures { TellsNext taken hand.now pending result }
    {
        match taken {
            Ok(()) => Answer::of_hand(hand, pending),
            Err(FrameFault::BadFrame { at }) => Answer {
                a: at,
                ..Answer::coded(2)
            },
            Err(FrameFault::NoMemory) => Answer::coded(6),
        }
    }

    fn of_hand(hand: &Option<Frame>, pending: u64) -> Answer
        ensures { TellsHand hand.now pending result }
    {
        match hand {
            Some(frame) => Answer {
                code: 1,
                ..Answer::of_frame(frame)
            },
            None => Answer {
                a: pending,
                ..Answer::coded(0)
            },
        }
    }

    /// No more than a frame's kind.
    fn of_kind(kind: u32) -> Answer
        ensures { result.kind ≡ kind }
    {
        Answer {
            kind,
            ..Answer::coded(1)
        }
    }

    fn of_frame(frame: &Frame) -> Answer
        ensures { TellsFrame frame.now result }
    {
        match frame {
            Frame::Done { slots } => Answer {
                a: *slots,
                ..Answer::of_kind(1)
            },
            Frame::Refused { number, a, b } => Answer {
                number: u32::from(*number),
                a: *a,
                b: *b,
                ..Answer::of_kind(2)
            },
            Frame::Opened { session, cache } => Answer {
                session: *session,
                a: u64::from(*cache),
                ..Answer::of_kind(3)
            },
            Frame::Closed { session } => Answer {
                session: *session,
                ..Answer::of_kind(4)
            },
            Frame::View(view) => Answer {
                kind: 5,
                ..Answer::of_view(view)
            },
            Frame::Rows(rows) => Answer {
                kind: 6,
                ..Answer::of_rows(rows)
            },
            Frame::Live { session, on } => Answer {
                session: *session,
                a: if *on { 1 } else { 0 },
                ..Answer::of_kind(7)
            },
            Frame::Report(report) => Answer::of_report(report),
        }
    }

    fn of_report(report: &Report) -> Answer
        ensures { TellsReport report.now result }
    {
        match report {
            Report::Catalog(catalog) => Answer {
                a: u64::from(catalog.total),
                b: u64::from(catalog.used),
                ..Answer::of_kind(8)
            },
            Report::Values(values) => Answer {
                number: u32::from(values.series),
                a: if values.more { 1 } else { 0 },
                t0: values.next,
                ..Answer::of_kind(9)
            },
            Report::Swept { clears, used, more } => Answer {
                number: u32::from(*clears),
                a: u64::from(*used),
                b: if *more { 1 } else { 0 },
                ..Answer::of_kind(10)
            },
        }
    }

    fn of_view(view: &ViewFrame) -> Answer
        ensures { TellsView view.now result }
    {
        Answer {
            session: view.session,
            number: u32::from(view.series),
            w: u32::from(view.w),
            h: u32::from(view.h),
            step: view.step,
            count: view.count,
            a: view.slots,
            t0: view.t0,
            t1: view.t1,
            lo: view.lo,
            hi: view.hi,
            start: view.start,
            ..Answer::coded(1)
        }
    }

    fn of_rows(rows: &RowsFrame) -> Answer
        ensures { TellsRows rows.now result }
    {
        Answer {
            session: rows.session,
            w: u32::from(rows.w),
            h: u32::from(rows.h),
            lo: rows.lo,
            hi: rows.hi,
            count: u32::from(rows.count),
            ..Answer::coded(1)
        }
    }

    /// What drawing answered, and how many bytes it left.
    pub(crate) fn of_drawn(drawn: Result<bool, Fault>, bytes: u64) -> Answer
        ensures tells { TellsDrawn drawn result }
        ensures bytes { result.bytes ≡ bytes }
    {
        match drawn {
            Ok(there) => Answer {
                bytes,
                ..Answer::coded(if there { 1 } else { 0 })
            },
            Err(Fault::NoMemory) => Answer {
                bytes,
                ..Answer::coded(6)
            },
            Err(Fault::Client(error)) => Answer {
                bytes,
                ..Answer::of_error(error)
            },
        }
    }

    /// A column's least and greatest value, where it has any.
    pub(crate) fn of_span(span: Option<Span>) -> Answer
        ensures { TellsSpan span result }
    {
        match span {
            Some(span) => Answer {
                lo: span.min,
                hi: span.max,
                ..Answer::coded(1)
            },
            None => Answer::coded(0),
        }
    }

    fn of_error(error: ClientError) -> Answer
        ensures { TellsError error result }
    {
        match error {
            ClientError::Missing { key } => Answer {
                number: u32::from(key.level),
                a: key.index,
                ..Answer::coded(3)
            },
            ClientError::BadCoefficient { key } => Answer {
                number: u32::from(key.level),
                a: key.index,
                ..Answer::coded(4)
            },
            ClientError::UnknownSession { session } => Answer {
                session,
                ..Answer::coded(5)
            },
            ClientError::NoMemory => Answer::coded(6),
        }
    }
}
