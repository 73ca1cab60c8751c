//! A window of times.
ghost use Rattle.std.specs.Prelude.{◌≡◌};
ghost use Rattle.series_export.specs.Exports.{is_within, may_meet};

/// The times from `from` on and before `to`.
#[derive(Clone, Copy)]
pub struct Window {
    pub from: i64,
    pub to: i64,
}

/// Whether the time is in the window, if there is one.
pub(crate) fn is_within(window: Option<Window>, time: i64) -> bool
    ensures { result ≡ is_within window time }
{
    match window {
        Some(window) => window.from <= time && time < window.to,
        None => true,
    }
}

/// Whether a time from `first` on and up to `last` may be in the window, if there is one.
pub(crate) fn may_meet(window: Option<Window>, first: i64, last: i64) -> bool
    ensures { result ≡ may_meet window first last }
{
    match window {
        Some(window) => first < window.to && window.from <= last,
        None => true,
    }
}
