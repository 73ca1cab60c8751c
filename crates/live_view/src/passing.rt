//! What answers of the stepper mean for those that follow.
ghost use Rattle.std.specs.Prelude.{◌≡◌, []};
ghost use Rattle.zoom_session.specs.Sessions.{is_open, session_of, last_of};
ghost use Rattle.live_view.specs.Sessions.{open_among};
ghost use Rattle.live_view.specs.Replies.{ended, still_followed, shows, followers, Changes};

use crate::meaning::Meaning;
use crate::numbers::take_out;
use crate::stepper::Stepper;
use chart_frames::Frame;

/// The session whose following the frame ends that answers a line.
pub(crate) fn ended(meaning: &Meaning, frame: &Frame) -> Option<u32>
    ensures { result ≡ ended meaning.now frame.now }
{
    match (meaning, frame) {
        (_, Frame::Opened { session, .. } | Frame::Closed { session }) => Some(*session),
        (Meaning::View, Frame::View(view)) => Some(view.session),
        (Meaning::View, Frame::Rows(rows)) => Some(rows.session),
        _ => None,
    }
}

/// Ends the following of that session.
pub(crate) fn end_following(followed: &mut Vec<u32>, ended: Option<u32>)
    ensures { followed.new.items ≡ still_followed ended followed.old.items }
{
    if let Some(session) = ended {
        take_out(followed, session);
    }
}

/// The series whose edit was done, as the frame says that answers a line, if one was.
pub(crate) fn changed<S: Stepper>(stepper: &S, meaning: &Meaning, frame: &Frame) -> Option<u16>
    ensures { Changes (S.names stepper.now) meaning.now frame.now result }
{
    match (meaning, frame) {
        (Meaning::Edit(name), Frame::Done { .. }) => stepper.series_id(name),
        _ => None,
    }
}

/// Of the followed sessions, those whose last view is one of a series.
pub(crate) fn followers<S: Stepper>(
    stepper: &S,
    series: Option<u16>,
    mut followed: Vec<u32>,
) -> Vec<u32>
    ensures { result.items ≡ followers series (S.sessions stepper.now) followed.items }
{
    let Some(series) = series else {
        return none_of(followed);
    };
    followed.retain(|session| shows(stepper, series, *session));
    followed
}

/// None of the followed sessions.
fn none_of(mut followed: Vec<u32>) -> Vec<u32>
    ensures { result.items ≡ [] }
{
    followed.clear();
    followed
}

/// Whether the last view of a session is one of a series.
fn shows<S: Stepper>(stepper: &S, series: u16, session: u32) -> bool
    ensures { result ≡ shows series (last_of (session_of session (S.sessions stepper.now))) }
{
    match stepper.last_view(session) {
        Some(view) => view.series == series,
        None => false,
    }
}

/// Keeps those of the numbers whose sessions are open.
pub(crate) fn keep_open<S: Stepper>(stepper: &S, numbers: &mut Vec<u32>)
    ensures { numbers.new.items ≡ open_among (S.sessions stepper.now) numbers.old.items }
{
    numbers.retain(|session| is_open(stepper, *session));
}

/// Whether a session is open.
pub(crate) fn is_open<S: Stepper>(stepper: &S, session: u32) -> bool
    ensures { result ≡ is_open session (S.sessions stepper.now) }
{
    stepper.cache(session).is_some()
}
