//! Sessions are followed, and not any more.
ghost use Rattle.std.specs.Prelude.{◌≡◌, ◌<◌, ◌^◌, IfOk, OnErr};
ghost use Rattle.chart_frames.specs.Frames.{Fits, IsSession};
ghost use Rattle.series_book.specs.declared.refusals.Refusal.{Refusal};
ghost use Rattle.zoom_session.specs.Sessions.{is_open, session_of, AreSessions};
ghost use Rattle.live_view.specs.Replies.{refused, too_large, follow_reply, unfollow_reply, is_too_large, live_bound};

use crate::live::Live;
use crate::numbers::{take_out, with_number};
use crate::passing::is_open;
use crate::stepper::Stepper;
use chart_frames::Frame;
use series_book::Refusal;
use series_book::refusal_numbers::LIVE_TOO_LARGE;
use std::alloc::AllocError;
use zoom_session::ViewSpec;

impl<S: Stepper> Live<S> {
    ghost use Rattle.live_view.specs.Live as live;

    /// Follows a session, unless that is refused. After want of memory nothing has changed.
    pub(crate) fn follow(&mut self, session: u32) -> Result<Frame, AllocError>
        requires number { IsSession session }
        requires idle { live.IsIdle self.old }
        ensures reply { IfOk result (λ answer. live.AnswersItself
            (follow_reply session (session_of session (live.sessions self.old))) answer self.old self.new) }
        ensures fits { IfOk result Fits }
        ensures unchanged { OnErr result (live.Stays self.old self.new) }
    {
        let reply = reply_to_follow(&self.stepper, session);
        if let Frame::Live { .. } = reply {
            self.followed = with_number(self.alloc, &self.followed, session)?;
        }
        Ok(reply)
    }

    /// Ends the following of a session, unless that is refused.
    pub(crate) fn unfollow(&mut self, session: u32) -> Frame
        requires number { IsSession session }
        requires idle { live.IsIdle self.old }
        ensures reply { live.AnswersItself (unfollow_reply session (is_open session (live.sessions self.old))) result self.old self.new }
        ensures fits { Fits result }
    {
        if !is_open(&self.stepper, session) {
            return refused(Refusal::UnknownSession);
        }
        take_out(&mut self.followed, session);
        Frame::Live { session, on: false }
    }
}

/// The answer to a line that asks to follow a session.
fn reply_to_follow<S: Stepper>(stepper: &S, session: u32) -> Frame
    requires { IsSession session }
    ensures reply { result ≡ follow_reply session (session_of session (S.sessions stepper.now)) }
    ensures fits { Fits result }
    ensures valid { AreSessions (S.sessions stepper.now) }
{
    let Some(cache) = stepper.cache(session) else {
        return refused(Refusal::UnknownSession);
    };
    let Some(view) = stepper.last_view(session) else {
        return refused(Refusal::NoView);
    };
    if is_too_large(view, cache) {
        return too_large(live_bound(view.grid.w()), u64::from(cache));
    }
    Frame::Live { session, on: true }
}

/// Whether a view is too large to be followed.
fn is_too_large(view: &ViewSpec, cache: u32) -> bool
    ensures { result ≡ is_too_large view.now cache }
{
    view.filter.is_none() && u64::from(cache) < live_bound(view.grid.w())
}

/// The most coefficients that a view of so many columns may need.
pub fn live_bound(columns: u16) -> u64
    ensures bound { result ≡ live_bound columns }
    ensures small { result < 2 ^ 32 }
{
    (3 * u64::from(columns) + 1) * 35
}

/// The refusal of a view that may need so many coefficients, which is more than its cache holds.
fn too_large(needed: u64, cache: u64) -> Frame
    ensures reply { result ≡ too_large needed cache }
    ensures fits { Fits result }
{
    Frame::Refused {
        number: LIVE_TOO_LARGE,
        a: needed,
        b: cache,
    }
}

/// A refusal.
pub(crate) fn refused(refusal: Refusal) -> Frame
    ensures reply { result ≡ refused refusal }
    ensures fits { Fits result }
{
    let (a, b) = refusal.pair();
    Frame::Refused {
        number: refusal.number(),
        a,
        b,
    }
}
