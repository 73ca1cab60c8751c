//! A service answers requests that are no edits.
ghost use Rattle.std.specs.Prelude.{◌≡◌, ◌≢◌, ◌≤◌, ℕ, List, IfOk, IfErr, OnErr, OnOk};
ghost use Rattle.block_disk.specs.View.{View};
ghost use Rattle.chart_frames.specs.Frames.{Fits};
ghost use Rattle.request_lines.specs.Requests.{IsInRange};
ghost use Rattle.series_book.specs.declared.one_series.Series.{Series};
ghost use Rattle.zoom_session.specs.Sessions.{is_open};
ghost use Rattle.chart_service.specs.Alone.{session_in};
ghost use Rattle.chart_service.specs.Kinds.{IsRefusal, KeepsSessions, MayAnswer, MayClose, MayOpen};
ghost use Rattle.chart_service.specs.LastShown.{LastsBy, OfRows};
ghost use Rattle.chart_service.specs.Looking.{IsNoEdit};
ghost use Rattle.chart_service.specs.Opening.{OpensBy};
ghost use Rattle.chart_service.specs.Replies.{Closes, Replies, cache_of};
ghost use Rattle.chart_service.specs.Stepping.{ReadsFew};
ghost use Rattle.chart_service.specs.Called.{IsCause, LooksIn, OpensIn, RepliesOver};
ghost use Rattle.chart_service.specs.Rooms.{LeavesOpen, OthersStay};
ghost use Rattle.chart_service.specs.Shown as shown;

use crate::failure::ServiceError;
use crate::refusals::refused;
use crate::service::Service;
use crate::viewport::Viewport;
use chart_frames::Frame;
use gate_pages::Pages;
use request_lines::Request;
use zoom_session::{DEFAULT_CACHE, SessionError};

impl<P: Pages> Service<P> {
    /// Answers a request that is no edit.
    pub(crate) fn look(&mut self, request: &Request) -> Result<Frame, ServiceError>
        requires sound { (shown.view self.old).fit }
        requires range { IsInRange request.now }
        requires no_edit { IsNoEdit request.now }
        ensures replying { RepliesOver (Replies request.now)
            (λ book. ReadsFew request.now book self.old.sessions) result self.old self.new }
        ensures cause { IfErr result (IsCause request.now self.old self.new) }
        ensures looked { LooksIn (session_in request.now) result self.old self.new }
        ensures may { IfOk result (λ frame. MayAnswer request.now frame) }
        ensures leaves { OnOk result (LeavesOpen request.now self.old.sessions self.new.sessions) }
        ensures lasts { IfOk result (λ frame. LastsBy (OfRows request.now) frame self.old.sessions self.new.sessions) }
        ensures quiet { OnOk result ((shown.view self.new).faults ≡ (shown.view self.old).faults) }
        ensures quiet_err { IfErr result (λ e. e ≢ ServiceError.DiskFault → (shown.view self.new).faults ≡ (shown.view self.old).faults) }
    {
        match request {
            Request::Edit(_) => unreachable!(),
            Request::Open { session, cache } => self.open(*session, cache_of(*cache)),
            Request::View {
                session,
                name,
                w,
                h,
                t0,
                t1,
                range,
                filter,
            } => {
                let viewport = Viewport {
                    w: *w,
                    h: *h,
                    t0: *t0,
                    t1: *t1,
                };
                self.view_by_text(*session, name, viewport, *range, filter)
            }
            Request::Zoom { session, t0, t1 } => self.zoom(*session, *t0, *t1),
            Request::Pan { session, by } => self.pan(*session, *by),
            Request::Close { session } => Ok(self.close(*session)),
        }
    }

    /// Opens a session.
    #[tactic(auto, using(crate::proofs::RoomLemmas::others_opened, crate::proofs::RoomLemmas::others_same))]
    fn open(&mut self, number: u32, cache: u64) -> Result<Frame, ServiceError>
        requires { 1 ≤ number }
        ensures reply { (total : ℕ) (book : List Series)
            → IfOk result (OpensIn number cache (shown.state self.old total book) (shown.state self.new total book)) }
        ensures fits { IfOk result Fits }
        ensures opens { IfOk result (λ frame. OpensBy frame self.old.sessions self.new.sessions) }
        ensures kept { OnErr result (self.new.sessions ≡ self.old.sessions) }
        ensures stays { KeepsSessions result self.old.sessions self.new.sessions }
        ensures may { IfOk result (λ frame. MayOpen number frame) }
        ensures leaves { OnOk result (OthersStay number self.old.sessions self.new.sessions) }
        ensures error { IfErr result (λ error. error ≡ ServiceError.NoMemory) }
        ensures store { self.new.store ≡ self.old.store }
    {
        match self.sessions.open(number, cache) {
            Ok(()) => Ok(Frame::Opened {
                session: number,
                cache: cache as u32,
            }),
            Err(SessionError::Refused(refusal)) => Ok(refused(refusal)),
            Err(SessionError::NoMemory) => Err(ServiceError::NoMemory),
        }
    }

    /// Closes a session.
    #[tactic(auto, using(crate::proofs::Keeping::views_closed, crate::proofs::Openings::opens_closed, crate::proofs::RoomLemmas::others_closed, crate::proofs::RoomLemmas::others_same))]
    fn close(&mut self, number: u32) -> Frame
        requires { 1 ≤ number }
        ensures reply { (total : ℕ) (book : List Series)
            → Closes (is_open number self.old.sessions) number result (shown.state self.old total book) (shown.state self.new total book) }
        ensures fits { Fits result }
        ensures opens { OpensBy result self.old.sessions self.new.sessions }
        ensures stays { IsRefusal result → self.new.sessions ≡ self.old.sessions }
        ensures may { MayClose number result }
        ensures leaves { OthersStay number self.old.sessions self.new.sessions }
        ensures store { self.new.store ≡ self.old.store }
    {
        // It brings in what holds of the open sessions.
        let _open = self.sessions.is_open(number);
        if let Err(refusal) = self.sessions.close(number) {
            return refused(refusal);
        }
        Frame::Closed { session: number }
    }
}

/// The cache that an opening asks for.
fn cache_of(cache: Option<u64>) -> u64
    ensures { result ≡ cache_of cache }
{
    cache.unwrap_or(DEFAULT_CACHE)
}
