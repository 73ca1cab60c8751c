//! What answers the lines of a live view's sessions.
ghost use Rattle.std.specs.Prelude.{ℕ, ◌≡◌, ◌≢◌, ◌≤◌, ◌<◌, List, All, length, Option, None, Result, IfOk, IfErr, OnErr, OnOk, IsTrue};
ghost use Rattle.std.specs.Option.{option_copied};
ghost use Rattle.chart_frames.specs.declared.frame.Frame.{Frame};
ghost use Rattle.chart_frames.specs.Frames.{Fits};
ghost use Rattle.series_book.specs.declared.edits.Edit.{Edit};
ghost use Rattle.series_book.specs.Edits.{IsEdit};
ghost use Rattle.zoom_session.specs.declared.session.Session.{Session};
ghost use Rattle.zoom_session.specs.Sessions.{session_of, last_of, cache_of, AreSessions};
ghost use Rattle.live_view.specs.Following.{CanFollow, GoOnFollowing, ShowsOf, StayWhereOpen};
ghost use Rattle.live_view.specs.Meaning.{meaning_of};
ghost use Rattle.live_view.specs.Replies.{ended};
ghost use Rattle.live_view.specs.Sessions.{has_view, OpensBy, AreOpenAlike};

use block_disk::Streams;
use chart_frames::Frame;
use series_book::{Edit, Name};
use zoom_session::ViewSpec;

/// A server that answers lines one by one, as a service over pages does.
pub trait Stepper: Streams {
    /// Why a line wasn't answered.
    type Fault: Drop;

    /// The sessions that are open.
    ghost sessions: { Self → List Session };

    /// What the id of the series of a name may be.
    ghost names: { Self → List ℕ → Option ℕ → Type 0 };

    /// More lines may be answered.
    ghost fit: { Self → Type 0 };

    /// What answering a line may answer, and what it may leave.
    ghost replies: { Self → List ℕ → Result Frame Self.Fault → Self → Type 0 };

    /// The same of a zoom of a session to the window of its own last view.
    ghost repeats: { Self → ℕ → Result Frame Self.Fault → Self → Type 0 };

    /// What doing edits together may leave, where it answers by these frames.
    ghost does_edits: { Self → List Edit → List Frame → Self → Type 0 };

    /// Why edits weren't answered, and what that may leave.
    ghost fails_edits: { Self → List Edit → Self.Fault → Self → Type 0 };

    /// Answers a line.
    fn step_line(&mut self, line: &[u8]) -> Result<Frame, Self::Fault>
        requires { fit self.old }
        ensures reply { replies self.old line.now result self.new }
        ensures fits { IfOk result Fits }
        ensures opens { IfOk result (λ frame. OpensBy frame (sessions self.old) (sessions self.new)) }
        ensures goes { IfOk result (λ frame. GoOnFollowing (ended (meaning_of line.now) frame) (sessions self.old) (sessions self.new)) }
        ensures lost { OnErr result (StayWhereOpen (sessions self.old) (sessions self.new)) }
        ensures fit { OnOk result (fit self.new) };

    /// Does 1 to 64 edits together, and answers each by its frame. The sessions stay.
    fn step_edits(&mut self, edits: &[Edit]) -> Result<Vec<Frame>, Self::Fault>
        requires fit { fit self.old }
        requires some { 0 < length edits.now }
        requires few { length edits.now ≤ 64 }
        requires are_edits { All IsEdit edits.now }
        ensures reply { IfOk result (λ frames. does_edits self.old edits.now frames.items self.new) }
        ensures fails { IfErr result (λ fault. fails_edits self.old edits.now fault self.new) }
        ensures each { IfOk result (λ frames. length frames.items ≡ length edits.now) }
        ensures fits { IfOk result (λ frames. All Fits frames.items) }
        ensures same_sessions { sessions self.new ≡ sessions self.old }
        ensures fit { OnOk result (fit self.new) };

    /// Answers a zoom of a session to the window of its own last view. Other sessions stay. Where the session can follow,
    /// the frame shows its view.
    fn repeat(&mut self, session: u32) -> Result<Frame, Self::Fault>
        requires fit { fit self.old }
        requires number { 1 ≤ session }
        requires viewed { IsTrue (has_view session (sessions self.old)) }
        ensures reply { repeats self.old session result self.new }
        ensures fits { IfOk result Fits }
        ensures same_open { OnOk result (AreOpenAlike (sessions self.old) (sessions self.new)) }
        ensures others { (n : ℕ) → n ≢ session → session_of n (sessions self.new) ≡ session_of n (sessions self.old) }
        ensures shows { CanFollow (sessions self.old) session → IfOk result (ShowsOf session) }
        ensures goes { OnOk result (GoOnFollowing None (sessions self.old) (sessions self.new)) }
        ensures lost { OnErr result (StayWhereOpen (sessions self.old) (sessions self.new)) }
        ensures fit { OnOk result (fit self.new) };

    /// The view that a session was answered last. It is `None` where the session isn't open, or has had no
    /// answered view.
    fn last_view(&self, session: u32) -> Option<&ViewSpec>
        ensures { option_copied result ≡ last_of (session_of session (sessions self.now)) };

    /// How many coefficients a session's client keeps. It is `None` where the session isn't open.
    fn cache(&self, session: u32) -> Option<u32>
        ensures cache { result ≡ cache_of (session_of session (sessions self.now)) }
        ensures valid { AreSessions (sessions self.now) };

    /// The id of the series of a name. It is `None` where no series has the name.
    fn series_id(&self, name: &Name) -> Option<u16>
        ensures { names self.now name.now result };

    /// Taking from the input and sending leave the sessions.
    ghost takes_keep: { (old new : Self) → Self.takes old new → sessions new ≡ sessions old };

    ghost sends_keep: { (count : ℕ) (old new : Self) → Self.sends count old new → sessions new ≡ sessions old };
}
