//! Lines are answered, and frames pushed.
ghost use Rattle.std.specs.Prelude.{◌≡◌, ◌↔◌, Ok, None, IfOk, IfErr, IfSome, IfNone, OnOk};
ghost use Rattle.chart_frames.specs.Frames.{Fits};
ghost use Rattle.live_view.specs.Following.{ShowsOneOf};
ghost use Rattle.live_view.specs.declared.live_lines.LiveLine.TheVariants.{Other};
ghost use Rattle.live_view.specs.Lines.{live_line};

use crate::errors::LiveFault;
use crate::following::refused;
use crate::live::Live;
use crate::live_lines::{LiveLine, live_line};
use crate::meaning::meaning_of;
use crate::numbers::copy_of;
use crate::passing::{changed, end_following, ended, followers, keep_open};
use crate::stepper::Stepper;
use chart_frames::Frame;
use series_book::Refusal;

impl<S: Stepper> Live<S> {
    ghost use Rattle.live_view.specs.Live as live;

    /// Answers a line. After an edit that was done, pushes may be pending. `NoMemory` changes nothing; after a
    /// fault of the stepper no push is pending, and sessions that it closed aren't followed.
    pub fn step_line(&mut self, line: &[u8]) -> Result<Frame, LiveFault<S::Fault>>
        requires idle { live.IsIdle self.old }
        requires fit { S.fit self.old.stepper }
        ensures reply { IfOk result (λ answer. live.Replies line.now answer self.old self.new) }
        ensures fits { IfOk result Fits }
        ensures fails { IfErr result (λ fault. live.Fails line.now fault self.old self.new) }
        ensures fit { OnOk result (S.fit self.new.stepper) }
    {
        match live_line(line) {
            LiveLine::Follow { session } => Ok(self.follow(session)?),
            LiveLine::Unfollow { session } => Ok(self.unfollow(session)),
            LiveLine::Bad { at } => Ok(refused(Refusal::BadLine { at })),
            LiveLine::Other => self.step_other(line),
        }
    }

    /// Answers a line that asks nothing of live views.
    fn step_other(&mut self, line: &[u8]) -> Result<Frame, LiveFault<S::Fault>>
        requires other { live_line line.now ≡ Other }
        requires idle { live.IsIdle self.old }
        requires fit { S.fit self.old.stepper }
        ensures reply { IfOk result (λ answer. live.PassesOn line.now answer self.old self.new) }
        ensures fits { IfOk result Fits }
        ensures fails { IfErr result (λ fault. live.Fails line.now fault self.old self.new) }
        ensures fit { OnOk result (S.fit self.new.stepper) }
    {
        let meaning = meaning_of(self.alloc, line)?;
        let followed = copy_of(self.alloc, &self.followed)?;
        match self.stepper.step_line(line) {
            Ok(frame) => {
                end_following(&mut self.followed, ended(&meaning, &frame));
                let series = changed(&self.stepper, &meaning, &frame);
                self.pending = followers(&self.stepper, series, followed);
                Ok(frame)
            }
            Err(fault) => {
                keep_open(&self.stepper, &mut self.followed);
                Err(LiveFault::Stepper(fault))
            }
        }
    }

    /// Makes the next pending push: the frame that answers a zoom of its session to the window of its own last
    /// view. It is `None` exactly where none is pending, and then nothing changes.
    pub fn push(&mut self) -> Result<Option<Frame>, LiveFault<S::Fault>>
        requires { S.fit self.old.stepper }
        ensures none { (result ≡ Ok None) ↔ live.IsIdle self.old }
        ensures unchanged { IfOk result (λ some. IfNone some (live.Stays self.old self.new)) }
        ensures pushes { IfOk result (λ some. IfSome some (λ frame. live.Pushes frame self.old self.new)) }
        ensures shows { IfOk result (λ some. IfSome some (ShowsOneOf (live.followed self.old))) }
        ensures fits { IfOk result (λ some. IfSome some Fits) }
        ensures fails { IfErr result (λ fault. live.PushFails fault self.old self.new) }
        ensures fit { OnOk result (S.fit self.new.stepper) }
    {
        if self.pending.is_empty() {
            return Ok(None);
        }
        let session = self.pending.remove(0);
        match self.stepper.repeat(session) {
            Ok(frame) => Ok(Some(frame)),
            Err(fault) => {
                keep_open(&self.stepper, &mut self.followed);
                Err(LiveFault::Stepper(fault))
            }
        }
    }
}
