//! Sessions that follow their views.
ghost use Rattle.std.specs.Prelude.{◌≡◌, ◌≤◌, [], length, IsTrue, ◌↔◌};
ghost use Rattle.std.specs.List.Sorted.{IsStrictlyIncreasing};
ghost use Rattle.live_view.specs.Following.{AreAble, AreAmong};
ghost use Rattle.live_view.specs.Numbers.{ArePositive};
ghost use Rattle.live_view.specs.Sessions.{AreOpen, HaveViews};

use crate::stepper::Stepper;
use std::alloc::Global;

/// What answers lines, the sessions that are followed, and those that a frame is still to be pushed to.
#[derive(Drop)]
pub struct Live<S: Stepper> {
    pub(crate) alloc: Global,
    pub(crate) stepper: S,
    pub(crate) followed: Vec<u32>,
    pub(crate) pending: Vec<u32>,
    ghost rising: { IsStrictlyIncreasing followed.items },
    ghost few: { length followed.items ≤ 16 },
    ghost opened: { AreOpen (S.sessions stepper) followed.items },
    ghost named: { ArePositive followed.items },
    ghost queue: { IsStrictlyIncreasing pending.items },
    ghost viewed: { HaveViews (S.sessions stepper) pending.items },
    ghost queued: { ArePositive pending.items },
    ghost able: { AreAble (S.sessions stepper) followed.items },
    ghost among: { AreAmong followed.items pending.items },
}

impl<S: Stepper> Live<S> {
    ghost use Rattle.live_view.specs.Live as live;

    /// No session is followed. It takes no memory.
    pub fn new(alloc: Global, stepper: S) -> Live<S>
        ensures stepper { result.stepper ≡ stepper }
        ensures none { live.followed result ≡ [] }
        ensures idle { live.IsIdle result }
    {
        Live {
            alloc,
            stepper,
            followed: Vec::new(alloc),
            pending: Vec::new(alloc),
        }
    }

    /// What answered the lines.
    pub fn into_stepper(self) -> S
        ensures { result ≡ self.stepper }
    {
        self.stepper
    }

    /// The numbers of the followed sessions: at most 16, in rising order, all open.
    pub fn followed(&self) -> &[u32]
        ensures value { result.now ≡ live.followed self.now }
        ensures rising { IsStrictlyIncreasing result.now }
        ensures few { length result.now ≤ 16 }
        ensures opened { AreOpen (live.sessions self.now) result.now }
    {
        &self.followed
    }

    /// Whether no push is pending, so that a line may be answered.
    pub fn is_idle(&self) -> bool
        ensures { IsTrue result ↔ live.IsIdle self.now }
    {
        self.pending.is_empty()
    }
}
