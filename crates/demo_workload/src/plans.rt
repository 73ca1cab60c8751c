ghost use Rattle.std.specs.Prelude.{◌≡◌, ◌+◌, ◌<◌, ◌∷◌, ◌++◌, [], IfOk, IfSome, OnErr, MatchOption};
ghost use Rattle.request_lines.specs.declared.requests.Request.{Request};
ghost use Rattle.request_lines.specs.Requests.{IsInRange};
ghost use Rattle.demo_workload.specs.declared.plans.Stage.TheVariants as stage;
ghost use Rattle.demo_workload.specs.Workload.{slots_after, set_in, after_set, view_in, rounds};
ghost use Rattle.demo_workload.specs.Remaining.{remaining, HasRoom, IsPlan};

use crate::draws::Walk;
use crate::requests::{appends, creates, opens, sets, views};
use request_lines::Request;
use std::alloc::{AllocError, Global};

/// The kind of the next request.
#[derive(Clone, Copy)]
pub(crate) enum Stage {
    Create,
    Open,
    Append,
    Set,
    View,
}

/// What a workload has still to give.
#[derive(Clone, Copy)]
pub(crate) struct Plan {
    pub(crate) walk: Walk,
    pub(crate) stage: Stage,
    /// The next round or, at a set or a view, the one that it belongs to.
    pub(crate) round: u32,
    /// The rounds that are still to begin.
    pub(crate) left: u32,
}

impl Plan {
    /// The next request, or none where nothing is left. After want of memory nothing has changed.
    pub(crate) fn next(&mut self, alloc: Global) -> Result<Option<Request>, AllocError>
        requires { IsPlan self.old }
        ensures given { IfOk result (λ next. MatchOption next ((remaining self.old ≡ [])
            × (remaining self.new ≡ [])) (λ request. remaining self.old ≡ request ∷ remaining self.new)) }
        ensures in_range { IfOk result (λ next. IfSome next IsInRange) }
        ensures kept { OnErr result (self.new ≡ self.old) }
        ensures plan { IsPlan self.new }
    {
        match self.stage {
            Stage::Create => Ok(Some(self.create(alloc)?)),
            Stage::Open => Ok(Some(self.open())),
            Stage::Append if self.left == 0 => Ok(None),
            Stage::Append => Ok(Some(self.append(alloc)?)),
            Stage::Set => Ok(Some(self.set(alloc)?)),
            Stage::View => Ok(Some(self.view(alloc)?)),
        }
    }

    fn create(&mut self, alloc: Global) -> Result<Request, AllocError>
        requires plan { IsPlan self.old }
        requires stage { self.old.stage ≡ stage.Create }
        ensures given { IfOk result (λ request. remaining self.old ≡ request ∷ remaining self.new) }
        ensures in_range { IfOk result IsInRange }
        ensures kept { OnErr result (self.new ≡ self.old) }
        ensures plan { IsPlan self.new }
    {
        let request = creates(alloc)?;
        self.stage = Stage::Open;
        Ok(request)
    }

    fn open(&mut self) -> Request
        requires plan { IsPlan self.old }
        requires stage { self.old.stage ≡ stage.Open }
        ensures given { remaining self.old ≡ result ∷ remaining self.new }
        ensures in_range { IsInRange result }
        ensures plan { IsPlan self.new }
    {
        self.stage = Stage::Append;
        opens()
    }

    fn append(&mut self, alloc: Global) -> Result<Request, AllocError>
        requires plan { IsPlan self.old }
        requires stage { self.old.stage ≡ stage.Append }
        requires some { 0 < self.old.left }
        ensures given { IfOk result (λ request. remaining self.old ≡ request ∷ remaining self.new) }
        ensures in_range { IfOk result IsInRange }
        ensures kept { OnErr result (self.new ≡ self.old) }
        ensures plan { IsPlan self.new }
    {
        let mut walk = self.walk;
        let request = appends(alloc, &mut walk)?;
        self.walk = walk;
        self.left -= 1;
        self.behind_append();
        Ok(request)
    }

    /// Goes on behind the append of a round: to its set, to its view, or to the next round.
    fn behind_append(&mut self)
        requires { self.old.round + self.old.left < 4096 }
        ensures left { self.new.left ≡ self.old.left }
        ensures walk { self.new.walk ≡ self.old.walk }
        ensures room { HasRoom self.new.stage self.new.round self.new.left }
        ensures remaining { remaining self.new ≡ set_in self.old.round self.old.walk ++ view_in self.old.round ++ rounds self.old.left
            (self.old.round + 1) (after_set self.old.round self.old.walk) }
    {
        if self.round % 4 == 3 {
            self.stage = Stage::Set;
        } else {
            self.behind_set();
        }
    }

    /// Goes on behind the set of a round: to its view, or to the next round.
    fn behind_set(&mut self)
        requires { self.old.round + self.old.left < 4096 }
        ensures left { self.new.left ≡ self.old.left }
        ensures walk { self.new.walk ≡ self.old.walk }
        ensures room { HasRoom self.new.stage self.new.round self.new.left }
        ensures remaining { remaining self.new ≡ view_in self.old.round ++ rounds self.old.left (self.old.round + 1) self.old.walk }
    {
        if self.round % 8 == 7 {
            self.stage = Stage::View;
        } else {
            self.behind_view();
        }
    }

    /// Goes on to the next round.
    fn behind_view(&mut self)
        requires { self.old.round + self.old.left < 4096 }
        ensures left { self.new.left ≡ self.old.left }
        ensures walk { self.new.walk ≡ self.old.walk }
        ensures room { HasRoom self.new.stage self.new.round self.new.left }
        ensures remaining { remaining self.new ≡ rounds self.old.left (self.old.round + 1) self.old.walk }
    {
        self.stage = Stage::Append;
        self.round += 1;
    }

    fn set(&mut self, alloc: Global) -> Result<Request, AllocError>
        requires plan { IsPlan self.old }
        requires stage { self.old.stage ≡ stage.Set }
        ensures given { IfOk result (λ request. remaining self.old ≡ request ∷ remaining self.new) }
        ensures in_range { IfOk result IsInRange }
        ensures kept { OnErr result (self.new ≡ self.old) }
        ensures plan { IsPlan self.new }
    {
        let mut walk = self.walk;
        let request = sets(alloc, slots_after(self.round), &mut walk)?;
        self.walk = walk;
        self.behind_set();
        Ok(request)
    }

    fn view(&mut self, alloc: Global) -> Result<Request, AllocError>
        requires plan { IsPlan self.old }
        requires stage { self.old.stage ≡ stage.View }
        ensures given { IfOk result (λ request. remaining self.old ≡ request ∷ remaining self.new) }
        ensures in_range { IfOk result IsInRange }
        ensures kept { OnErr result (self.new ≡ self.old) }
        ensures plan { IsPlan self.new }
    {
        let request = views(alloc, slots_after(self.round))?;
        self.behind_view();
        Ok(request)
    }
}

/// The slots that are appended by the end of a round.
fn slots_after(round: u32) -> u64
    ensures { result ≡ slots_after round }
{
    256 * (u64::from(round) + 1)
}
