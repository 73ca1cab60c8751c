ghost use Rattle.std.specs.Prelude.{◌≡◌, ◌≤◌, ◌∷◌, [], IfOk, IfSome, OnErr, MatchOption};
ghost use Rattle.request_lines.specs.Requests.{IsInRange};
ghost use Rattle.demo_workload.specs.Workload.{workload};

use crate::draws::Walk;
use crate::plans::{Plan, Stage};
use request_lines::Request;
use std::alloc::{AllocError, Global};
use std::marker::Model;

/// The most rounds of a workload.
pub const MOST_ROUNDS: u32 = 4_096;

/// A workload. It is seen as the list of the requests that it has still to give, and holds none of them.
#[derive(Drop)]
pub struct Workload {
    plan: Plan,
}

impl Model for Workload {
    ghost use Rattle.std.specs.Prelude.{List};
    ghost use Rattle.request_lines.specs.declared.requests.Request.{Request};
    ghost use Rattle.demo_workload.specs.Remaining.{remaining, IsPlan};

    ghost Value = { List Request };

    ghost view = { λ w. remaining w.plan };

    ghost invariant = { λ w. IsPlan w.plan };
}

impl Workload {
    /// The workload of a seed with so many rounds.
    pub fn new(seed: u64, count: u32) -> Workload
        requires { count ≤ 4096 }
        ensures { result ≡ workload seed count }
    {
        Workload {
            plan: Plan {
                walk: Walk {
                    state: seed,
                    value: 0,
                },
                stage: Stage::Create,
                round: 0,
                left: count,
            },
        }
    }

    /// The next request, or none where all were given. After want of memory nothing has changed.
    pub fn next(&mut self, alloc: Global) -> Result<Option<Request>, AllocError>
        ensures given { IfOk result (λ next. MatchOption next ((self.old ≡ [])
            × (self.new ≡ [])) (λ request. self.old ≡ request ∷ self.new)) }
        ensures in_range { IfOk result (λ next. IfSome next IsInRange) }
        ensures kept { OnErr result (self.new ≡ self.old) }
    {
        self.plan.next(alloc)
    }
}
