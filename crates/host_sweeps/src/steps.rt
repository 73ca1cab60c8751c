//! A step of a sweep is done and answered.
ghost use Rattle.std.specs.Prelude.{◌≡◌, ◌≢◌, ◌≤◌, ◌+◌, Err, length, IfOk, IfErr};
ghost use Rattle.block_disk.specs.Counts.{HasRisen};
ghost use Rattle.chart_frames.specs.Frames.{Fits};
ghost use Rattle.chart_service.specs.Faulting.{step_fault};
ghost use Rattle.chart_service.specs.Shown as shown;
ghost use Rattle.chart_service.specs.Stepping.{NamesBad, IsOutside};
ghost use Rattle.chart_world.specs.Faults.{CountsFault, fault_in};
ghost use Rattle.host_sweeps.specs.Sweeping.{SweepReplied, SweepsSome, TellsStep, most_clears, step_clears, step_reads};
ghost use Rattle.host_sweeps.specs.Steps.{error_reply, frame_of};
ghost use Rattle.live_service.specs.Shown as its;
ghost use Rattle.live_view.specs.Live as follows;
ghost use Rattle.retention.specs.Moving.{CarriesOn, CommitsFew};

use crate::pushing::push_behind;
use crate::step_work::StepWork;
use chart_frames::{Frame, Report};
use chart_service::{ServiceError, refused};
use gate_pages::PageWorld;
use live_service::ServiceStepper;
use live_view::Live;
use retention::{Rule, SweepError, SweptSome};
use series_book::Refusal;

/// The most clears of a step.
pub const MOST_CLEARS: u64 = 64;

/// The frame of a step that is done.
fn swept_frame(swept: SweptSome) -> Frame
    requires { swept.clears ≤ most_clears }
    ensures frame { result ≡ frame_of swept }
    ensures fits { Fits result }
{
    Frame::Report(Report::Swept {
        clears: swept.clears as u16,
        used: swept.used,
        more: swept.more,
    })
}

/// What is answered where a step wasn't done to its end.
fn error_reply(error: SweepError) -> Result<Frame, ServiceError>
    ensures reply { result ≡ error_reply error }
    ensures fits { IfOk result Fits }
{
    match error {
        SweepError::UnknownSeries => Ok(refused(Refusal::UnknownSeries)),
        SweepError::DiskFault => Err(ServiceError::DiskFault),
        SweepError::Damaged { page } => Err(ServiceError::Damaged { page }),
        SweepError::NoMemory => Err(ServiceError::NoMemory),
    }
}

/// Does a step of the sweep of a rule, at most 64 clears, each in one commit, and answers it as `SweepReplied` says over each
/// book for which the pages stand: they stand afterwards for the book behind these clears. Pushes may be pending then.
///
/// The frame is the refusal 8 where the rule names a series that isn't there, and nothing is done then; else it tells how
/// many clears were made, how many pages are in use behind them, and whether more are left to make: the next step goes on
/// there. After an error some first clears are done, and no push is pending; after `DiskFault` the store has to be opened
/// again. `Damaged` never comes where the pages stand for a book.
pub fn sweep_step<P: PageWorld>(
    live: &mut Live<ServiceStepper<P>>,
    rule: &Rule,
) -> Result<Frame, ServiceError>
    requires idle { follows.IsIdle live.old }
    requires sound { (its.view live.old).fit }
    ensures reply { its.ForBook live.old (λ total book. IfOk result (its.AnswersSo (SweepReplied rule.now) total book live.old live.new)) }
    ensures standing { its.ForBook live.old (λ total book. IfErr result IsOutside) }
    // the book behind some first clears of the step stays after an error
    ensures left { its.ForBook live.old (λ total book. result ≢ Err ServiceError.DiskFault
        → SweepsSome rule.now (its.state live.old total book) (its.view live.new).image) }
    // and a crash at any moment leaves it
    ensures moments { its.ForBook live.old (λ total book. shown.PassesTo (SweepsSome rule.now (its.state live.old total book))
        (its.service live.old) (its.service live.new)) }
    // each clear is one commit at most, whatever is answered
    ensures commits { its.ForBook live.old (λ total book. CommitsFew
        (length (step_clears (shown.state (its.service live.old) total book) rule.now)) (its.view live.old) (its.view live.new)) }
    // whatever the pages are
    ensures within { CommitsFew most_clears (its.view live.old) (its.view live.new) }
    ensures tells { IfOk result (λ frame. TellsStep frame (shown.IsTold (its.service live.old)) (its.view live.old) (its.view live.new)) }
    ensures reads { (its.view live.new).reads ≤ (its.view live.old).reads + step_reads }
    ensures fits { IfOk result Fits }
    ensures ended { IfErr result (λ error. follows.IsIdle live.new) }
    ensures sessions { shown.sessions (its.service live.new) ≡ shown.sessions (its.service live.old) }
    ensures followed { follows.followed live.new ≡ follows.followed live.old }
    ensures disk { result ≡ Err ServiceError.DiskFault → HasRisen (its.view live.old).faults (its.view live.new).faults }
    ensures faults { CountsFault (fault_in step_fault result) (its.view live.old) (its.view live.new) }
    ensures bad { IfErr result (NamesBad (shown.IsTold (its.service live.new)) (its.view live.new).size (its.view live.new).image) }
    // no count falls, the pages and the streams beside them go on, and no series goes away
    ensures carries { CarriesOn (shown.store (its.service live.old)) (shown.store (its.service live.new)) }
    ensures sound { result ≢ Err ServiceError.DiskFault → (its.view live.new).fit }
{
    let mut step = StepWork { rule };
    match live.with_stepper(&mut step) {
        Ok(swept) => match push_behind(live, rule, swept.clears) {
            Ok(()) => Ok(swept_frame(swept)),
            Err(_) => Err(ServiceError::NoMemory),
        },
        Err(error) => error_reply(error),
    }
}
