//! A live service answers lines, does edits together, and makes pushes.
ghost use Rattle.std.specs.Prelude.{◌≡◌, ◌≢◌, ◌↔◌, ◌<◌, ◌≤◌, ◌+◌, ◌*◌, [], All, length, Ok, Err, None, IfOk, IfErr, IfSome, IfNone, OnOk};
ghost use Rattle.block_disk.specs.Counts.{HasRisen};
ghost use Rattle.block_disk.specs.View.{Now};
ghost use Rattle.chart_frames.specs.Frames.{Fits};
ghost use Rattle.chart_service.specs.Called.{CommitsOnly, LineBlamed};
ghost use Rattle.chart_service.specs.EditDamage.{NamesBadForEdit};
ghost use Rattle.chart_service.specs.EditGroups.{IsEditReply};
ghost use Rattle.chart_service.specs.Faulting.{step_fault};
ghost use Rattle.chart_service.specs.LastShown.{LastsBy, OfRowsLine};
ghost use Rattle.chart_service.specs.Opening.{OpensBy};
ghost use Rattle.chart_service.specs.Replies.{line_text};
ghost use Rattle.chart_service.specs.Shown as shown;
ghost use Rattle.chart_service.specs.Stepping.{NamesBad, IsOutside, Steps};
ghost use Rattle.chart_service.specs.Serving.{most_ahead};
ghost use Rattle.chart_service.specs.Syncing.{edit_of, group_syncs};
ghost use Rattle.chart_world.specs.Faults.{CountsFault, fault_in};
ghost use Rattle.gate_pages.specs.Pages.{GoesOn};
ghost use Rattle.live_service.specs.Blaming.{PushBlamed};
ghost use Rattle.live_service.specs.Kinds.{MayAnswerLive, MayPush};
ghost use Rattle.live_service.specs.LiveReplies.{GroupReplied, LiveReplied, Pushed};
ghost use Rattle.live_service.specs.Pushing.{followed_after};
ghost use Rattle.live_service.specs.Shown as its;
ghost use Rattle.live_view.specs.Following.{ShowsOneOf};
ghost use Rattle.live_view.specs.Live as follows;
ghost use Rattle.series_book.specs.Edits.{IsEdit};
ghost use Rattle.series_store.specs.Results.{IsUnchanged};

use crate::stepper::ServiceStepper;
use chart_frames::Frame;
use chart_service::ServiceError;
use gate_pages::PageWorld;
use live_view::{Live, LiveFault};
use series_book::Edit;

/// Answers a line, as `LiveReplied` says over each book for which the pages stand: they stand afterwards for the
/// book that the reply leaves. Pushes may be pending then. After `NoMemory` nothing was committed, and after an
/// error no push is pending.
pub fn step_line<P: PageWorld>(
    live: &mut Live<ServiceStepper<P>>,
    line: &[u8],
) -> Result<Frame, ServiceError>
    requires idle { follows.IsIdle live.old }
    requires sound { (its.view live.old).fit }
    ensures reply { its.ForBook live.old (λ total book. IfOk result
        (its.AnswersSo (LiveReplied (line_text line.now)) total book live.old live.new)) }
    ensures standing { its.ForBook live.old (λ total book. IfErr result IsOutside) }
    // a crash at any moment leaves the book from before, or the one that the reply leaves
    ensures moments { its.ForBook live.old (λ total book. its.PassesBy (LiveReplied (line_text line.now)) total book live.old live.new) }
    ensures reads { its.ForBook live.old (λ total book. its.ReadsFewFor (line_text line.now) total book live.old live.new) }
    // whatever the pages are
    ensures fits { IfOk result Fits }
    // a frame is of the kind, and in the session, that its line asks for
    ensures may { IfOk result (λ frame. MayAnswerLive (line_text line.now) frame) }
    // the sessions are followed that the lines and their frames say
    ensures followed { IfOk result (λ frame. follows.followed live.new ≡ followed_after (line_text line.now) frame
        (follows.followed live.old)) }
    // the last view of each session is of a series that the line and its frame show
    ensures lasts { IfOk result (λ frame. LastsBy (OfRowsLine (line_text line.now)) frame (shown.sessions (its.service live.old))
        (shown.sessions (its.service live.new))) }
    ensures opens { IfOk result (λ frame. OpensBy frame (shown.sessions (its.service live.old)) (shown.sessions (its.service live.new))) }
    ensures ended { IfErr result (λ error. follows.IsIdle live.new) }
    ensures unchanged { CommitsOnly result (its.service live.old) (its.service live.new) }
    // a line that spells no edit commits nothing
    ensures idle { edit_of (line_text line.now) ≡ []
        → IsUnchanged (shown.IsTold (its.service live.old)) (its.view live.old) (its.view live.new) }
    ensures disk { result ≡ Err ServiceError.DiskFault → HasRisen (its.view live.old).faults (its.view live.new).faults }
    ensures faults { CountsFault (fault_in step_fault result) (its.view live.old) (its.view live.new) }
    ensures bad { IfErr result (NamesBad (shown.IsTold (its.service live.new)) (its.view live.new).size (its.view live.new).image) }
    // a page that is called damaged is so for the line, by the series that the sessions show last
    ensures blames { IfErr result (LineBlamed (line_text line.now) (its.service live.old) (its.service live.new)) }
    ensures steps { Steps (shown.IsTold (its.service live.old)) (shown.IsTold (its.service live.new)) (its.view live.old)
        (its.view live.new) }
    ensures goes_on { GoesOn (shown.under (its.service live.old)) (shown.under (its.service live.new)) }
    ensures sound { OnOk result (its.view live.new).fit }
    ensures total { shown.total (its.service live.new) ≡ shown.total (its.service live.old) }
{
    match live.step_line(line) {
        Ok(frame) => Ok(frame),
        Err(LiveFault::Stepper(error)) => Err(error),
        Err(LiveFault::NoMemory) => Err(ServiceError::NoMemory),
    }
}

/// Does 1 to 64 edits together, as `GroupReplied` says over each book for which the pages stand. Pushes may be pending then.
/// After an error some first edits are done, whose frames aren't given, and no push is pending.
pub fn step_edits<P: PageWorld>(
    live: &mut Live<ServiceStepper<P>>,
    edits: &[Edit],
) -> Result<Vec<Frame>, ServiceError>
    requires idle { follows.IsIdle live.old }
    requires sound { (its.view live.old).fit }
    requires some { 0 < length edits.now }
    requires few { length edits.now ≤ most_ahead }
    requires are_edits { All IsEdit edits.now }
    ensures reply { its.ForBook live.old (λ total book. IfOk result
        (λ frames. its.StandsSo total live.new (GroupReplied edits.now frames.items (its.state live.old total book)))) }
    ensures standing { its.ForBook live.old (λ total book. IfErr result IsOutside) }
    // the book after some first of these edits stays after an error
    ensures left { its.ForBook live.old (λ total book. result ≢ Err ServiceError.DiskFault
        → its.DoesSome edits.now (its.state live.old total book) (its.view live.new).image) }
    // and a crash at any moment leaves it
    ensures moments { its.ForBook live.old (λ total book. shown.PassesTo (its.DoesSome edits.now (its.state live.old total book))
        (its.service live.old) (its.service live.new)) }
    ensures reads { its.ForBook live.old (λ total book. (its.view live.new).reads ≤ (its.view live.old).reads + 96 * length edits.now) }
    // they are committed together, and what their pages fill by themselves
    ensures syncs { its.ForBook live.old (λ total book.
        (its.view live.new).syncs ≤ (its.view live.old).syncs + group_syncs total book edits.now) }
    // whatever the pages are
    ensures each { IfOk result (λ frames. length frames.items ≡ length edits.now) }
    ensures fits { IfOk result (λ frames. All Fits frames.items) }
    ensures replies { IfOk result (λ frames. All IsEditReply frames.items) }
    ensures ended { IfErr result (λ error. follows.IsIdle live.new) }
    ensures sessions { shown.sessions (its.service live.new) ≡ shown.sessions (its.service live.old) }
    ensures followed { follows.followed live.new ≡ follows.followed live.old }
    ensures disk { result ≡ Err ServiceError.DiskFault → HasRisen (its.view live.old).faults (its.view live.new).faults }
    ensures faults { CountsFault (fault_in step_fault result) (its.view live.old) (its.view live.new) }
    ensures bad { IfErr result (NamesBad (shown.IsTold (its.service live.new)) (its.view live.new).size (its.view live.new).image) }
    // a page that is called damaged is so for an edit
    ensures blames { IfErr result (NamesBadForEdit (shown.IsTold (its.service live.new)) (its.view live.new).size
        (its.view live.new).image) }
    ensures moves { shown.MovesSo (its.service live.old) (its.service live.new) }
    ensures goes_on { GoesOn (shown.under (its.service live.old)) (shown.under (its.service live.new)) }
    ensures sound { result ≢ Err ServiceError.DiskFault → (its.view live.new).fit }
    ensures total { shown.total (its.service live.new) ≡ shown.total (its.service live.old) }
{
    match live.step_edits(edits) {
        Ok(frames) => Ok(frames),
        Err(LiveFault::Stepper(error)) => Err(error),
        Err(LiveFault::NoMemory) => Err(ServiceError::NoMemory),
    }
}

/// Makes the next pending push, as `Pushed` says; `None` exactly where none is pending. It commits nothing, so a
/// crash leaves what it might have left before.
pub fn push<P: PageWorld>(live: &mut Live<ServiceStepper<P>>) -> Result<Option<Frame>, ServiceError>
    requires { (its.view live.old).fit }
    ensures none { (result ≡ Ok None) ↔ follows.IsIdle live.old }
    ensures same { IfOk result (λ some. IfNone some (follows.Stays live.old live.new)) }
    ensures fewer { IfOk result (λ some. IfSome some (λ _. length (follows.pending live.new) < length (follows.pending live.old))) }
    ensures reply { its.ForBook live.old (λ total book. IfOk result
        (λ some. IfSome some (its.AnswersSo Pushed total book live.old live.new))) }
    ensures standing { its.ForBook live.old (λ total book. IfErr result IsOutside) }
    ensures reads { its.ForBook live.old (λ total book. its.ReadsNext total book live.old live.new) }
    // whatever the pages are
    ensures fits { IfOk result (λ some. IfSome some Fits) }
    ensures may { IfOk result (λ some. IfSome some MayPush) }
    // a push is no refusal: it shows a view of a followed session
    ensures shows { IfOk result (λ some. IfSome some (ShowsOneOf (follows.followed live.old))) }
    ensures followed { OnOk result (follows.followed live.new ≡ follows.followed live.old) }
    ensures opens { IfOk result (λ some. IfSome some
        (λ frame. OpensBy frame (shown.sessions (its.service live.old)) (shown.sessions (its.service live.new)))) }
    ensures lasts { IfOk result (λ some. IfSome some
        (λ frame. LastsBy (λ was. was) frame (shown.sessions (its.service live.old)) (shown.sessions (its.service live.new)))) }
    ensures moments { shown.PassesTo (Now (its.view live.old)) (its.service live.old) (its.service live.new) }
    ensures unchanged { IsUnchanged (shown.IsTold (its.service live.old)) (its.view live.old) (its.view live.new) }
    ensures disk { result ≡ Err ServiceError.DiskFault → HasRisen (its.view live.old).faults (its.view live.new).faults }
    ensures faults { CountsFault (fault_in step_fault result) (its.view live.old) (its.view live.new) }
    ensures bad { IfErr result (NamesBad (shown.IsTold (its.service live.new)) (its.view live.new).size (its.view live.new).image) }
    // a page that is called damaged is one of the tree of the series that a followed session shows last
    ensures blames { IfErr result (PushBlamed live.old live.new) }
    ensures steps { Steps (shown.IsTold (its.service live.old)) (shown.IsTold (its.service live.new)) (its.view live.old)
        (its.view live.new) }
    ensures goes_on { GoesOn (shown.under (its.service live.old)) (shown.under (its.service live.new)) }
    ensures sound { OnOk result (its.view live.new).fit }
    ensures total { shown.total (its.service live.new) ≡ shown.total (its.service live.old) }
{
    match live.push() {
        Ok(pushed) => Ok(pushed),
        Err(LiveFault::Stepper(error)) => Err(error),
        Err(LiveFault::NoMemory) => Err(ServiceError::NoMemory),
    }
}
