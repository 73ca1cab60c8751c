//! A service does edits together.
ghost use Rattle.std.specs.Prelude.{◌≡◌, ◌≢◌, ◌≤◌, ◌<◌, ◌+◌, ◌*◌, ◌++◌, All, length, map, IfOk, IfErr, OnOk};
ghost use Rattle.block_disk.specs.Counts.{HasRisen};
ghost use Rattle.chart_frames.specs.Frames.{Fits};
ghost use Rattle.chart_world.specs.Faults.{CountsFault, fault_in};
ghost use Rattle.gate_pages.specs.Pages.{GoesOn};
ghost use Rattle.series_book.specs.declared.limits.TheConstants.{MOST_SLOTS};
ghost use Rattle.series_book.specs.Books.{IsNamed};
ghost use Rattle.series_book.specs.Edits.{IsEdit};
ghost use Rattle.series_store.specs.Groups.{ChangeNone, HaveFewSlots, answer_of};
ghost use Rattle.series_store.specs.Results.{CommitsNone};
ghost use Rattle.chart_service.specs.EditDamage.{NamesBadForEdit};
ghost use Rattle.chart_service.specs.EditGroups.{AnswersSome, DoesSome, IsAfterSome, IsEditReply, IsOfGroup, ReadsByFrames, RepliesToEdits};
ghost use Rattle.chart_service.specs.EditGroups.{frame_of, frames_of, group_end};
ghost use Rattle.chart_service.specs.Faulting.{step_fault};
ghost use Rattle.chart_service.specs.Serving.{most_ahead};
ghost use Rattle.chart_service.specs.Stepping.{IsOutside, NamesBad};
ghost use Rattle.chart_service.specs.Syncing.{group_syncs};
ghost use Rattle.chart_service.specs.Shown as shown;

use crate::failure::ServiceError;
use crate::refusals::refused;
use crate::service::Service;
use chart_frames::Frame;
use gate_pages::Pages;
use series_book::{Edit, Outcome, Refusal};
use series_store::StoreError;

impl<P: Pages> Service<P> {
    /// Does 1 to 64 edits, one after the other, in as few commits as the store allows, and answers each by
    /// its frame, `Done` or `Refused`.
    ///
    /// The errors come as those of `step`. After one of them some first edits are done, whose frames aren't
    /// given; after `DiskFault` the store has to be opened again.
    pub fn step_edits(&mut self, edits: &[Edit]) -> Result<Vec<Frame>, ServiceError>
        requires sound { (shown.view self.old).fit }
        requires some { 0 < length edits.now }
        requires few { length edits.now ≤ most_ahead }
        requires are_edits { All IsEdit edits.now }
        ensures reply { shown.ForBook self.old (λ total book. IfOk result
            (λ frames. shown.StandsSo total self.new (RepliesToEdits edits.now frames.items (shown.state self.old total book)))) }
        ensures standing { shown.ForBook self.old (λ total book. IfErr result IsOutside) }
        // the book after some first of these edits stays after an error
        ensures left { shown.ForBook self.old (λ total book. result ≢ Err ServiceError.DiskFault
            → AnswersSome edits.now (shown.state self.old total book) (shown.image self.new)) }
        // and a crash at any moment leaves it
        ensures moments { shown.ForBook self.old (λ total book. shown.PassesTo
            (AnswersSome edits.now (shown.state self.old total book)) self.old self.new) }
        ensures reads { shown.ForBook self.old (λ total book.
            (shown.view self.new).reads ≤ (shown.view self.old).reads + 96 * length edits.now) }
        // edits that are refused, or leave the book as it is, write and sync nothing
        ensures idle { shown.ForBook self.old (λ total book. OnOk result (ChangeNone total book edits.now
            → CommitsNone (shown.view self.old) (shown.view self.new))) }
        // they are committed together, and what their pages fill by themselves
        ensures syncs { shown.ForBook self.old (λ total book.
            (shown.view self.new).syncs ≤ (shown.view self.old).syncs + group_syncs total book edits.now) }
        // whatever the pages are
        ensures each { IfOk result (λ frames. length frames.items ≡ length edits.now) }
        ensures fits { IfOk result (λ frames. All Fits frames.items) }
        ensures replies { IfOk result (λ frames. All IsEditReply frames.items) }
        ensures sessions { self.new.sessions ≡ self.old.sessions }
        ensures disk { result ≡ Err ServiceError.DiskFault → HasRisen (shown.view self.old).faults (shown.view self.new).faults }
        ensures faults { CountsFault (fault_in step_fault result) (shown.view self.old) (shown.view self.new) }
        ensures bad { IfErr result (NamesBad (shown.IsTold self.new) (shown.view self.new).size (shown.image self.new)) }
        ensures blames { IfErr result (NamesBadForEdit (shown.IsTold self.new) (shown.view self.new).size (shown.image self.new)) }
        ensures moves { shown.MovesSo self.old self.new }
        ensures goes_on { GoesOn (shown.under self.old) (shown.under self.new) }
        ensures sound { result ≢ Err ServiceError.DiskFault → (shown.view self.new).fit }
        ensures total { shown.total self.new ≡ shown.total self.old }
    {
        // These bring in what holds of the book, of the sessions and of the names.
        self.is_sound();
        read_names(edits);
        let mut frames = Vec::new(self.alloc);
        'edits: while frames.len() < edits.len() {
            self.edit_some(&edits[frames.len()..], &mut frames)?;
        }
        Ok(frames)
    }

    /// Does some first of the edits, in one commit, and puts their frames behind the others.
    fn edit_some(&mut self, edits: &[Edit], frames: &mut Vec<Frame>) -> Result<(), ServiceError>
        requires sound { (shown.view self.old).fit }
        requires some { 0 < length edits.now }
        requires are_edits { All IsEdit edits.now }
        ensures done { shown.ForBook self.old (λ total book. OnOk result
            (DoesSome total book edits.now frames.old.items frames.new.items (shown.image self.new))) }
        ensures standing { shown.ForBook self.old (λ total book. IfErr result IsOutside) }
        ensures left { shown.ForBook self.old (λ total book. result ≢ Err ServiceError.DiskFault
            → IsAfterSome total book edits.now (shown.image self.new)) }
        ensures moments { shown.ForBook self.old (λ total book. shown.PassesTo (IsAfterSome total book edits.now) self.old self.new) }
        ensures reads { shown.ForBook self.old (λ total book.
            (shown.view self.new).reads ≤ (shown.view self.old).reads + 96 * length edits.now) }
        ensures few_reads { shown.ForBook self.old (λ total book. OnOk result
            (ReadsByFrames frames.old.items frames.new.items (shown.view self.old).reads (shown.view self.new).reads)) }
        ensures idle { shown.ForBook self.old (λ total book. OnOk result (ChangeNone total book edits.now
            → CommitsNone (shown.view self.old) (shown.view self.new))) }
        ensures syncs { (shown.view self.new).syncs ≤ (shown.view self.old).syncs + 4 }
        ensures more { OnOk result (length frames.old.items < length frames.new.items) }
        ensures most { OnOk result (length frames.new.items ≤ length frames.old.items + length edits.now) }
        ensures fits { All Fits frames.old.items → OnOk result (All Fits frames.new.items) }
        ensures replies { All IsEditReply frames.old.items → OnOk result (All IsEditReply frames.new.items) }
        ensures sessions { self.new.sessions ≡ self.old.sessions }
        ensures disk { result ≡ Err ServiceError.DiskFault → HasRisen (shown.view self.old).faults (shown.view self.new).faults }
        ensures quiet { OnOk result ((shown.view self.new).faults ≡ (shown.view self.old).faults) }
        ensures quiet_err { IfErr result (λ e. e ≢ ServiceError.DiskFault → (shown.view self.new).faults ≡ (shown.view self.old).faults) }
        ensures bad { IfErr result (NamesBad (shown.IsTold self.new) (shown.view self.new).size (shown.image self.new)) }
        ensures blames { IfErr result (NamesBadForEdit (shown.IsTold self.new) (shown.view self.new).size (shown.image self.new)) }
        ensures moves { shown.MovesSo self.old self.new }
        ensures goes_on { GoesOn (shown.under self.old) (shown.under self.new) }
        ensures sound { result ≢ Err ServiceError.DiskFault → (shown.view self.new).fit }
        ensures total { shown.total self.new ≡ shown.total self.old }
    {
        let answers = match self.store.edit_group(edits) {
            Ok(answers) => answers,
            Err(error) => return Err(group_error(error)),
        };
        add_frames(answers.as_slice(), frames)
    }
}

/// What an error of a group of edits is for a service. No group is refused.
fn group_error(error: StoreError) -> ServiceError
    requires { IsOfGroup error }
    ensures { result ≡ group_end error }
{
    match error {
        StoreError::DiskFault => ServiceError::DiskFault,
        StoreError::Damaged { page } => ServiceError::Damaged { page },
        StoreError::NoMemory => ServiceError::NoMemory,
        StoreError::Refused(_) | StoreError::NotAStore => unreachable!(),
    }
}

/// Puts the frames that tell these answers behind the others.
fn add_frames(
    answers: &[Result<Outcome, Refusal>],
    frames: &mut Vec<Frame>,
) -> Result<(), ServiceError>
    requires { HaveFewSlots answers.now }
    ensures done { OnOk result (frames.new.items ≡ frames.old.items ++ frames_of (map answer_of answers.now)) }
    ensures fits { All Fits frames.old.items → OnOk result (All Fits frames.new.items) }
    ensures replies { All IsEditReply frames.old.items → OnOk result (All IsEditReply frames.new.items) }
    ensures ends { IfErr result (λ error. error ≡ ServiceError.NoMemory) }
{
    match answers.split_first() {
        Some((answer, later)) => {
            frames.push(answer_frame(answer))?;
            add_frames(later, frames)
        }
        None => Ok(()),
    }
}

/// The frame that tells an answer.
fn answer_frame(answer: &Result<Outcome, Refusal>) -> Frame
    requires { IfOk answer.now (λ outcome. outcome.slots ≤ MOST_SLOTS) }
    ensures frame { result ≡ frame_of (answer_of answer.now) }
    ensures fits { Fits result }
    ensures reply { IsEditReply result }
{
    match answer {
        Ok(outcome) => Frame::Done {
            slots: outcome.slots,
        },
        Err(refusal) => refused(*refusal),
    }
}

/// Reads the names of the series that edits create: each is one that a series may have.
fn read_names(edits: &[Edit])
    ensures { All IsNamed edits.now }
{
    for edit in edits {
        read_name(edit);
    }
}

fn read_name(edit: &Edit)
    ensures { IsNamed edit.now }
{
    if let Edit::Create { name, .. } = edit {
        let _bytes = name.as_slice();
    }
}
