//! A service does edits.
ghost use Rattle.std.specs.Prelude.{◌≡◌, ◌≢◌, ◌≤◌, ◌<◌, ◌+◌, IfOk, IfErr, OnOk};
ghost use Rattle.chart_frames.specs.Frames.{Fits};
ghost use Rattle.gate_pages.specs.Pages.{GoesOn};
ghost use Rattle.series_book.specs.Edits.{IsEdit, apply};
ghost use Rattle.series_store.specs.Results.{KeepsBook, CommitsNone};
ghost use Rattle.request_lines.specs.declared.requests.Request.TheVariants.{Edit as EditRequest};
ghost use Rattle.chart_service.specs.EditGroups.{IsEditReply};
ghost use Rattle.chart_service.specs.Opening.{OpensBy};
ghost use Rattle.chart_service.specs.Stepping.{RepliedTo, IsOutside, Steps};
ghost use Rattle.chart_service.specs.Called.{AnswersSo, CommitsOnly, IsCause};
ghost use Rattle.chart_service.specs.Shown as shown;

use crate::failure::ServiceError;
use crate::refusals::refused;
use crate::service::Service;
use chart_frames::Frame;
use gate_pages::Pages;
use series_book::Edit;
use series_store::StoreError;

impl<P: Pages> Service<P> {
    /// Does an edit, in one commit.
    pub(crate) fn edit(&mut self, edit: &Edit) -> Result<Frame, ServiceError>
        requires sound { (shown.view self.old).fit }
        requires is_edit { IsEdit edit.now }
        ensures reply { shown.ForBook self.old (λ total book. IfOk result
            (AnswersSo (RepliedTo (EditRequest edit.now)) total book self.old self.new)) }
        ensures standing { shown.ForBook self.old (λ total book. IfErr result IsOutside) }
        ensures moments { shown.ForBook self.old (λ total book. shown.PassesBy
            (RepliedTo (EditRequest edit.now)) total book self.old self.new) }
        ensures reads { (shown.view self.new).reads ≤ (shown.view self.old).reads + 96 }
        ensures fits { IfOk result Fits }
        ensures opens { IfOk result (λ frame. OpensBy frame self.old.sessions self.new.sessions) }
        ensures may { IfOk result (λ frame. IsEditReply frame) }
        ensures sessions { self.new.sessions ≡ self.old.sessions }
        ensures unchanged { CommitsOnly result self.old self.new }
        ensures same_book { shown.ForBook self.old (λ total book. KeepsBook book (apply book total edit.now)
            → CommitsNone (shown.view self.old) (shown.view self.new)) }
        ensures cause { IfErr result (IsCause (EditRequest edit.now) self.old self.new) }
        ensures quiet { OnOk result ((shown.view self.new).faults ≡ (shown.view self.old).faults) }
        ensures quiet_err { IfErr result (λ e. e ≢ ServiceError.DiskFault → (shown.view self.new).faults ≡ (shown.view self.old).faults) }
        ensures steps { Steps (shown.IsTold self.old) (shown.IsTold self.new) (shown.view self.old) (shown.view self.new) }
        ensures goes_on { GoesOn (shown.under self.old) (shown.under self.new) }
        ensures sound { OnOk result (shown.view self.new).fit }
        ensures total { shown.total self.new ≡ shown.total self.old }
    {
        // It brings in what holds of the book and of the sessions.
        self.is_sound();
        match self.store.edit(edit) {
            Ok(outcome) => Ok(Frame::Done {
                slots: outcome.slots,
            }),
            Err(StoreError::Refused(refusal)) => Ok(refused(refusal)),
            Err(StoreError::NotAStore) => unreachable!(),
            Err(StoreError::DiskFault) => Err(ServiceError::DiskFault),
            Err(StoreError::Damaged { page }) => Err(ServiceError::Damaged { page }),
            Err(StoreError::NoMemory) => Err(ServiceError::NoMemory),
        }
    }
}
