//! A service answers requests, lines, and repeats of views.
ghost use Rattle.std.specs.Prelude.{◌≡◌, ◌≤◌, [], All, Some, IfOk, IfErr, IsTrue, OnErr, OnOk, is_some};
ghost use Rattle.block_disk.specs.Counts.{HasRisen};
ghost use Rattle.block_disk.specs.View.{Now};
ghost use Rattle.chart_frames.specs.Frames.{Fits};
ghost use Rattle.chart_world.specs.Faults.{CountsFault, fault_in};
ghost use Rattle.gate_pages.specs.Pages.{GoesOn};
ghost use Rattle.request_lines.specs.Requests.{IsInRange};
ghost use Rattle.series_book.specs.Edits.{apply};
ghost use Rattle.series_store.specs.Results.{IsUnchanged, KeepsBook, CommitsNone};
ghost use Rattle.chart_service.specs.Alone.{session_in, session_named};
ghost use Rattle.chart_service.specs.Faulting.{step_fault};
ghost use Rattle.chart_service.specs.Kinds.{KeepsSessions, MayAnswer, MayAnswerLine, MayShow};
ghost use Rattle.chart_service.specs.LastShown.{LastsBy, OfRows, OfRowsLine};
ghost use Rattle.chart_service.specs.Opening.{OpensBy, LosesAtMost, StaysIn};
ghost use Rattle.zoom_session.specs.Sessions.{session_of, last_of};
ghost use Rattle.chart_service.specs.Replies.{Replied, line_text, own_zoom};
ghost use Rattle.chart_service.specs.Stepping.{RepliedTo, NamesBad, IsOutside, Steps, ReadsFew};
ghost use Rattle.chart_service.specs.Called.{AnswersSo, CommitsOnly, ForLast, IsCause, IsCauseOfLine, LineBlamed, ReadsFewAgain};
ghost use Rattle.chart_service.specs.Called.{ReadsFewFor, RequestBlamed};
ghost use Rattle.chart_service.specs.Rooms.{HasRoom, KeepRooms, LeavesLine, LeavesOpen, TellsIn};
ghost use Rattle.chart_service.specs.Shown as shown;
ghost use Rattle.chart_service.specs.Syncing.{edit_asked, edit_of};

use crate::failure::ServiceError;
use crate::refusals::refused;
use crate::service::Service;
use chart_frames::Frame;
use gate_pages::Pages;
use request_lines::{LineError, Request, parse_line};
use series_book::Refusal;

/// The most bytes of a line.
const LONGEST_LINE: usize = 8_192;

impl<P: Pages> Service<P> {
    /// Answers a request. Where the pages stand for a book, the reply is that of the book, and they stand
    /// afterwards for the book that it leaves.
    ///
    /// `DiskFault` comes only where the count of faults rose: then the store may be unsound, and has to be
    /// opened again. `Damaged` never comes where the pages stand for a book. With it and with `NoMemory`
    /// nothing was committed. After an error the session that the request names may be closed.
    pub fn step(&mut self, request: &Request) -> Result<Frame, ServiceError>
        requires sound { (shown.view self.old).fit }
        requires range { IsInRange request.now }
        ensures reply { shown.ForBook self.old (λ total book. IfOk result
            (AnswersSo (RepliedTo request.now) total book self.old self.new)) }
        ensures standing { shown.ForBook self.old (λ total book. IfErr result IsOutside) }
        // a crash at any moment leaves the book from before, or the one that the reply leaves
        ensures moments { shown.ForBook self.old (λ total book. shown.PassesBy (RepliedTo request.now) total book self.old self.new) }
        ensures reads { shown.ForBook self.old (λ total book. ReadsFew request.now book self.old.sessions (shown.view self.old).reads
            (shown.view self.new).reads) }
        // whatever the pages are
        ensures fits { IfOk result Fits }
        ensures opens { IfOk result (λ frame. OpensBy frame self.old.sessions self.new.sessions) }
        ensures sessions { OnErr result (LosesAtMost (session_in request.now) self.old.sessions self.new.sessions) }
        ensures kept { KeepsSessions result self.old.sessions self.new.sessions }
        // a reply is of the kind, and in the session, that its request asks for
        ensures may { IfOk result (λ frame. MayAnswer request.now frame) }
        // a client with room for its session's last view keeps it, unless the session is opened, closed or viewed anew
        ensures leaves { OnOk result (LeavesOpen request.now self.old.sessions self.new.sessions) }
        // a session's last view is of the series that frames tell, behind rows of one that their request may show
        ensures lasts { IfOk result (λ frame. LastsBy (OfRows request.now) frame self.old.sessions self.new.sessions) }
        ensures unchanged { CommitsOnly result self.old self.new }
        // a request that is no edit commits nothing
        ensures idle { edit_asked request.now ≡ [] → IsUnchanged (shown.IsTold self.old) (shown.view self.old) (shown.view self.new) }
        // nor does an edit that leaves the book as it is
        ensures same_book { shown.ForBook self.old (λ total book. All (λ e. KeepsBook book (apply book total e)) (edit_asked request.now)
            → CommitsNone (shown.view self.old) (shown.view self.new)) }
        ensures cause { IfErr result (IsCause request.now self.old self.new) }
        ensures faults { CountsFault (fault_in step_fault result) (shown.view self.old) (shown.view self.new) }
        ensures bad { IfErr result (NamesBad (shown.IsTold self.new) (shown.view self.new).size (shown.image self.new)) }
        ensures steps { Steps (shown.IsTold self.old) (shown.IsTold self.new) (shown.view self.old) (shown.view self.new) }
        ensures goes_on { GoesOn (shown.under self.old) (shown.under self.new) }
        ensures sound { OnOk result (shown.view self.new).fit }
        ensures total { shown.total self.new ≡ shown.total self.old }
    {
        match request {
            Request::Edit(edit) => self.edit(edit),
            _ => {
                let reply = self.look(request);
                self.is_sound();
                reply
            }
        }
    }

    /// Answers a line. A line of more than 8,192 bytes is refused as too long, and one that spells no
    /// request as bad at the offset of its fault. Else as `step`.
    pub fn step_line(&mut self, line: &[u8]) -> Result<Frame, ServiceError>
        requires { (shown.view self.old).fit }
        ensures reply { shown.ForBook self.old (λ total book. IfOk result
            (AnswersSo (Replied (line_text line.now)) total book self.old self.new)) }
        ensures standing { shown.ForBook self.old (λ total book. IfErr result IsOutside) }
        // a crash at any moment leaves the book from before, or the one that the reply leaves
        ensures moments { shown.ForBook self.old (λ total book. shown.PassesBy
            (Replied (line_text line.now)) total book self.old self.new) }
        ensures reads { shown.ForBook self.old (λ total book. ReadsFewFor (line_text line.now) total book self.old self.new) }
        // whatever the pages are
        ensures fits { IfOk result Fits }
        ensures opens { IfOk result (λ frame. OpensBy frame self.old.sessions self.new.sessions) }
        ensures sessions { OnErr result (LosesAtMost (session_named (line_text line.now)) self.old.sessions self.new.sessions) }
        ensures kept { KeepsSessions result self.old.sessions self.new.sessions }
        ensures may { IfOk result (λ frame. MayAnswerLine (line_text line.now) frame) }
        ensures leaves { OnOk result (LeavesLine (line_text line.now) self.old.sessions self.new.sessions) }
        ensures lasts { IfOk result (λ frame. LastsBy (OfRowsLine (line_text line.now)) frame self.old.sessions self.new.sessions) }
        ensures unchanged { CommitsOnly result self.old self.new }
        ensures idle { edit_of (line_text line.now) ≡ [] → IsUnchanged (shown.IsTold self.old) (shown.view self.old) (shown.view self.new) }
        ensures cause { IfErr result (IsCauseOfLine (line_text line.now) self.old self.new) }
        // by page 0 and the catalog of the pages, and by the series that the sessions show last
        ensures blames { IfErr result (LineBlamed (line_text line.now) self.old self.new) }
        ensures disk { result ≡ Err ServiceError.DiskFault → HasRisen (shown.view self.old).faults (shown.view self.new).faults }
        ensures faults { CountsFault (fault_in step_fault result) (shown.view self.old) (shown.view self.new) }
        ensures bad { IfErr result (NamesBad (shown.IsTold self.new) (shown.view self.new).size (shown.image self.new)) }
        ensures steps { Steps (shown.IsTold self.old) (shown.IsTold self.new) (shown.view self.old) (shown.view self.new) }
        ensures goes_on { GoesOn (shown.under self.old) (shown.under self.new) }
        ensures sound { OnOk result (shown.view self.new).fit }
        ensures total { shown.total self.new ≡ shown.total self.old }
    {
        self.is_sound();
        if line.len() > LONGEST_LINE {
            return Ok(refused(Refusal::LineTooLong));
        }
        match parse_line(self.alloc, line) {
            Ok(request) => self.step(&request),
            Err(LineError::BadLine { at }) => Ok(refused(Refusal::BadLine { at })),
            Err(LineError::NoMemory) => Err(ServiceError::NoMemory),
        }
    }

    /// Answers a zoom of a session to the window of the view that it was answered last. Else as `step`.
    /// Nothing is committed, and other sessions stay as they are.
    pub fn repeat(&mut self, session: u32) -> Result<Frame, ServiceError>
        requires sound { (shown.view self.old).fit }
        requires number { 1 ≤ session }
        requires viewed { IsTrue (is_some (last_of (session_of session self.old.sessions))) }
        ensures reply { ForLast session self.old (λ last. shown.ForBook self.old
            (λ total book. IfOk result (AnswersSo (RepliedTo (own_zoom session last)) total book self.old self.new))) }
        ensures standing { shown.ForBook self.old (λ total book. IfErr result IsOutside) }
        ensures reads { ReadsFewAgain session self.old self.new }
        // whatever the pages are
        ensures fits { IfOk result Fits }
        ensures opens { IfOk result (λ frame. OpensBy frame self.old.sessions self.new.sessions) }
        ensures sessions { OnErr result (LosesAtMost (Some session) self.old.sessions self.new.sessions) }
        ensures kept { KeepsSessions result self.old.sessions self.new.sessions }
        ensures may { IfOk result (λ frame. MayShow session frame) }
        // a view for which there is room is told, and not refused
        ensures tells { HasRoom self.old.sessions session → IfOk result (TellsIn session) }
        ensures rooms { OnOk result (KeepRooms self.old.sessions self.new.sessions) }
        ensures lasts { IfOk result (λ frame. LastsBy (λ was. was) frame self.old.sessions self.new.sessions) }
        ensures stays { StaysIn session result self.old.sessions self.new.sessions }
        // a crash leaves what it might have left before
        ensures moments { shown.PassesTo (Now (shown.view self.old)) self.old self.new }
        ensures idle { IsUnchanged (shown.IsTold self.old) (shown.view self.old) (shown.view self.new) }
        ensures cause { ForLast session self.old (λ last. IfErr result (IsCause (own_zoom session last) self.old self.new)) }
        ensures blames { ForLast session self.old (λ last. IfErr result (RequestBlamed (own_zoom session last) self.old self.new)) }
        ensures faults { CountsFault (fault_in step_fault result) (shown.view self.old) (shown.view self.new) }
        ensures bad { IfErr result (NamesBad (shown.IsTold self.new) (shown.view self.new).size (shown.image self.new)) }
        ensures steps { Steps (shown.IsTold self.old) (shown.IsTold self.new) (shown.view self.old) (shown.view self.new) }
        ensures goes_on { GoesOn (shown.under self.old) (shown.under self.new) }
        ensures sound { OnOk result (shown.view self.new).fit }
        ensures total { shown.total self.new ≡ shown.total self.old }
    {
        let Some(last) = self.last_view(session) else {
            unreachable!()
        };
        let t0 = i128::from(last.grid.t0());
        let t1 = i128::from(last.grid.t1());
        let reply = self.zoom(session, t0, t1);
        self.is_sound();
        reply
    }
}
