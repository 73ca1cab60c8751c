//! A line that asks for a report is answered.
ghost use Rattle.std.specs.Prelude.{◌≡◌, IfErr, IfOk};
ghost use Rattle.chart_frames.specs.Frames.{Fits};
ghost use Rattle.chart_service.specs.Called.{LooksOnly};
ghost use Rattle.chart_service.specs.Faulting.{step_fault};
ghost use Rattle.chart_service.specs.Opening.{OpensBy};
ghost use Rattle.chart_service.specs.Shown as shown;
ghost use Rattle.chart_service.specs.Stepping.{IsOutside};
ghost use Rattle.chart_world.specs.Faults.{CountsFault, fault_in};
ghost use Rattle.host_lines.specs.Grammar.{IsInRange};
ghost use Rattle.host_replies.specs.Replies.{AsksReport, IsReportCause, MayReport, ReadsReport, ReadsReportOver, Reported, has_session};

use crate::report_work::ReportWork;
use chart_frames::Frame;
use chart_service::{Service, ServiceError, refused};
use gate_pages::Pages;
use host_lines::HostLine;
use series_book::Refusal;
use std::alloc::Global;

/// Whether the session that a line names is open, if it names one.
fn has_session<P: Pages>(service: &Service<P>, asked: &HostLine) -> bool
    ensures { result ≡ has_session asked.now (shown.sessions service.now) }
{
    match asked {
        HostLine::Sum { session, .. } => service.cache(*session).is_some(),
        _ => true,
    }
}

/// Answers a line that asks for the list, for values or for a sum, or that is bad. Where the pages stand for a book, the
/// reply is that of the book and of the open sessions. Nothing is written, and the sessions stay.
///
/// Refused are a bad line (2), a sum for a session that isn't open (4), values of a series that isn't there (8) or of a
/// window that no view may have (17), and a sum as `session_sums` says. `DiskFault` comes only where the count of faults
/// rose, and `Damaged` never where the pages stand for a book.
pub fn answer_report<P: Pages>(
    alloc: Global,
    service: &mut Service<P>,
    asked: &HostLine,
) -> Result<Frame, ServiceError>
    requires sound { (shown.view service.old).fit }
    requires report { AsksReport asked.now }
    requires range { IsInRange asked.now }
    ensures reply { shown.ForBook service.old (λ total book. IfOk result
        (λ frame. Reported asked.now frame (shown.state service.old total book))) }
    ensures standing { shown.ForBook service.old (λ total book. IfErr result IsOutside) }
    // whatever the pages are
    ensures fits { IfOk result Fits }
    ensures may { IfOk result (MayReport asked.now) }
    ensures opens { IfOk result (λ frame. OpensBy frame (shown.sessions service.old) (shown.sessions service.new)) }
    ensures sessions { shown.sessions service.new ≡ shown.sessions service.old }
    ensures looks { LooksOnly service.old service.new }
    ensures reads { ReadsReport asked.now (shown.view service.old).reads (shown.view service.new).reads }
    ensures reads_over { shown.ForBook service.old (λ total book. ReadsReportOver book asked.now (shown.view service.old).reads
        (shown.view service.new).reads) }
    ensures cause { IfErr result (λ e. IsReportCause asked.now e (shown.IsTold service.new) (shown.view service.old)
        (shown.view service.new)) }
    ensures faults { CountsFault (fault_in step_fault result) (shown.view service.old) (shown.view service.new) }
{
    if !has_session(&*service, asked) {
        return Ok(refused(Refusal::UnknownSession));
    }
    service.with_store(&mut ReportWork { alloc, asked })
}
