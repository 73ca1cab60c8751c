//! A line is answered at a store.
ghost use Rattle.std.specs.Prelude.{◌≡◌, ◌≤◌, ◌+◌, IfErr, IfOk, IsTrue, false};
ghost use Rattle.chart_frames.specs.Frames.{Fits};
ghost use Rattle.chart_grid.specs.Limits.{IsBadWindow, IsWindow};
ghost use Rattle.chart_service.specs.Faulting.{step_fault};
ghost use Rattle.chart_service.specs.Stepping.{IsOutside};
ghost use Rattle.chart_world.specs.Faults.{CountsFault, fault_in};
ghost use Rattle.host_lines.specs.declared.asked.HostLine.TheVariants.{List as ListLine, Sum, Values};
ghost use Rattle.retention.specs.Moving.{LooksOnly};
ghost use Rattle.series_store.specs.Shown as stored;
ghost use Rattle.host_replies.specs.Reading.{MayRead, Reads, read_error};
ghost use Rattle.host_replies.specs.Replies.{IsCatalog, IsReportCause, MayTellValues, Tells};

use chart_frames::{Frame, Report};
use chart_grid::Grid;
use chart_service::{ServiceError, refused};
use gate_pages::Pages;
use host_lines::HostLine;
use host_reports::{catalog_frame, values_frame};
use series_book::{Name, Refusal};
use series_store::{Store, StoreError};
use session_sums::sum_frame;
use std::alloc::Global;

/// What an error of a read is for the line.
fn read_error(error: StoreError) -> ServiceError
    ensures { result ≡ read_error error }
{
    match error {
        StoreError::DiskFault => ServiceError::DiskFault,
        StoreError::Damaged { page } => ServiceError::Damaged { page },
        StoreError::Refused(_) | StoreError::NotAStore | StoreError::NoMemory => {
            ServiceError::NoMemory
        }
    }
}

/// Whether no view may have this window.
fn is_bad_window(t0: i128, t1: i128) -> bool
    ensures bad { IsTrue result → IsBadWindow t0 t1 }
    ensures good { result ≡ false → IsWindow t0 t1 }
{
    Grid::new(t0, t1, 1, 1).is_err()
}

/// The frame of the catalog.
fn list_reply<P: Pages>(alloc: Global, store: &Store<P>) -> Result<Frame, ServiceError>
    ensures reply { stored.ForSoundBook store.now (λ total book. IfOk result (Tells ListLine total book)) }
    ensures fits { IfOk result Fits }
    ensures may { IfOk result IsCatalog }
    ensures error { IfErr result (λ e. e ≡ ServiceError.NoMemory) }
{
    match catalog_frame(alloc, store) {
        Ok(catalog) => Ok(Frame::Report(Report::Catalog(catalog))),
        Err(_) => Err(ServiceError::NoMemory),
    }
}

/// The frame of the values of the series of a name in a window, as far as its first piece goes.
fn values_reply<P: Pages>(
    alloc: Global,
    store: &mut Store<P>,
    name: &Name,
    t0: i128,
    t1: i128,
) -> Result<Frame, ServiceError>
    requires sound { stored.IsSound store.old }
    ensures reply { stored.ForBook store.old (λ total book. IfOk result (Tells (Values name.now t0 t1) total book)) }
    ensures standing { stored.ForBook store.old (λ total book. IfErr result IsOutside) }
    ensures fits { IfOk result Fits }
    ensures may { IfOk result MayTellValues }
    ensures looks { LooksOnly store.old store.new }
    ensures reads { (stored.view store.new).reads ≤ (stored.view store.old).reads + 36 }
    ensures cause { IfErr result (λ e. IsReportCause (Values name.now t0 t1) e (stored.IsTold store.new) (stored.view store.old)
        (stored.view store.new)) }
    ensures faults { CountsFault (fault_in step_fault result) (stored.view store.old) (stored.view store.new) }
{
    let Some(info) = store.series(name) else {
        return Ok(refused(Refusal::UnknownSeries));
    };
    if is_bad_window(t0, t1) {
        return Ok(refused(Refusal::BadWindow));
    }
    match values_frame(alloc, store, info.id, t0, t1) {
        Ok(values) => Ok(Frame::Report(Report::Values(values))),
        Err(error) => Err(read_error(error)),
    }
}

/// The frame that answers a line, whose session is open if it names one.
pub(crate) fn reply_at<P: Pages>(
    alloc: Global,
    store: &mut Store<P>,
    asked: &HostLine,
) -> Result<Frame, ServiceError>
    requires { MayRead asked.now store.old }
    ensures { Reads asked.now store.old store.new result }
{
    match asked {
        HostLine::List => list_reply(alloc, &*store),
        HostLine::Values { name, t0, t1 } => values_reply(alloc, store, name, *t0, *t1),
        HostLine::Sum { session, request } => sum_frame(alloc, store, *session, request),
        HostLine::Bad { at } => Ok(refused(Refusal::BadLine { at: *at })),
        HostLine::Sweep(_) | HostLine::Other => unreachable!(),
    }
}
