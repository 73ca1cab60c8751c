//! The frame that answers a request of a sum.
ghost use Rattle.std.specs.Prelude.{◌≡◌, List, All, IfErr, IfOk, IfSome};
ghost use Rattle.chart_frames.specs.Frames.{Fits, IsSession};
ghost use Rattle.chart_service.specs.Faulting.{step_fault};
ghost use Rattle.chart_service.specs.Stepping.{IsOutside};
ghost use Rattle.chart_world.specs.Faults.{CountsFault, fault_in};
ghost use Rattle.derive_command.specs.Requests.{IsFactor};
ghost use Rattle.derived_chart.specs.Rows.{IsOrdered};
ghost use Rattle.m4_groups.specs.Heights.{IsDrawable};
ghost use Rattle.m4_groups.specs.Rows.{AreRising, AreRowsOf};
ghost use Rattle.plain_chart.specs.Samples.{sample_points};
ghost use Rattle.plain_chart.specs.declared.sample.Sample.{Sample};
ghost use Rattle.retention.specs.Moving.{LooksOnly};
ghost use Rattle.series_pair.specs.Derived.{MayShow};
ghost use Rattle.series_store.specs.Shown as shown;
ghost use Rattle.session_sums.specs.Costs.{ReadsAnswer};
ghost use Rattle.session_sums.specs.Sums.{AnswersSum, IsSumCause, MayTellRows, ShowsRows, SumRows, error_reply, refused};

use chart_frames::{Frame, RowsFrame};
use chart_grid::Grid;
use chart_service::ServiceError;
use derive_command::{DeriveRefusal, Request, asked_of};
use gate_pages::Pages;
use m4_groups::Rows;
use plain_chart::ValueRange;
use series_pair::{SumError, rows_of_sum, shown_range};
use series_store::Store;
use std::alloc::Global;

/// The frame of a refusal.
fn refusal_frame(refusal: DeriveRefusal) -> Frame
    ensures frame { result ≡ refused refusal }
    ensures fits { Fits result }
{
    Frame::Refused {
        number: refusal.number(),
        a: 0,
        b: 0,
    }
}

/// What is answered where the rows weren't found.
fn error_reply(error: SumError) -> Result<Frame, ServiceError>
    ensures reply { result ≡ error_reply error }
    ensures fits { IfOk result Fits }
{
    match error {
        SumError::TooLarge { .. } => Ok(refusal_frame(DeriveRefusal::TooLarge)),
        SumError::DiskFault => Err(ServiceError::DiskFault),
        SumError::Damaged { page } => Err(ServiceError::Damaged { page }),
        SumError::NoMemory => Err(ServiceError::NoMemory),
    }
}

/// The frame of these rows on a grid, over the range that is asked for.
fn rows_frame(session: u32, grid: Grid, range: Option<ValueRange>, rows: Rows) -> RowsFrame
    requires session { IsSession session }
    requires range { IfSome range MayShow }
    requires rising { AreRising rows }
    requires drawable { All (IsDrawable grid.w) rows }
    requires ordered { All IsOrdered rows }
    ensures frame { (samples : List Sample) → AreRowsOf grid (sample_points samples) rows
        → ShowsRows session grid range samples rows result }
    ensures fits { Fits (SumRows result) }
    ensures session { result.session ≡ session }
{
    let shown = shown_range(&rows, range);
    RowsFrame {
        session,
        w: grid.w(),
        h: grid.h(),
        lo: shown.lo,
        hi: shown.hi,
        count: rows.as_slice().len() as u16,
        rows,
    }
}

/// The frame that answers a request of a sum for a session: its rows, or the refusal that stands against it. The book, and
/// what the session was answered last, stay.
///
/// `DiskFault` comes only where the count of faults has risen, and `Damaged` never where the pages stand for a book.
pub fn sum_frame<P: Pages>(
    alloc: Global,
    store: &mut Store<P>,
    session: u32,
    request: &Request,
) -> Result<Frame, ServiceError>
    requires sound { shown.IsSound store.old }
    requires a { IsFactor request.now.a }
    requires b { IsFactor request.now.b }
    requires session { IsSession session }
    ensures reply { shown.ForBook store.old (λ total book. IfOk result (AnswersSum book request.now session)) }
    ensures outside { shown.ForBook store.old (λ total book. IfErr result IsOutside) }
    ensures cause { IfErr result (λ e. IsSumCause e (shown.IsTold store.new) (shown.total store.old) (shown.view store.old)
        (shown.view store.new)) }
    ensures looks { LooksOnly store.old store.new }
    ensures reads { shown.ForBook store.old (λ total book. ReadsAnswer book request.now (shown.view store.old).reads
        (shown.view store.new).reads) }
    ensures faults { CountsFault (fault_in step_fault result) (shown.view store.old) (shown.view store.new) }
    // whatever the pages are, the frame may be sent, and rows are in the session
    ensures fits { IfOk result Fits }
    ensures may { IfOk result (MayTellRows session) }
{
    let asked = match asked_of(&*store, request) {
        Ok(asked) => asked,
        Err(refusal) => return Ok(refusal_frame(refusal)),
    };
    let (grid, range) = (asked.grid, asked.range);
    match rows_of_sum(alloc, store, asked.x, asked.y, asked.sum, grid) {
        Ok(rows) => Ok(Frame::Rows(rows_frame(session, grid, range, rows))),
        Err(error) => error_reply(error),
    }
}
