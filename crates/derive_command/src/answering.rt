//! A line is answered.
ghost use Rattle.std.specs.Prelude.{◌≡◌, ◌≢◌, ◌≤◌, Err, Some, length, IfErr, OnOk};
ghost use Rattle.block_disk.specs.Counts.{HasRisen};
ghost use Rattle.block_disk.specs.Streams.{sent_after};
ghost use Rattle.chart_world.specs.Faults.{CountsFault, fault_in};
ghost use Rattle.pbm_writer.specs.Picture.{picture};
ghost use Rattle.run_ends.specs.Faults.{end_fault};
ghost use Rattle.series_store.specs.Shown as shown;
ghost use Rattle.store_commands.specs.Sides.{side_of};
ghost use Rattle.derive_command.specs.Answers.{by_book};
ghost use Rattle.derive_command.specs.Catalogs.{by_memory};
ghost use Rattle.derive_command.specs.Doing.{DoesLine, DoesRequest, Goes, IsCause, TextStops, end_at, refused_at};
ghost use Rattle.derive_command.specs.Requests.{IsFactor};

use crate::asking::asked_of;
use crate::derive_refusal::DeriveRefusal;
use crate::request::Request;
use crate::request_error::RequestError;
use crate::requests::request_of;
use block_disk::Streams;
use gate_pages::PageWorld;
use line_raster::Bitmap;
use pbm_writer::pbm;
use run_ends::End;
use series_pair::{SumError, chart_of_sum};
use series_store::Store;
use std::alloc::Global;

/// The end where the line at this offset is refused.
fn refused_at(at: u32, refusal: DeriveRefusal) -> End
    ensures { result ≡ refused_at at refusal }
{
    End::RefusedLine {
        at,
        refusal: refusal.number(),
    }
}

/// What an error of a chart is for the line at this offset.
fn end_at(at: u32, error: SumError) -> End
    ensures { result ≡ end_at at error }
{
    match error {
        SumError::TooLarge { .. } => refused_at(at, DeriveRefusal::TooLarge),
        SumError::DiskFault => End::DiskFault,
        SumError::Damaged { page } => End::DamagedPage { page },
        SumError::NoMemory => End::NoMemory,
    }
}

/// Sends the picture of a chart.
fn send_picture<P: PageWorld>(
    alloc: Global,
    store: &mut Store<P>,
    chart: &Bitmap,
) -> Result<(), End>
    ensures whole { OnOk result (P.sent (shown.pages store.new) ≡ sent_after (picture chart.now) (P.sent (shown.pages store.old))) }
    ensures stops { IfErr result (TextStops (picture chart.now) (P.sent (shown.pages store.old)) (P.sent (shown.pages store.new))) }
    ensures cause { result ≡ Err End.SendFault → HasRisen (P.send_faults (shown.pages store.old)) (P.send_faults (shown.pages store.new)) }
    ensures long { result ≢ Err End.InputTooLong }
    ensures send_faults { P.send_faults (shown.pages store.old) ≤ P.send_faults (shown.pages store.new) }
    ensures left { P.left (shown.pages store.new) ≡ P.left (shown.pages store.old) }
    ensures pieces { P.pieces (shown.pages store.new) ≡ P.pieces (shown.pages store.old) }
    ensures read_faults { P.read_faults (shown.pages store.new) ≡ P.read_faults (shown.pages store.old) }
    ensures beside { shown.Keeps (P.sends (length (picture chart.now)) (shown.pages store.old) (shown.pages store.new)) store.old
        store.new }
    ensures faults { CountsFault (fault_in end_fault result) (shown.view store.old) (shown.view store.new) }
{
    let Ok(text) = pbm(alloc, chart) else {
        return Err(End::NoMemory);
    };
    match store.send(text.as_slice()) {
        Ok(()) => Ok(()),
        Err(_) => Err(End::SendFault),
    }
}

/// Draws what a request at this offset asks for, and sends the picture.
fn answer_request<P: PageWorld>(
    alloc: Global,
    store: &mut Store<P>,
    at: u32,
    request: &Request,
) -> Result<(), End>
    requires sound { shown.IsSound store.old }
    requires a { IsFactor request.now.a }
    requires b { IsFactor request.now.b }
    ensures records { DoesRequest (by_memory (shown.catalog store.old) (side_of P.Streams store.new)) request.now at result
        (P.sent (shown.pages store.old)) (P.sent (shown.pages store.new)) }
    ensures catalog { shown.catalog store.new ≡ shown.catalog store.old }
    ensures does { shown.ForBook store.old (λ total book. DoesRequest (by_book book) request.now at result (P.sent (shown.pages store.old))
        (P.sent (shown.pages store.new))) }
    ensures goes { Goes (side_of P.Streams store.old) (side_of P.Streams store.new) }
    ensures cause { IfErr result (λ e. IsCause e (side_of P.Streams store.old) (side_of P.Streams store.new)) }
    ensures long { result ≢ Err End.InputTooLong }
    ensures left { P.left (shown.pages store.new) ≡ P.left (shown.pages store.old) }
    ensures pieces { P.pieces (shown.pages store.new) ≡ P.pieces (shown.pages store.old) }
    ensures faults { CountsFault (fault_in end_fault result) (shown.view store.old) (shown.view store.new) }
{
    let asked = match asked_of(&*store, request) {
        Ok(asked) => asked,
        Err(refusal) => return Err(refused_at(at, refusal)),
    };
    let chart = chart_of_sum(
        alloc,
        store,
        asked.x,
        asked.y,
        asked.sum,
        asked.grid,
        asked.range,
    );
    match chart {
        Ok(chart) => send_picture(alloc, store, &chart),
        Err(error) => Err(end_at(at, error)),
    }
}

/// Answers a line, unless it is empty.
pub(crate) fn answer_line<P: PageWorld>(
    alloc: Global,
    store: &mut Store<P>,
    at: u32,
    line: &[u8],
) -> Result<(), End>
    requires sound { shown.IsSound store.old }
    ensures records { DoesLine (by_memory (shown.catalog store.old) (side_of P.Streams store.new)) (Some line.now) at result
        (P.sent (shown.pages store.old)) (P.sent (shown.pages store.new)) }
    ensures catalog { shown.catalog store.new ≡ shown.catalog store.old }
    ensures does { shown.ForBook store.old (λ total book. DoesLine (by_book book) (Some line.now) at result (P.sent (shown.pages store.old))
        (P.sent (shown.pages store.new))) }
    ensures goes { Goes (side_of P.Streams store.old) (side_of P.Streams store.new) }
    ensures cause { IfErr result (λ e. IsCause e (side_of P.Streams store.old) (side_of P.Streams store.new)) }
    ensures long { result ≢ Err End.InputTooLong }
    ensures left { P.left (shown.pages store.new) ≡ P.left (shown.pages store.old) }
    ensures pieces { P.pieces (shown.pages store.new) ≡ P.pieces (shown.pages store.old) }
    ensures faults { CountsFault (fault_in end_fault result) (shown.view store.old) (shown.view store.new) }
{
    if line.is_empty() {
        return Ok(());
    }
    match request_of(alloc, line) {
        Ok(request) => answer_request(alloc, store, at, &request),
        Err(RequestError::NoRequest) => Err(End::BadInput { at: u64::from(at) }),
        Err(RequestError::NoMemory) => Err(End::NoMemory),
    }
}
