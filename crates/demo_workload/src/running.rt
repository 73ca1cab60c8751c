//! A workload is given to a service and a client of it.
ghost use Rattle.std.specs.Prelude.{◌≡◌, ◌≢◌, ◌+◌, ◌≤◌, [], length, IfOk, IfErr, Err};
ghost use Rattle.block_disk.specs.View.{Now, Only};
ghost use Rattle.chart_world.specs.Faults.{CountsFault, fault_in};
ghost use Rattle.gate_pages.specs.Pages.{GoesOn};
ghost use Rattle.run_ends.specs.Faults.{end_fault};
ghost use Rattle.chart_service.specs.Shown as shown;
ghost use Rattle.chart_service.specs.Stepping.{state_of};
ghost use Rattle.demo_workload.specs.Reading.{most_reads};
ghost use Rattle.demo_workload.specs.Workload.{workload};
ghost use Rattle.demo_workload.specs.Replying.{Summarizes, IsPartWay, PassesPartWay};
ghost use Rattle.demo_workload.specs.Ending.{CostsRequests, IfStopped, IsOutside, IsCause, Runs};

use crate::answering::answer;
use crate::summaries::Summary;
use crate::workloads::Workload;
use chart_client::Client;
use chart_service::Service;
use gate_pages::Pages;
use request_lines::Request;
use run_ends::End;
use std::alloc::Global;

/// Gives each request of the workload of a seed with so many rounds to the service, in which no session is
/// open, and each reply to a client; and answers the summary of the replies and of the client's pictures.
/// Where the pages stand for a book, these are the replies and the pictures of that book, and the pages
/// stand afterwards for the book that the requests leave.
///
/// At each moment a crash leaves the book behind some first requests. `DiskFault` comes only where the
/// count of faults rose: then the store has to be opened again. With another error the pages stand for the
/// book behind some first requests. `DamagedPage`, `Missing` and `BadCoefficient` never come where the pages
/// stand for a book. Nothing is sent.
pub fn run_workload<P: Pages>(
    alloc: Global,
    service: &mut Service<P>,
    seed: u64,
    count: u32,
) -> Result<Summary, End>
    requires fit { (shown.view service.old).fit }
    requires alone { shown.sessions service.old ≡ [] }
    requires rounds { count ≤ 4096 }
    ensures done { shown.ForBook service.old (λ total book. IfOk result
        (λ summary. shown.StandsSo total service.new (λ new. Summarizes (workload seed count) (state_of book total []) new summary))) }
    ensures standing { shown.ForBook service.old (λ total book. IfErr result IsOutside) }
    ensures moments { shown.ForBook service.old (λ total book. PassesPartWay (workload seed count) total book (shown.view service.old)
        (shown.view service.new)) }
    ensures left { shown.ForBook service.old (λ total book. IfStopped result
        (IsPartWay (workload seed count) total (state_of book total []) (shown.image service.new))) }
    ensures reads { shown.ForBook service.old (λ total book. (shown.view service.new).reads ≤ (shown.view service.old).reads + most_reads
        (workload seed count)) }
    // whatever the pages are
    ensures cause { IfErr result (λ end. IsCause end (shown.IsTold service.new) (shown.view service.old) (shown.view service.new)) }
    ensures faults { CountsFault (fault_in end_fault result) (shown.view service.old) (shown.view service.new) }
    ensures costs { CostsRequests (length (workload seed count)) (shown.view service.old) (shown.view service.new) }
    ensures runs { Runs (shown.IsTold service.old) (shown.IsTold service.new) (shown.view service.old) (shown.view service.new) }
    ensures goes_on { GoesOn (shown.under service.old) (shown.under service.new) }
    ensures fit { result ≢ Err End.DiskFault → (shown.view service.new).fit }
    ensures rests { result ≢ Err End.DiskFault → Only (shown.image service.new) (Now (shown.view service.new)) }
    ensures total { shown.total service.new ≡ shown.total service.old }
{
    let _sound = service.is_sound();
    let mut workload = Workload::new(seed, count);
    let Ok(mut client) = Client::new(alloc) else {
        return Err(End::NoMemory);
    };
    let mut summary = Summary::new();
    'requests: loop {
        let Ok(next) = workload.next(alloc) else {
            return Err(End::NoMemory);
        };
        let Some(request) = next else {
            return Ok(summary);
        };
        let answered = answer(alloc, service, &request, &mut client, &mut summary);
        discard(request);
        match answered {
            Ok(()) => {}
            Err(end) => return Err(end),
        }
    }
}

/// Drops a request.
fn discard(_request: Request) {}
