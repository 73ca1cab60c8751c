//! The command `demo`: the workload that a number makes is answered, and the summary of its replies is sent.
ghost use Rattle.std.specs.Prelude.{◌≡◌, ◌≢◌, ◌≤◌, [], length};
ghost use Rattle.chart_world.specs.Faults.{CountsFault, fault_in};
ghost use Rattle.gate_pages.specs.Shown.{AreSound, count, disk};
ghost use Rattle.gate_pages.specs.Journal.{page_count};
ghost use Rattle.series_store.specs.Shown as shown;
ghost use Rattle.chart_service.specs.Shown as service_shown;
ghost use Rattle.demo_workload.specs.Workload.{workload};
ghost use Rattle.demo_workload.specs.Answered.{Answered};
ghost use Rattle.demo_workload.specs.Ending.{CostsRequests};
ghost use Rattle.demo_workload.specs.Reading.{ReadsRequests};
ghost use Rattle.run_ends.specs.Faults.{end_fault};
ghost use Rattle.run_ends.specs.Statuses.{status_of};
ghost use Rattle.store_commands.specs.Away.{TurnsAway};
ghost use Rattle.store_commands.specs.Books.{HoldsAgain};
ghost use Rattle.demo_workload.specs.Demonstrated.{DemoEnds};
ghost use Rattle.store_commands.specs.Traffic.{traffic};

use crate::running::run_workload;
use crate::summaries::Summary;
use block_disk::{Back, World};
use chart_service::Service;
use disk_store::{disk_of, open_store};
use gate_pages::GatePages;
use run_ends::End;
use series_store::Store;
use std::alloc::Global;
use store_commands::{opening_end, send_text};

/// Answers the workload of a seed with so many rounds over the store of the world's disk, draws what is sent
/// for it, and sends one line: `requests R done D refused F views V sent S black P`.
pub fn run_demo<W: World>(alloc: Global, seed: u64, rounds: u16, world: W) -> (End, W)
    requires { rounds ≤ 4096 }
    ensures ends { DemoEnds seed rounds (W.view world) (W.view result.1) (W.sent world) (W.sent result.1) (W.send_faults world)
        (W.send_faults result.1) result.0 }
    ensures holds { result.0 ≢ End.DiskFault → HoldsAgain (page_count (W.view world).size) (W.view world) (W.view result.1) }
    ensures away { TurnsAway (W.view world) (traffic W.left W.sent W.read_faults W.send_faults world result.1) (status_of result.0) }
    ensures untaken { W.left result.1 ≡ W.left world }
    ensures faults { CountsFault (end_fault result.0) (W.view world) (W.view result.1) }
{
    match open_store(alloc, world) {
        Ok(store) => {
            let (answer, world) = answer_store(alloc, seed, rounds, store);
            match answer {
                Ok(summary) => send_text(summary.line(alloc), world),
                Err(end) => (end, world),
            }
        }
        Err(Back { value, cause }) => (opening_end(cause), value),
    }
}

/// Answers the workload over a store: the summary of the replies, and the disk.
fn answer_store<W: World>(
    alloc: Global,
    seed: u64,
    rounds: u16,
    store: Store<GatePages<W>>,
) -> (Result<Summary, End>, W)
    requires sound { AreSound (shown.pages store) }
    requires rounds { rounds ≤ 4096 }
    ensures answered { let pages = shown.pages store in
        Answered (workload seed rounds) (count pages) (W.view (disk pages)) (W.view result.1) result.0 }
    ensures costs { CostsRequests (length (workload seed rounds)) (W.view (disk (shown.pages store))) (W.view result.1) }
    ensures reads { ReadsRequests (workload seed rounds) (count (shown.pages store)) (W.view (disk (shown.pages store))) (W.view result.1) }
    ensures faults { CountsFault (fault_in end_fault result.0) (W.view (disk (shown.pages store))) (W.view result.1) }
{
    match Service::new(alloc, store) {
        Ok(service) => answer_all(alloc, seed, rounds, service),
        Err(Back { value, cause: _ }) => (Err(End::NoMemory), disk_of(value)),
    }
}

/// The same by a service with no session open.
fn answer_all<W: World>(
    alloc: Global,
    seed: u64,
    rounds: u16,
    mut service: Service<GatePages<W>>,
) -> (Result<Summary, End>, W)
    requires sound { AreSound (service_shown.pages service) }
    requires alone { service_shown.sessions service ≡ [] }
    requires rounds { rounds ≤ 4096 }
    ensures answered { let pages = service_shown.pages service in
        Answered (workload seed rounds) (count pages) (W.view (disk pages)) (W.view result.1) result.0 }
    ensures costs { CostsRequests (length (workload seed rounds)) (W.view (disk (service_shown.pages service))) (W.view result.1) }
    ensures reads { ReadsRequests (workload seed rounds) (count (service_shown.pages service)) (W.view (disk (service_shown.pages service)))
        (W.view result.1) }
    ensures faults { CountsFault (fault_in end_fault result.0) (W.view (disk (service_shown.pages service))) (W.view result.1) }
{
    let answer = run_workload(alloc, &mut service, seed, u32::from(rounds));
    (answer, disk_of(service.into_store()))
}
