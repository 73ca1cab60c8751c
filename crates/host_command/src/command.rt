//! The command `host`: the lines of the input are answered over the store of a disk, edits that stand ready together.
ghost use Rattle.std.specs.Prelude.{◌≡◌, [], IfSome};
ghost use Rattle.chart_service.specs.Shown as shown;
ghost use Rattle.chart_world.specs.Faults.{CountsFault};
ghost use Rattle.gate_pages.specs.Journal.{page_count};
ghost use Rattle.gate_pages.specs.Shown.{AreSound, count, disk};
ghost use Rattle.hosted_lines.specs.Answers.{MayAnswerHost, SendsAnswers, followed_behind};
ghost use Rattle.hosted_lines.specs.Blaming.{BlamesHost, BlamesOnDisk};
ghost use Rattle.run_ends.specs.Faults.{end_fault};
ghost use Rattle.run_ends.specs.Statuses.{status_of};
ghost use Rattle.series_store.specs.Shown as stored;
ghost use Rattle.store_commands.specs.Away.{TurnsAway};
ghost use Rattle.store_commands.specs.Traffic.{traffic};
ghost use Rattle.host_command.specs.Ended.{CostsFrom, CostsHosting, HostEnds};
ghost use Rattle.host_command.specs.Ending.{Served};

use block_disk::{Back, World};
use chart_service::Service;
use disk_store::{disk_of, open_store};
use gate_pages::GatePages;
use hosted_lines::host_lines;
use live_service::ServiceStepper;
use live_view::Live;
use run_ends::End;
use series_store::Store;
use std::alloc::Global;
use store_commands::opening_end;

/// Sends the frames that answer the lines of the input over the store of the world's disk, and those that are pushed
/// behind groups of edits to the sessions that follow them, and says how that ended.
pub fn host<W: World>(alloc: Global, world: W) -> (End, W)
    ensures ends { HostEnds (W.view world) (W.view result.1) (traffic W.left W.sent W.read_faults W.send_faults world result.1) result.0 }
    // whatever the disk holds, at the end each line of the input was answered, and all other frames are pushes
    ensures answers { result.0 ≡ End.Done → IfSome (W.left world)
        (λ input. SendsAnswers MayAnswerHost followed_behind input (W.sent world) (W.sent result.1)) }
    // and a page of an open store that is called damaged is so for the line behind the answered ones, or for a push
    ensures blames { BlamesOnDisk MayAnswerHost followed_behind BlamesHost (page_count (W.view world).size) (W.view result.1) (W.left world)
        (W.sent world) (W.sent result.1) result.0 }
    // blocks are read, and the disk is synced, by the opening, the lines, the groups and the pushes alone
    ensures costs { IfSome (W.left world) (λ input. CostsHosting (W.view world) (W.view result.1) input) }
    // a call failed exactly where the end tells of one
    ensures faults { CountsFault (end_fault result.0) (W.view world) (W.view result.1) }
    ensures away { TurnsAway (W.view world) (traffic W.left W.sent W.read_faults W.send_faults world result.1) (status_of result.0) }
{
    match open_store(alloc, world) {
        Ok(store) => serve_store(alloc, store),
        Err(Back { value, cause }) => (opening_end(cause), value),
    }
}

/// The same over a store that is open: how that ended, and the disk.
fn serve_store<W: World>(alloc: Global, store: Store<GatePages<W>>) -> (End, W)
    requires { AreSound (stored.pages store) }
    ensures serves { let at = stored.pages store in
        Served (count at) (W.view (disk at)) (W.view result.1)
        (traffic W.left W.sent W.read_faults W.send_faults (disk at) result.1) result.0 }
    ensures answers { result.0 ≡ End.Done → IfSome (W.left (disk (stored.pages store)))
        (λ input. SendsAnswers MayAnswerHost followed_behind input (W.sent (disk (stored.pages store))) (W.sent result.1)) }
    ensures blames { let at = stored.pages store in
        BlamesOnDisk MayAnswerHost followed_behind BlamesHost (count at) (W.view result.1) (W.left (disk at)) (W.sent (disk at))
        (W.sent result.1) result.0 }
    ensures faults { CountsFault (end_fault result.0) (W.view (disk (stored.pages store))) (W.view result.1) }
    ensures costs { let pages = stored.pages store in
        IfSome (W.left (disk pages)) (λ input. CostsFrom (count pages) (W.view (disk pages)) (W.view result.1) input
        (W.view (disk pages)).reads (W.view (disk pages)).syncs) }
{
    match Service::new(alloc, store) {
        Ok(service) => serve_service(alloc, service),
        Err(Back { value, cause: _ }) => (End::NoMemory, disk_of(value)),
    }
}

/// The same by a service with no session open.
fn serve_service<W: World>(alloc: Global, service: Service<GatePages<W>>) -> (End, W)
    requires sound { AreSound (shown.pages service) }
    requires alone { shown.sessions service ≡ [] }
    ensures serves { let at = shown.pages service in
        Served (count at) (W.view (disk at)) (W.view result.1)
        (traffic W.left W.sent W.read_faults W.send_faults (disk at) result.1) result.0 }
    ensures answers { result.0 ≡ End.Done → IfSome (W.left (disk (shown.pages service)))
        (λ input. SendsAnswers MayAnswerHost followed_behind input (W.sent (disk (shown.pages service))) (W.sent result.1)) }
    ensures blames { let at = shown.pages service in
        BlamesOnDisk MayAnswerHost followed_behind BlamesHost (count at) (W.view result.1) (W.left (disk at)) (W.sent (disk at))
        (W.sent result.1) result.0 }
    ensures faults { CountsFault (end_fault result.0) (W.view (disk (shown.pages service))) (W.view result.1) }
    ensures costs { let pages = shown.pages service in
        IfSome (W.left (disk pages)) (λ input. CostsFrom (count pages) (W.view (disk pages)) (W.view result.1) input
        (W.view (disk pages)).reads (W.view (disk pages)).syncs) }
{
    service.is_sound();
    let mut live = Live::new(alloc, ServiceStepper::new(service));
    let end = host_lines(alloc, &mut live);
    let service = live.into_stepper().into_service();
    (end, disk_of(service.into_store()))
}
