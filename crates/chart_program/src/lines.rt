ghost use Rattle.std.specs.Prelude.{◌≡◌, [], IfErr};
ghost use Rattle.chart_world.specs.Faults.{CountsFault, fault_in};
ghost use Rattle.gate_pages.specs.Shown.{AreSound, disk};
ghost use Rattle.series_store.specs.Shown as stored;
ghost use Rattle.chart_service.specs.Shown as shown;
ghost use Rattle.store_commands.specs.Status.{code_fault};
ghost use Rattle.store_commands.specs.Traffic.{traffic};
ghost use Rattle.chart_program.specs.Blamed.{PagesBlamed, WorldBlames};
ghost use Rattle.chart_program.specs.CommandStatuses.{OpensFirst};
ghost use Rattle.chart_program.specs.Ended.{status_by};
ghost use Rattle.chart_program.specs.Faulting.{run_fault};
ghost use Rattle.chart_program.specs.LineAnswers.{AnswersTold, AreDrawnTexts, AreSpellings};
ghost use Rattle.chart_program.specs.Served.{AreTexts, Spelled, served, in_world};
ghost use Rattle.chart_program.specs.Traffic.{PagesServed, WorldServed};

use crate::lines_end::LinesEnd;
use crate::run::run_on;
use crate::run_end::RunEnd;
use block_disk::{Back, World};
use chart_client::Screen;
use chart_client::laws::{frames_change_one_session, frames_have_one_answer};
use chart_frames::laws::one_frame_a_spelling;
use chart_service::{ServeEnd, Service};
use disk_store::{disk_of, open_store};
use drawn_replies::laws::{clients_draw_the_book, replies_draw_the_book};
use gate_pages::GatePages;
use series_store::Store;
use served_lines::serve;
use std::alloc::Global;

/// Opens the store of a world, sends the frames that answer the lines of the input, and gives the world
/// back.
pub fn serve_world<W: World>(alloc: Global, world: W) -> (Result<(), LinesEnd>, W)
    ensures serves { WorldServed Spelled ⊥ (W.view world) (W.view result.1)
        (traffic W.left W.sent W.read_faults W.send_faults world result.1) result.0 }
    ensures answers { AnswersTold AreSpellings (W.left world) (W.sent world) (W.sent result.1) result.0 }
    ensures blames { IfErr result.0 (WorldBlames AreSpellings (W.view world) (W.view result.1) (W.left world) (W.sent world)
        (W.sent result.1)) }
    ensures first { OpensFirst (W.view world) (traffic W.left W.sent W.read_faults W.send_faults world result.1) result.0 }
    ensures faults { CountsFault (code_fault (status_by result.0).code) (W.view world) (W.view result.1) }
{
    match open_store(alloc, world) {
        Ok(store) => {
            let (answer, world) = serve_lines(alloc, store);
            (of_answering(answer), world)
        }
        Err(Back { value, cause }) => (Err(LinesEnd::Opening(cause)), value),
    }
}

/// Opens the store of a world, sends the texts that answer the lines of the input, each with the picture
/// of what it shows, and gives the world back.
pub fn run_world<W: World>(alloc: Global, world: W) -> (Result<(), LinesEnd>, W)
    ensures serves { WorldServed AreTexts (Unit {0}) (W.view world) (W.view result.1)
        (traffic W.left W.sent W.read_faults W.send_faults world result.1) result.0 }
    ensures answers { AnswersTold AreDrawnTexts (W.left world) (W.sent world) (W.sent result.1) result.0 }
    ensures blames { IfErr result.0 (WorldBlames AreDrawnTexts (W.view world) (W.view result.1) (W.left world) (W.sent world)
        (W.sent result.1)) }
    ensures first { OpensFirst (W.view world) (traffic W.left W.sent W.read_faults W.send_faults world result.1) result.0 }
    ensures faults { CountsFault (code_fault (status_by result.0).code) (W.view world) (W.view result.1) }
{
    match open_store(alloc, world) {
        Ok(store) => {
            let (answer, world) = run_lines(alloc, store);
            (of_answering(answer), world)
        }
        Err(Back { value, cause }) => (Err(LinesEnd::Opening(cause)), value),
    }
}

/// The same over a store that is open.
fn serve_lines<W: World>(alloc: Global, store: Store<GatePages<W>>) -> (Result<(), RunEnd>, W)
    requires { AreSound (stored.pages store) }
    ensures serves { let pages = stored.pages store in
        PagesServed Spelled ⊥ W.view pages result.1 (traffic W.left W.sent W.read_faults W.send_faults (disk pages) result.1) result.0 }
    ensures answers { AnswersTold AreSpellings (W.left (disk (stored.pages store))) (W.sent (disk (stored.pages store)))
        (W.sent result.1) result.0 }
    ensures blames { let pages = stored.pages store in
        IfErr result.0 (PagesBlamed AreSpellings W.view pages result.1 (W.left (disk pages)) (W.sent (disk pages)) (W.sent result.1)) }
    ensures faults { CountsFault (fault_in run_fault result.0) (W.view (disk (stored.pages store))) (W.view result.1) }
{
    match Service::new(alloc, store) {
        Ok(service) => serve_service(alloc, service),
        Err(Back { value, cause: _ }) => (Err(RunEnd::Serve(ServeEnd::NoMemory)), disk_of(value)),
    }
}

fn run_lines<W: World>(alloc: Global, store: Store<GatePages<W>>) -> (Result<(), RunEnd>, W)
    requires { AreSound (stored.pages store) }
    ensures serves { let pages = stored.pages store in
        PagesServed AreTexts (Unit {0}) W.view pages result.1
        (traffic W.left W.sent W.read_faults W.send_faults (disk pages) result.1) result.0 }
    ensures answers { AnswersTold AreDrawnTexts (W.left (disk (stored.pages store))) (W.sent (disk (stored.pages store)))
        (W.sent result.1) result.0 }
    ensures blames { let pages = stored.pages store in
        IfErr result.0 (PagesBlamed AreDrawnTexts W.view pages result.1 (W.left (disk pages)) (W.sent (disk pages)) (W.sent result.1)) }
    ensures faults { CountsFault (fault_in run_fault result.0) (W.view (disk (stored.pages store))) (W.view result.1) }
{
    match Service::new(alloc, store) {
        Ok(service) => run_service(alloc, service),
        Err(Back { value, cause: _ }) => (Err(RunEnd::Serve(ServeEnd::NoMemory)), disk_of(value)),
    }
}

/// The same by a service with no session open.
fn serve_service<W: World>(
    alloc: Global,
    mut service: Service<GatePages<W>>,
) -> (Result<(), RunEnd>, W)
    requires sound { AreSound (shown.pages service) }
    requires alone { shown.sessions service ≡ [] }
    ensures serves { let pages = shown.pages service in
        PagesServed Spelled ⊥ W.view pages result.1 (traffic W.left W.sent W.read_faults W.send_faults (disk pages) result.1) result.0 }
    ensures answers { AnswersTold AreSpellings (W.left (disk (shown.pages service))) (W.sent (disk (shown.pages service)))
        (W.sent result.1) result.0 }
    ensures blames { let pages = shown.pages service in
        IfErr result.0 (PagesBlamed AreSpellings W.view pages result.1 (W.left (disk pages)) (W.sent (disk pages)) (W.sent result.1)) }
    ensures faults { CountsFault (fault_in run_fault result.0) (W.view (disk (shown.pages service))) (W.view result.1) }
{
    let answer = serve(alloc, &mut service);
    (of_serving(answer), disk_of(service.into_store()))
}

fn run_service<W: World>(
    alloc: Global,
    mut service: Service<GatePages<W>>,
) -> (Result<(), RunEnd>, W)
    requires sound { AreSound (shown.pages service) }
    requires alone { shown.sessions service ≡ [] }
    ensures serves { let pages = shown.pages service in
        PagesServed AreTexts (Unit {0}) W.view pages result.1
        (traffic W.left W.sent W.read_faults W.send_faults (disk pages) result.1) result.0 }
    ensures answers { AnswersTold AreDrawnTexts (W.left (disk (shown.pages service))) (W.sent (disk (shown.pages service)))
        (W.sent result.1) result.0 }
    ensures blames { let pages = shown.pages service in
        IfErr result.0 (PagesBlamed AreDrawnTexts W.view pages result.1 (W.left (disk pages)) (W.sent (disk pages)) (W.sent result.1)) }
    ensures faults { CountsFault (fault_in run_fault result.0) (W.view (disk (shown.pages service))) (W.view result.1) }
{
    one_frame_a_spelling();
    frames_have_one_answer();
    frames_change_one_session();
    clients_draw_the_book();
    replies_draw_the_book();
    service.is_sound();
    match Screen::new(alloc) {
        Ok(mut screen) => {
            let answer = run_on(alloc, &mut service, &mut screen);
            (answer, disk_of(service.into_store()))
        }
        Err(_) => (
            Err(RunEnd::Serve(ServeEnd::NoMemory)),
            disk_of(service.into_store()),
        ),
    }
}

/// What the serving of lines answers, as the end of a run.
fn of_serving(answer: Result<(), ServeEnd>) -> Result<(), RunEnd>
    ensures { result ≡ served answer }
{
    match answer {
        Ok(()) => Ok(()),
        Err(end) => Err(RunEnd::Serve(end)),
    }
}

fn of_answering(answer: Result<(), RunEnd>) -> Result<(), LinesEnd>
    ensures { result ≡ in_world answer }
{
    match answer {
        Ok(()) => Ok(()),
        Err(end) => Err(LinesEnd::Answering(end)),
    }
}
