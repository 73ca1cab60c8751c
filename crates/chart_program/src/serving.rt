ghost use Rattle.std.specs.Prelude.{◌≡◌, Contains, IfErr};
ghost use Rattle.chart_client.specs.Accepting.{HasNumber};
ghost use Rattle.chart_world.specs.Faults.{CountsFault};
ghost use Rattle.program_words.specs.declared.words.Command.TheVariants.{Run, Serve};
ghost use Rattle.store_commands.specs.Away.{TurnsAway};
ghost use Rattle.store_commands.specs.Status.{code_fault};
ghost use Rattle.store_commands.specs.Traffic.{traffic};
ghost use Rattle.chart_program.specs.Commands.{EndsSo};
ghost use Rattle.chart_program.specs.CommandStatuses.{codes_of, IsBarredBy};
ghost use Rattle.chart_program.specs.Course.{course};
ghost use Rattle.chart_program.specs.Ended.{HasNumberedKey, client_status, serve_end_status, status_by};
ghost use Rattle.chart_program.specs.Run.{OfRun};
ghost use Rattle.chart_program.specs.Serve.{OfServe};
ghost use Rattle.chart_program.specs.Served.{AreTexts, Spelled};
ghost use Rattle.chart_program.specs.Traffic.{EndsInStatus};

use crate::lines::{run_world, serve_world};
use crate::lines_end::LinesEnd;
use crate::run_end::RunEnd;
use block_disk::World;
use chart_client::ClientError;
use chart_service::ServeEnd;
use run_ends::{End, Status, status_of};
use std::alloc::Global;
use store_commands::opening_status;

/// Sends the frames that answer the lines of the input, over the store of the world's disk, and says how
/// that ended.
pub(crate) fn serve_status<W: World>(alloc: Global, world: W) -> (Status, W)
    ensures ends { EndsInStatus Spelled ⊥ (W.view world) (W.view result.1)
        (traffic W.left W.sent W.read_faults W.send_faults world result.1) result.0 }
    ensures does { EndsSo result.0 (OfServe (course W.view W.left W.sent world result.1)) }
    ensures own { Contains (codes_of Serve) result.0.code }
    ensures away { TurnsAway (W.view world) (traffic W.left W.sent W.read_faults W.send_faults world result.1) result.0 }
    ensures bars { IsBarredBy (W.view world) (W.view result.1) (traffic W.left W.sent W.read_faults W.send_faults world result.1) result.0 }
    ensures faults { CountsFault (code_fault result.0.code) (W.view world) (W.view result.1) }
{
    let (answer, world) = serve_world(alloc, world);
    (lines_status(answer), world)
}

/// Sends the texts that answer the lines of the input, each with the picture of what it shows, over the
/// store of the world's disk, and says how that ended.
pub(crate) fn run_status<W: World>(alloc: Global, world: W) -> (Status, W)
    ensures ends { EndsInStatus AreTexts (Unit {0}) (W.view world) (W.view result.1)
        (traffic W.left W.sent W.read_faults W.send_faults world result.1) result.0 }
    ensures does { EndsSo result.0 (OfRun (course W.view W.left W.sent world result.1)) }
    ensures own { Contains (codes_of Run) result.0.code }
    ensures away { TurnsAway (W.view world) (traffic W.left W.sent W.read_faults W.send_faults world result.1) result.0 }
    ensures bars { IsBarredBy (W.view world) (W.view result.1) (traffic W.left W.sent W.read_faults W.send_faults world result.1) result.0 }
    ensures faults { CountsFault (code_fault result.0.code) (W.view world) (W.view result.1) }
{
    let (answer, world) = run_world(alloc, world);
    (lines_status(answer), world)
}

/// The status of what a serving command answers.
fn lines_status(answer: Result<(), LinesEnd>) -> Status
    requires { IfErr answer HasNumberedKey }
    ensures { result ≡ status_by answer }
{
    match answer {
        Ok(()) => status_of(End::Done),
        Err(LinesEnd::Opening(cause)) => opening_status(cause),
        Err(LinesEnd::Answering(RunEnd::Serve(end))) => serve_end_status(end),
        Err(LinesEnd::Answering(RunEnd::Show(error))) => client_status(error),
    }
}

/// The status of why a serving ended.
fn serve_end_status(end: ServeEnd) -> Status
    ensures { result ≡ serve_end_status end }
{
    match end {
        ServeEnd::ReadFault => status_of(End::ReadFault),
        ServeEnd::SendFault => status_of(End::SendFault),
        ServeEnd::DiskFault => status_of(End::DiskFault),
        ServeEnd::Damaged { page } => status_of(End::DamagedPage { page }),
        ServeEnd::InputTooLong => status_of(End::InputTooLong),
        ServeEnd::NoMemory => status_of(End::NoMemory),
    }
}

/// The status of why a client didn't show a frame.
fn client_status(error: ClientError) -> Status
    requires { HasNumber error }
    ensures { result ≡ client_status error }
{
    match error {
        ClientError::Missing { key } => status_of(End::Missing { key: key.number() }),
        ClientError::BadCoefficient { key } => status_of(End::BadCoefficient { key: key.number() }),
        ClientError::UnknownSession { session } => status_of(End::UnknownSession { session }),
        ClientError::NoMemory => status_of(End::NoMemory),
    }
}
