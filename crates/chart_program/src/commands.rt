//! The commands, each with its status.
ghost use Rattle.std.specs.Prelude.{◌≡◌, ◌⊎◌, IfErr, None, Some};
ghost use Rattle.block_disk.specs.Counts.{HasRisen};
ghost use Rattle.block_disk.specs.View.{Honest};
ghost use Rattle.chart_grid.specs.Limits.{IsSide};
ghost use Rattle.chart_world.specs.Faults.{CountsFault};
ghost use Rattle.program_words.specs.declared.words.Command.TheVariants.{Plot, Draw, Cover};
ghost use Rattle.chart_program.specs.Plotted.{plotting_end};
ghost use Rattle.draw_command.specs.Draws.{IsNumbered};
ghost use Rattle.program_words.specs.Words.{IsEvery};
ghost use Rattle.chart_program.specs.CommandStatuses.{drawing_end};
ghost use Rattle.store_commands.specs.Away.{TurnsAway};
ghost use Rattle.run_ends.specs.Faults.{end_fault};
ghost use Rattle.run_ends.specs.Statuses.{status_of};
ghost use Rattle.store_commands.specs.Status.{code_fault};
ghost use Rattle.store_commands.specs.Traffic.{traffic};
ghost use Rattle.chart_program.specs.Commands.{Does, EndsSo, HasOperands};
ghost use Rattle.chart_program.specs.Course.{course};
ghost use Rattle.chart_program.specs.Draw.{Draws};
ghost use Rattle.chart_program.specs.Host.{hosting_end};
ghost use Rattle.chart_program.specs.Init.{IsFree, LeavesMade};
ghost use Rattle.chart_program.specs.Plot.{OfPlot};
ghost use Rattle.chart_program.specs.Ran.{EndsCommand, IsInitEnd, init_end};

use crate::input::{InputEnd, MOST_SLOTS};
use crate::laws::frames_draw_the_book;
use crate::plot::{PlotEnd, plot};
use crate::serving::{run_status, serve_status};
use block_disk::{Back, World};
use chart_frames::laws::{
    length_is_told, more_bytes_mend_nothing, one_frame_a_spelling, spellings_are_good,
};
use demo_workload::run_demo;
use derive_command::derive;
use draw_command::laws::covers_narrow_to_the_picture;
use draw_command::{DrawEnd, cover, draw};
use empty_store::{InitCause, make_store};
use host_command::host;
use hosted_lines::MOST_BYTES;
use live_command::live;
use program_words::Command;
use retain_command::retain;
use run_ends::{End, Status, status_of};
use std::alloc::Global;
use store_commands::{check_store, export_values, list_series, load_series};

/// Does a command with the world's input, output and disk, and says how that ended.
pub(crate) fn status_of_command<W: World>(
    alloc: Global,
    command: Command,
    mut world: W,
) -> (Status, W)
    requires { HasOperands command }
    ensures ends { EndsCommand command (W.view world) (W.view result.1)
        (traffic W.left W.sent W.read_faults W.send_faults world result.1) result.0 }
    ensures does { Does command (course W.view W.left W.sent world result.1) result.0 }
    ensures faults { CountsFault (code_fault result.0.code) (W.view world) (W.view result.1) }
{
    match command {
        Command::Plot { w, h } => {
            let status = plot_status(alloc, w, h, &mut world);
            (status, world)
        }
        Command::Load { name } => {
            let (end, world) = load_series(alloc, &name, world);
            (status_of(end), world)
        }
        Command::Demo { seed, count } => {
            let (end, world) = run_demo(alloc, seed, count, world);
            (status_of(end), world)
        }
        Command::Run => run_status(alloc, world),
        Command::Serve => serve_status(alloc, world),
        Command::Draw => {
            let status = draw_status(alloc, &mut world);
            (status, world)
        }
        Command::Init => {
            let (end, world) = init(alloc, world);
            (status_of(end), world)
        }
        Command::Check => {
            let (end, world) = check_store(alloc, world);
            (status_of(end), world)
        }
        Command::ListSeries => {
            let (end, world) = list_series(alloc, world);
            (status_of(end), world)
        }
        Command::Export { name, window } => {
            let (end, world) = export_values(alloc, &name, window, world);
            (status_of(end), world)
        }
        Command::Retain => {
            let (end, world) = retain(alloc, world);
            (status_of(end), world)
        }
        Command::Cover { every } => {
            let status = cover_status(alloc, every, &mut world);
            (status, world)
        }
        Command::Live => {
            let (end, world) = live(alloc, world);
            (status_of(end), world)
        }
        Command::Host => {
            let (end, world) = host(alloc, world);
            (status_of(hosting_end(end)), world)
        }
        Command::Derive => {
            let (end, world) = derive(alloc, world);
            (status_of(end), world)
        }
    }
}

/// How a run ended by what the hosting of its lines says: past the most bytes of input it names their number.
fn hosting_end(end: End) -> End
    ensures { result ≡ hosting_end end }
{
    match end {
        End::InputTooLong => End::TooMuch { most: MOST_BYTES },
        _ => end,
    }
}

/// Makes the disk an empty store, and says how that ended.
fn init<W: World>(alloc: Global, world: W) -> (End, W)
    ensures ends { IsInitEnd result.0 (W.view world) (W.view result.1) }
    ensures away { TurnsAway (W.view world) (traffic W.left W.sent W.read_faults W.send_faults world result.1) (status_of result.0) }
    ensures untaken { W.left result.1 ≡ W.left world }
    ensures sent { W.sent result.1 ≡ W.sent world }
    ensures disk { LeavesMade (W.view world) (W.view result.1) }
    ensures honest { Honest (W.view world) → Honest (W.view result.1) }
    ensures faults { CountsFault (end_fault result.0) (W.view world) (W.view result.1) }
    ensures ready { IsFree (W.view world) → (HasRisen (W.view world).faults (W.view result.1).faults → ⊥) → (result.0 ≡ End.Done)
        ⊎ (result.0 ≡ End.NoMemory) }
{
    match make_store(alloc, world) {
        Ok(world) => (End::Done, world),
        Err(Back { value, cause }) => (init_end(cause), value),
    }
}

/// The end where no store was made.
fn init_end(cause: InitCause) -> End
    ensures { result ≡ init_end cause }
{
    match cause {
        InitCause::NoMemory => End::NoMemory,
        InitCause::DiskFault => End::DiskFault,
        InitCause::TooSmall(blocks) => End::TooSmall { blocks },
        InitCause::IsStore => End::IsStore,
    }
}

/// Sends a plot, and says how that ended.
fn plot_status<W: World>(alloc: Global, w: u16, h: u16, world: &mut W) -> Status
    requires wide { IsSide w }
    requires high { IsSide h }
    ensures ends { EndsCommand (Plot w h) (W.view world.old) (W.view world.new)
        (traffic W.left W.sent W.read_faults W.send_faults world.old world.new) result }
    ensures does { EndsSo result (OfPlot w h (course W.view W.left W.sent world.old world.new)) }
    ensures faults { CountsFault (code_fault result.code) (W.view world.old) (W.view world.new) }
{
    let answer = plot(alloc, w, h, world);
    status_of(plotting_end(answer))
}

/// How a run ended by what a plot answers.
fn plotting_end(answer: Result<(), PlotEnd>) -> End
    ensures { result ≡ plotting_end answer }
{
    match answer {
        Ok(()) => End::Done,
        Err(PlotEnd::SendFault) => End::SendFault,
        Err(PlotEnd::Input(InputEnd::NoMemory)) => End::NoMemory,
        Err(PlotEnd::Input(InputEnd::ReadFault)) => End::ReadFault,
        Err(PlotEnd::Input(InputEnd::InputTooLong)) => End::InputTooLong,
        Err(PlotEnd::Input(InputEnd::BadLine { at })) => End::BadInput { at },
        Err(PlotEnd::Input(InputEnd::TooManySlots)) => End::TooMuch {
            most: MOST_SLOTS as u64,
        },
    }
}

/// Sends the pictures of the input's frames, and says how that ended.
fn draw_status<W: World>(alloc: Global, world: &mut W) -> Status
    ensures ends { EndsCommand Draw (W.view world.old) (W.view world.new)
        (traffic W.left W.sent W.read_faults W.send_faults world.old world.new) result }
    ensures does { EndsSo result (Draws None (course W.view W.left W.sent world.old world.new)) }
    ensures faults { CountsFault (code_fault result.code) (W.view world.old) (W.view world.new) }
{
    one_frame_a_spelling();
    length_is_told();
    spellings_are_good();
    more_bytes_mend_nothing();
    frames_draw_the_book();
    let answer = draw(alloc, world);
    status_of(drawing_end(answer))
}

/// Sends the pictures of the input's frames, each behind its covers, and says how that ended.
fn cover_status<W: World>(alloc: Global, every: u32, world: &mut W) -> Status
    requires { IsEvery every }
    ensures ends { EndsCommand (Cover every) (W.view world.old) (W.view world.new)
        (traffic W.left W.sent W.read_faults W.send_faults world.old world.new) result }
    ensures does { EndsSo result (Draws (Some every) (course W.view W.left W.sent world.old world.new)) }
    ensures faults { CountsFault (code_fault result.code) (W.view world.old) (W.view world.new) }
{
    one_frame_a_spelling();
    length_is_told();
    spellings_are_good();
    more_bytes_mend_nothing();
    covers_narrow_to_the_picture();
    frames_draw_the_book();
    let answer = cover(alloc, every, world);
    status_of(drawing_end(answer))
}

/// How a run ended by what a drawing answers.
fn drawing_end(answer: Result<(), DrawEnd>) -> End
    requires { IfErr answer IsNumbered }
    ensures { result ≡ drawing_end answer }
{
    match answer {
        Ok(()) => End::Done,
        Err(DrawEnd::NoMemory) => End::NoMemory,
        Err(DrawEnd::ReadFault) => End::ReadFault,
        Err(DrawEnd::SendFault) => End::SendFault,
        Err(DrawEnd::InputTooLong) => End::InputTooLong,
        Err(DrawEnd::BadFrame { at }) => End::BadInput { at },
        Err(DrawEnd::Missing { key }) => End::Missing { key: key.number() },
        Err(DrawEnd::BadCoefficient { key }) => End::BadCoefficient { key: key.number() },
        Err(DrawEnd::UnknownSession { session }) => End::UnknownSession { session },
    }
}
