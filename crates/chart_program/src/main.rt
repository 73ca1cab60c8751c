//! The chart program: one public call, `chart`, and the `main` that gives it the real world.
//!
//! `chart` takes the words of a command and a world, does the command and answers with a status. Its
//! clauses say which bytes were sent for which input, and when each status comes. What a command
//! computes stands in the crates below: here the lines of `plot` become slots, and what the frames of
//! `run` show text.
//!
//! `main` opens the file that the first word names as a disk, which takes the file's lock, and gives
//! `chart` the words after it and a world of this disk, standard input and standard output. `plot`,
//! `draw` and `cover` never call the disk, so for them no file is opened.
//! Nothing is claimed of `main` but that it is safe and ends; of `report` that the exit status is the status' code,
//! and of the choice of the file that `uses_no_store` of program_words tells which commands use none.
#![tactic(auto)]

ghost use Rattle.std.specs.Prelude.{◌≡◌};
ghost use Rattle.std.specs.Process.{exit_status};

mod commands;
mod input;
pub mod laws;
mod lines;
mod lines_end;
mod plot;
mod reply_text;
mod run;
mod run_end;
mod serving;
mod slot;
mod top;

use block_disk::FileDisk;
use chart_world::StdWorld;
use program_words::uses_no_store;
pub use run::run_on;
pub use run_end::RunEnd;
pub use run_ends::Status;
use run_ends::codes;
use std::alloc::{AllocError, Global};
use std::fs::OpenOptions;
use std::process::ExitCode;
use std::rt::{Env, Files};
use std::{env, io};
pub use top::chart;

/// How many bytes are taken and given back at the start. From then on the C library keeps what is freed, up to twice as many
/// bytes, where it would give them back to the system and take them anew for each view.
const KEPT: usize = 524_288;

/// The same where there is no store, and so no sessions whose lists would come to lie apart in more memory.
const KEPT_TO_DRAW: usize = 2_097_152;

fn main(rt: HostRuntime) -> ExitCode {
    laws::books_outlive_their_runs();
    let status = match all_words(&rt) {
        Ok(words) => match words.as_slice() {
            [path, rest @ ..] => {
                // A stream that is closed would leave its number to the store's file, and be written into it.
                let _streams = (unwritable(&rt), unwritable(&rt), unwritable(&rt));
                if uses_no_store(rest) {
                    keep_freed(&rt, KEPT_TO_DRAW);
                    chart(rt.alloc(), rest, StdWorld::new(&rt, ())).0
                } else {
                    keep_freed(&rt, KEPT);
                    let world = StdWorld::new(&rt, FileDisk::at(&rt, path.as_str()));
                    chart(rt.alloc(), rest, world).0
                }
            }
            [] => chart(rt.alloc(), &[], StdWorld::new(&rt, ())).0,
        },
        Err(error) => unread_words(error),
    };
    report(&rt, status)
}

/// Has the C library keep what is freed from now on. Where there is no memory it does as before.
fn keep_freed(rt: &impl Alloc<A = Global>, bytes: usize) {
    let _taken: Result<Vec<u8>, AllocError> = Vec::with_capacity(rt.alloc(), bytes);
}

/// A file that is open, and can neither be read nor written.
fn unwritable<R: Files>(rt: &R) -> Option<R::File> {
    OpenOptions::new().read(true).open(rt, "/").ok()
}

/// The words of the command line behind the program's name: the path, and the words of a command.
fn all_words(rt: &(impl Env + Alloc<A = Global>)) -> io::Result<Vec<String>> {
    let mut words = Vec::new(rt.alloc());
    for word in env::args(rt)?.skip(1) {
        words.push(word)?;
    }
    Ok(words)
}

/// The status where the words can't be read: they are no text, or there is no memory.
fn unread_words(error: io::Error) -> Status {
    let code = match error.kind() {
        io::ErrorKind::OutOfMemory => codes::NO_MEMORY,
        _ => codes::WRONG_WORDS,
    };
    Status { code, place: 0 }
}

/// Tells the status on standard error where it isn't 0. Its code is the program's own exit status.
fn report(rt: &impl Eprint, status: Status) -> ExitCode
    ensures code { exit_status result ≡ status.code }
{
    let Status { code, place } = status;
    if code != codes::DONE {
        let _ = eprintln!(rt; "chart: status {code} at {place}");
    }
    ExitCode::from(code)
}
