//! What a line that the stepper answers means for those that follow.
ghost use Rattle.std.specs.Prelude.{◌≡◌, Ok, Err, IfOk};
ghost use Rattle.live_view.specs.Meaning.{name_of, meaning_in, meaning_of};

use crate::live_lines::LONGEST_LINE;
use request_lines::{LineError, Request, parse_line};
use series_book::{Edit, Name};
use std::alloc::{AllocError, Global};

/// What a line means for those that follow.
#[derive(Drop)]
pub enum Meaning {
    /// A view, which ends the following of its session.
    View,
    /// An edit of the series of this name.
    Edit(Name),
    /// Another request, or none.
    Other,
}

/// What a line means.
#[tactic(auto, unfolding(crate::specs::Meaning::meaning_of))]
pub(crate) fn meaning_of(alloc: Global, line: &[u8]) -> Result<Meaning, AllocError>
    ensures { IfOk result (λ meaning. meaning ≡ meaning_of line.now) }
{
    if line.len() > LONGEST_LINE {
        return Ok(Meaning::Other);
    }
    match parse_line(alloc, line) {
        Ok(request) => Ok(meaning_in(request)),
        Err(LineError::BadLine { .. }) => Ok(Meaning::Other),
        Err(LineError::NoMemory) => Err(AllocError),
    }
}

/// What a request means.
fn meaning_in(request: Request) -> Meaning
    ensures { result ≡ meaning_in (Ok request) }
{
    match request {
        Request::Edit(edit) => Meaning::Edit(name_of(edit)),
        Request::View { .. } => Meaning::View,
        Request::Open { .. } | Request::Zoom { .. } | Request::Pan { .. } | Request::Close { .. } =>
            Meaning::Other,
    }
}

/// The name of the series that an edit changes.
fn name_of(edit: Edit) -> Name
    ensures { result ≡ name_of edit }
{
    match edit {
        Edit::Create { name, .. } => name,
        Edit::Append {
            name,
            values: _values,
        } => name,
        Edit::Set {
            name,
            values: _values,
            ..
        } => name,
        Edit::Clear { name, .. } => name,
    }
}
