//! The edit that a line spells.
ghost use Rattle.std.specs.Prelude.{◌≡◌, ◌≤◌, [], Some, length, IfNone, IfOk, IfSome};
ghost use Rattle.series_book.specs.Edits.{IsEdit};
ghost use Rattle.chart_service.specs.EditGroups.{SpellsEdit};
ghost use Rattle.chart_service.specs.Syncing.{edit_of};

use request_lines::{LineError, Request, parse_line};
use series_book::Edit;
use std::alloc::{AllocError, Global};

/// The edit that a line spells, if it spells one.
pub fn edit_in(alloc: Global, line: &[u8]) -> Result<Option<Edit>, AllocError>
    requires { length line.now ≤ 8192 }
    ensures spells { IfOk result (λ some. IfSome some (SpellsEdit (Some line.now))) }
    ensures none { IfOk result (λ some. IfNone some (edit_of (Some line.now) ≡ [])) }
    ensures is_edit { IfOk result (λ some. IfSome some IsEdit) }
{
    if line.is_empty() {
        return Ok(None);
    }
    match parse_line(alloc, line) {
        Ok(Request::Edit(edit)) => Ok(Some(edit)),
        Ok(_) | Err(LineError::BadLine { .. }) => Ok(None),
        Err(LineError::NoMemory) => Err(AllocError),
    }
}
