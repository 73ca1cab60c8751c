//! Edits that are kept back until they are done together.

use series_book::Edit;
use std::alloc::Global;

/// The edits whose lines were given to a host and aren't done yet.
#[derive(Drop)]
pub(crate) struct HostTurns {
    pub(crate) alloc: Global,
    pub(crate) edits: Vec<Edit>,
}
