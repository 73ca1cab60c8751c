//! Edits that are kept back until they are done together.
ghost use Rattle.std.specs.Prelude.{◌≡◌};

use series_book::Edit;
use std::alloc::Global;

/// What answers the lines of a service: by what the bytes of replies are made, what that keeps, and the edits whose lines
/// were given and aren't done yet.
#[derive(Drop)]
pub(crate) struct Turns<'a, R, S, E> {
    pub(crate) alloc: Global,
    pub(crate) reply: &'a R,
    pub(crate) kept: &'a mut S,
    pub(crate) edits: E,
}

impl<'a, R, S> Turns<'a, R, S, Vec<Edit>> {
    /// What replies keep.
    pub(crate) fn into_kept(self) -> &'a mut S
        ensures same_reference { result.ghost_name ≡ self.entry.kept.ghost_name }
        ensures kept { result.now ≡ self.entry.kept.now }
    {
        let Turns { kept, .. } = self;
        kept
    }
}
