//! What C holds of a stream.

ghost use Rattle.std.specs.Prelude.{◌≡◌, Option, None, Some};
ghost use Rattle.std.specs.Option.{option_map};
ghost use Rattle.client_exports.specs.State.{State};
ghost use Rattle.client_exports.specs.Owned.{value_coded};

use crate::loose::Loose;
use crate::stream::Stream;
use std::alloc::Global;
use std::marker::Model;
use std::mem::replace;
use std::ptr::null_mut;

/// A stream that is open, by its pointer, or none.
#[repr(C)]
pub struct Handle {
    at: *mut u8,
    pub ghost value: { Option State } by { value_coded },
}

impl Model for Handle {
    ghost use Rattle.client_exports.specs.Owned.{owned};

    ghost also_owns = { λ h. owned h.at h.value };
}

impl Handle {
    fn closed() -> Handle
        ensures { result.value ≡ None }
    {
        let at = null_mut();
        Handle { at }
    }

    fn of(loose: Loose<Stream, Global>) -> Handle
        ensures { result.value ≡ Some loose.value }
    {
        let Loose { ptr, alloc: _ } = loose;
        let at = ptr as *mut u8;
        Handle { at }
    }

    fn into_loose(self, alloc: Global) -> Option<Loose<Stream, Global>>
        ensures { self.value ≡ option_map (λ loose. loose.value) result }
    {
        let Handle { at } = self;
        if at.is_null() {
            None
        } else {
            let ptr = at as *mut Stream;
            Some(Loose { ptr, alloc })
        }
    }

    fn into_box(self, alloc: Global) -> Option<Box<Stream, Global>>
        ensures { self.value ≡ option_map (λ stream. stream.value) result }
    {
        match self.into_loose(alloc) {
            Some(loose) => Some(loose.into_box()),
            None => None,
        }
    }

    /// The stream, which the handle no longer has.
    pub(crate) fn take(&mut self, alloc: Global) -> Option<Box<Stream, Global>>
        ensures taken { self.old.value ≡ option_map (λ stream. stream.value) result }
        ensures closed { self.new.value ≡ None }
    {
        let held = replace(self, Handle::closed());
        held.into_box(alloc)
    }

    /// Has the stream from now on. What the handle had before is dropped.
    pub(crate) fn put(&mut self, alloc: Global, stream: Box<Stream, Global>)
        ensures { self.new.value ≡ Some stream.value }
    {
        let held = replace(self, Handle::of(Loose::of(stream)));
        drop(held.into_box(alloc));
    }
}
