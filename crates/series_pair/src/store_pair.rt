//! Two series of a store, of which one is asked.
ghost use Rattle.std.specs.Prelude.{◌≡◌, ◌<◌, length};
ghost use Rattle.series_store.specs.Shown as shown;
ghost use Rattle.series_pair.specs.Asking.{IsPair};

use gate_pages::Pages;
use series_store::Store;

/// A store of which two series are asked, one at a time. It is borrowed.
#[derive(Drop)]
pub(crate) struct StorePair<'a, P: Pages> {
    pub(crate) store: &'a mut Store<P>,
    pub(crate) x: u16,
    pub(crate) y: u16,
    pub(crate) is_second: bool,
}

impl<'a, P: Pages> StorePair<'a, P> {
    /// The series of these ids. The first one is asked.
    pub(crate) fn new(store: &'a mut Store<P>, x: u16, y: u16) -> StorePair<'a, P>
        requires first { x < length (shown.catalog store.old) }
        requires second { y < length (shown.catalog store.old) }
        ensures same_reference { result.store.ghost_name ≡ store.entry.ghost_name }
        ensures space { shown.SamePages store.old result.store.now }
        ensures catalog { shown.SameCatalog store.old result.store.now }
        ensures first { result.x ≡ x }
        ensures second { result.y ≡ y }
        ensures pair { IsPair result }
    {
        store.select(x);
        StorePair {
            store,
            x,
            y,
            is_second: false,
        }
    }
}
