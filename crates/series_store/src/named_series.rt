//! What is told of a series by its id.
ghost use Rattle.std.specs.Prelude.{◌≡◌, ◌<◌, ◌↔◌, None, Some, length, slice_get, IsTrue, is_some, IfSome, MatchOption};
ghost use Rattle.series_catalog.specs.declared.stored_series.StoredSeries.{StoredSeries};
ghost use Rattle.series_store.specs.Naming.{IsNamedSeries, IsStoredSeries};
ghost use Rattle.series_store.specs.Shown as shown;

use crate::store::Store;
use gate_pages::Pages;
use series_book::{Axis, Name};

/// A series by its name, with the axis of its slots and its scale.
#[derive(Drop)]
pub struct NamedSeries<'a> {
    pub name: &'a Name,
    pub axis: Axis,
    /// How many decimals a value has, 0 to 9.
    pub scale: u8,
}

impl<P: Pages> Store<P> {
    /// The series of this id; none exactly where there is none. Nothing is read, and no memory is taken.
    pub fn series_at(&self, id: u16) -> Option<NamedSeries<'_>>
        ensures there { IsTrue (is_some result) ↔ (id < length (shown.catalog self.now)) }
        ensures books { shown.ForSoundBook self.now (λ total book. MatchOption result (slice_get book id ≡ None) (IsNamedSeries book id)) }
        // so it is by the catalog that was read
        ensures stored { IfSome result (λ told. (one : StoredSeries) → slice_get (shown.catalog self.now) id ≡ Some one
            → IsStoredSeries one told) }
    {
        if u32::from(id) >= self.len() {
            return None;
        }
        let info = self.info(id);
        let axis = Axis {
            start: info.start,
            step: info.step,
            slots: info.slots,
        };
        Some(NamedSeries {
            name: &self.catalog.series(id).name,
            axis,
            scale: info.scale,
        })
    }
}
