//! A series of a store is selected.
ghost use Rattle.std.specs.Prelude.{◌≡◌, ◌<◌, ℕ, Some, length, slice_get};
ghost use Rattle.chart_frames.specs.Frames.{IsAxis, IsStored};
ghost use Rattle.om3_coeff.specs.View.{Agrees};
ghost use Rattle.series_catalog.specs.declared.stored_series.StoredSeries.{StoredSeries};
ghost use Rattle.series_store.specs.Shown as stored;
ghost use Rattle.tree_walk.specs.Paths.{IsDamaged};
ghost use Rattle.chart_service.specs.Viewing.{axis_of, has_of, least_of, greatest_of};

use chart_grid::Axis;
use gate_pages::Pages;
use om3_coeff::Nodes;
use series_store::Store;

/// Selects the series of this id, and tells the times of its slots.
pub(crate) fn selected<P: Pages>(store: &mut Store<P>, id: u16) -> Axis
    requires { id < length (stored.catalog store.old) }
    ensures space { stored.SamePages store.old store.new }
    ensures catalog { stored.SameCatalog store.old store.new }
    ensures tree { (series : StoredSeries) → slice_get (stored.catalog store.old) id ≡ Some series
        → stored.selected store.new ≡ series.tree }
    ensures fit { stored.IsSound store.new → (stored.nodes store.new).fit }
    ensures slots { result.slots ≡ (stored.selected store.new).slots }
    ensures axis { IsAxis result.start result.step result.slots }
    ensures stored { let span = (stored.selected store.new).span in IsStored result.slots (has_of span) (least_of span) (greatest_of span) }
    ensures few { id < 512 }
    ensures there { stored.ForSoundBook store.old (λ total book. id < length book) }
    ensures agrees { stored.ForSoundSeries store.old id (λ total book series. Agrees (stored.nodes store.new) series.slots) }
    ensures axis_is { stored.ForSoundSeries store.old id (λ total book series. result ≡ axis_of series) }
    ensures whole { stored.ForSoundSeries store.old id (λ total book series. (page : ℕ)
        → IsDamaged (stored.image store.new) (stored.total store.new) (stored.selected store.new) page → ⊥) }
{
    let _count = store.len();
    let info = store.info(id);
    store.select(id);
    Axis {
        start: info.start,
        step: info.step,
        slots: store.slots(),
    }
}
