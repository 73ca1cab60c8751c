//! A catalog is put back.
ghost use Rattle.std.specs.Prelude.{◌≡◌, ◌↔◌, List, IsTrue, false};
ghost use Rattle.series_catalog.specs.Shown.{series_in};
ghost use Rattle.series_catalog.specs.declared.stored_series.StoredSeries.{StoredSeries};
ghost use Rattle.series_store.specs.Staging.{TakesBack};
ghost use Rattle.series_store.specs.declared.staged.Undo.{Undo};

use crate::staged::Undo;
use series_catalog::Catalog;

impl Undo {
    /// Whether the edit changed nothing.
    pub(crate) fn is_nothing(self) -> bool
        ensures { IsTrue result ↔ (self ≡ Undo.Nothing) }
    {
        matches!(self, Undo::Nothing)
    }

    /// Whether anything is changed with the edit, where that is so before it.
    pub(crate) fn or_changed(self, is_changed: bool) -> bool
        ensures changed { result ≡ false → (is_changed ≡ false) × (self ≡ Undo.Nothing) }
        ensures none { is_changed ≡ false → self ≡ Undo.Nothing → result ≡ false }
    {
        is_changed || !self.is_nothing()
    }

    /// Puts the catalog back.
    pub(crate) fn apply(self, catalog: &mut Catalog)
        requires { (before : List StoredSeries) × TakesBack self (series_in catalog.old) before }
        ensures { (before : List StoredSeries) → TakesBack self (series_in catalog.old) before → series_in catalog.new ≡ before }
    {
        match self {
            Undo::Nothing => {}
            Undo::Tree { id, tree } => catalog.set_tree(id, tree),
            Undo::Last => catalog.take_last(),
        }
    }
}
