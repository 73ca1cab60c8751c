//! What follows for a store. The functions do nothing: their contracts are the laws.
ghost use Rattle.series_store.specs.Shown as shown;
ghost use Rattle.series_store.specs.WhereFit.{DamagedTreesStand};

use crate::store::Store;
use gate_pages::Pages;

/// A store whose pages are sound is fit to be asked.
pub fn sound_stores_are_fit<P: Pages>(store: &Store<P>)
    ensures { shown.IsSound store.now → (shown.nodes store.now).fit }
{
    let _store = store;
}

/// Of a tree whose pages stood for a list, some are damaged so that they fit no place: where pages fit, they stand for it. So
/// what is said of the values that are sent of such a tree is so of it, whichever of its pages are damaged.
pub fn damaged_trees_stand_where_pages_fit()
    ensures { DamagedTreesStand }
{}
