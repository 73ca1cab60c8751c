//! A series in a store.
ghost use Rattle.std.specs.Prelude.{◌≡◌, IsTrue};
ghost use Rattle.catalog_page.specs.Entries.{entry_of as entry_of_record};
ghost use Rattle.series_book.specs.Names.{is_name};
ghost use Rattle.series_catalog.specs.Catalogs.{entry_of};

use catalog_page::Record;
use series_book::{Axis, Name};
use tree_walk::Tree;

/// A series, whose slots are in a tree on pages. Slot i stands at the time `start + i * step`; a whole
/// number v in it means `v / 10^scale`.
#[derive(Drop)]
pub struct StoredSeries {
    pub name: Name,
    pub start: i64,
    pub step: u32,
    pub scale: u8,
    pub tree: Tree,
}

impl StoredSeries {
    /// Where its slots stand in time.
    pub fn axis(&self) -> Axis
        ensures start { result.start ≡ self.now.start }
        ensures step { result.step ≡ self.now.step }
        ensures slots { result.slots ≡ self.now.tree.slots }
    {
        Axis {
            start: self.start,
            step: self.step,
            slots: self.tree.slots,
        }
    }

    /// Its record, with this tree.
    pub(crate) fn record_with(&self, tree: Tree) -> Record<'_>
        ensures entry { entry_of_record result ≡ entry_of (record self.now { tree = tree }) }
        ensures named { IsTrue (is_name result.name.now) }
    {
        Record {
            name: self.name.as_slice(),
            scale: self.scale,
            step: self.step,
            start: self.start,
            slots: tree.slots,
            root: tree.root,
            span: tree.span,
        }
    }
}
