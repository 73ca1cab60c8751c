//! The disk of a store is given back.
ghost use Rattle.std.specs.Prelude.{◌≡◌};
ghost use Rattle.gate_pages.specs.GatePages.{IsClosed};
ghost use Rattle.series_store.specs.Shown as shown;
ghost use Rattle.disk_store.specs.Shown.{disk_below};

use block_disk::Disk;
use gate_pages::GatePages;
use series_store::Store;

/// The disk of a store. Nothing is pending on it where the store was sound.
pub fn disk_of<D: Disk>(store: Store<GatePages<D>>) -> D
    ensures disk { result ≡ disk_below store }
    ensures rests { shown.IsSound store → IsClosed (D.view result) }
{
    store.into_pages().into_disk()
}
