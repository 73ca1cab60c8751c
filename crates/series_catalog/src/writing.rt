//! A series' record is written.
ghost use Rattle.std.specs.Prelude.{◌≡◌, ◌≢◌, ◌<◌, ◌≤◌, ◌+◌, ◌↔◌, ℕ, None, length, OnOk, OnErr};
ghost use Rattle.block_disk.specs.Counts.{HasRisen};
ghost use Rattle.catalog_page.specs.Places.{page_of};
ghost use Rattle.page_space.specs.Transactions.{held, held_page, told_by, HasRoom};
ghost use Rattle.stored_book.specs.Changing.{IsRecordSet, KeepsRecords, AddsRecord};
ghost use Rattle.series_book.specs.declared.limits.TheConstants.{MOST_SLOTS};
ghost use Rattle.series_catalog.specs.Catalogs.{ForEntry, entry_with};
ghost use Rattle.page_space.specs.Changing.{KeepsStanding};
ghost use Rattle.page_space.specs.Shown as shown;

use crate::stored_series::StoredSeries;
use block_disk::BLOCK;
use catalog_page::{record_number, record_page, set_record};
use gate_pages::{DiskFault, Pages};
use page_space::{Space, Txn};
use tree_walk::Tree;

/// Writes the record of a series with this tree, of at most 2^35 slots, in a transaction. After `DiskFault`
/// nothing is written.
pub fn put_record<P: Pages>(
    space: &mut Space<P>,
    txn: &mut Txn,
    id: u16,
    series: &StoredSeries,
    tree: Tree,
) -> Result<(), DiskFault>
    requires sound { shown.IsSound space.old }
    requires total { (told_by txn.old).total ≡ (shown.numbers space.old).total }
    requires few { id < 512 }
    requires room { HasRoom txn.old (page_of id) }
    requires slots { tree.slots ≤ MOST_SLOTS }
    requires rooted { (tree.span ≡ None) ↔ (tree.root ≡ 0) }
    ensures superblock { told_by txn.new ≡ told_by txn.old }
    ensures others { (p : ℕ) → p ≢ page_of id → held_page txn.new p ≡ held_page txn.old p }
    ensures len { length (held txn.new) ≤ length (held txn.old) + 1 }
    ensures err { OnErr result (txn.new ≡ txn.old) }
    ensures set { shown.IsTold space.old → OnOk result
        (IsRecordSet (shown.left space.old txn.old) (shown.left space.old txn.new) id (entry_with series.now tree)) }
    ensures kept { shown.IsTold space.old → OnOk result
        (ForEntry (entry_with series.now tree) (KeepsRecords (shown.left space.old txn.old) (shown.left space.old txn.new) id)) }
    ensures added { shown.IsTold space.old → OnOk result
        (ForEntry (entry_with series.now tree) (AddsRecord (shown.left space.old txn.old) (shown.left space.old txn.new) id)) }
    ensures stands { KeepsStanding txn.old txn.new }
    ensures reads { shown.ReadsOne space.old space.new }
    ensures goes_on { shown.TimeGoesOn space.old space.new }
    ensures space { shown.numbers space.new ≡ shown.numbers space.old }
    ensures cause { OnErr result (HasRisen (shown.view space.old).faults (shown.view space.new).faults) }
    ensures quiet { OnOk result ((shown.view space.new).faults ≡ (shown.view space.old).faults) }
{
    let page = record_page(id);
    let mut bytes = [0; BLOCK];
    space.read(txn, page, &mut bytes)?;
    set_record(&mut bytes, record_number(id), &series.record_with(tree));
    space.put(txn, page, &bytes);
    Ok(())
}
