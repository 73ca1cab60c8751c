//! A series that is to be added is staged.
ghost use Rattle.std.specs.Prelude.{◌≡◌, ◌<◌, length, ◌≢◌, OnOk, IfErr};
ghost use Rattle.page_space.specs.Shown as spaces;
ghost use Rattle.page_space.specs.Transactions.{held, told_by};
ghost use Rattle.series_catalog.specs.Shown.{series_in};
ghost use Rattle.series_store.specs.Staging as stages;
ghost use Rattle.catalog_page.specs.Entries.{IsEntry};
ghost use Rattle.series_book.specs.declared.edits.Edit.TheVariants.{Create};
ghost use Rattle.series_book.specs.Edits.{IsEdit, apply};
ghost use Rattle.series_catalog.specs.Catalogs.{entry_of};

use crate::errors::StoreError;
use crate::opening::NO_TREE;
use crate::staged::{Staged, Undo};
use gate_pages::Pages;
use page_space::{Space, Txn};
use series_book::limits::MOST_SERIES;
use series_book::{Name, Outcome, Refusal};
use series_catalog::{Catalog, StoredSeries, put_record};

/// Adds a series without slots behind the others, unless there is one of its name or there are 512. It reads one
/// block at most, and the transaction gets one page more.
pub(crate) fn create<P: Pages>(
    space: &mut Space<P>,
    txn: &mut Txn,
    catalog: &mut Catalog,
    name: &Name,
    start: i64,
    step: u32,
    scale: u8,
) -> Result<Staged, StoreError>
    requires sound { spaces.IsSound space.old }
    requires staged { stages.IsStaged space.old txn.old catalog.old }
    requires few { length (held txn.old) < 64 }
    requires is_edit { IsEdit (Create name.now start step scale) }
    ensures answered { stages.ForStaged space.old txn.old
        (λ total book. stages.AnswersSo (apply book total (Create name.now start step scale)) 0 total result space.new txn.old txn.new) }
    ensures carried { stages.Stages result space.old space.new txn.old txn.new catalog.old catalog.new }
    ensures quiet { OnOk result ((spaces.view space.new).faults ≡ (spaces.view space.old).faults) }
    ensures quiet_err { IfErr result (λ e. e ≢ StoreError.DiskFault → (spaces.view space.new).faults ≡ (spaces.view space.old).faults) }
{
    if catalog.find(name).is_some() {
        return Err(StoreError::Refused(Refusal::SeriesExists));
    }
    if catalog.len() as usize >= MOST_SERIES {
        return Err(StoreError::Refused(Refusal::TooManySeries));
    }
    let series = StoredSeries {
        name: name.copy()?,
        start,
        step,
        scale,
        tree: NO_TREE,
    };
    add_series(space, txn, catalog, series)
}

/// Puts the record of a series without slots behind the others. After an error the catalog is as before.
fn add_series<P: Pages>(
    space: &mut Space<P>,
    txn: &mut Txn,
    catalog: &mut Catalog,
    series: StoredSeries,
) -> Result<Staged, StoreError>
    requires sound { spaces.IsSound space.old }
    requires staged { stages.IsStaged space.old txn.old catalog.old }
    requires few { length (held txn.old) < 64 }
    requires room { length (series_in catalog.old) < 512 }
    requires entry { IsEntry (told_by txn.old).fresh (entry_of series) }
    requires empty { series.tree ≡ NO_TREE }
    ensures answered { stages.AnswersAdded series result space.old space.new txn.old txn.new }
    ensures carried { stages.Stages result space.old space.new txn.old txn.new catalog.old catalog.new }
    ensures quiet { OnOk result ((spaces.view space.new).faults ≡ (spaces.view space.old).faults) }
    ensures quiet_err { IfErr result (λ e. e ≢ StoreError.DiskFault → (spaces.view space.new).faults ≡ (spaces.view space.old).faults) }
{
    let count = catalog.len();
    space.set_series(txn, count + 1);
    put_record(space, txn, count as u16, &series, NO_TREE)?;
    catalog.add(series)?;
    Ok(Staged {
        outcome: Outcome { slots: 0 },
        undo: Undo::Last,
    })
}
