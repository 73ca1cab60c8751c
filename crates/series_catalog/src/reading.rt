//! A catalog is read.
ghost use Rattle.std.specs.Prelude.{◌≡◌, ◌≢◌, ◌<◌, ◌≤◌, ◌+◌, ◌-◌, ◌++◌, ◌∷◌, [], ◌⊎◌, None, length, map, AllPairs, IsTrue, IfOk, IfErr};
ghost use Rattle.std.specs.Prelude.{OnOk};
ghost use Rattle.block_disk.specs.View.{Image};
ghost use Rattle.catalog_page.specs.Entries.{entry_of as entry_of_record};
ghost use Rattle.catalog_page.specs.Layout.{KeepsLayout};
ghost use Rattle.catalog_page.specs.Places.{records_of as count_of_records};
ghost use Rattle.series_book.specs.Names.{is_name};
ghost use Rattle.stored_book.specs.Standing.{AreCatalog};
ghost use Rattle.series_catalog.specs.Catalogs.{AreFit, AreAsTold, entry_of, place_of};
ghost use Rattle.series_catalog.specs.Shown.{ReadsUpTo, series_in};
ghost use Rattle.page_space.specs.Shown as shown;
ghost use Rattle.series_catalog.specs.Reading.{IsCatalogCause, IsCatalogPage, IsPageCause, AreRead, HasRepeatedName};

use crate::catalog::Catalog;
use crate::errors::CatalogError;
use crate::stored_series::StoredSeries;
use block_disk::BLOCK;
use catalog_page::{CatalogView, Record, records_of};
use gate_pages::Pages;
use page_space::Space;
use series_book::Name;
use std::alloc::{AllocError, Global};
use tree_walk::Tree;

/// The first page of the catalog, and the one behind its last.
const FIRST_PAGE: u32 = 1;

const END_PAGE: u32 = 17;

/// The series that a record says. Its name is one, so that memory alone may fail.
fn series_of(alloc: Global, entry: &Record) -> Result<StoredSeries, AllocError>
    requires named { IsTrue (is_name entry.now.name.now) }
    ensures { IfOk result (λ series. entry_of series ≡ entry_of_record entry.now) }
{
    let Ok(name) = Name::new(alloc, entry.name) else {
        return Err(AllocError);
    };
    let tree = Tree {
        slots: entry.slots,
        root: entry.root,
        span: entry.span,
    };
    Ok(StoredSeries {
        name,
        start: entry.start,
        step: entry.step,
        scale: entry.scale,
        tree,
    })
}

/// Adds a series of this page, unless one of its name is there.
fn add_series(catalog: &mut Catalog, series: StoredSeries, page: u32) -> Result<(), CatalogError>
    requires few { length (series_in catalog.old) < 512 }
    ensures added { OnOk result (series_in catalog.new ≡ series_in catalog.old ++ series ∷ []) }
    ensures new_name { OnOk result (place_of series.name (series_in catalog.old) ≡ None) }
    ensures cause { IfErr result (λ e. IsPageCause e page (place_of series.name (series_in catalog.old) ≢ None)) }
{
    if catalog.find(&series.name).is_some() {
        return Err(CatalogError::Damaged { page });
    }
    catalog.add(series)?;
    Ok(())
}

/// Adds the series of a page of the catalog with these bytes, where those of the pages before it are
/// there, `count` is how many there are in all, and `fresh` the first page that was never used.
fn add_page(
    alloc: Global,
    bytes: &[u8],
    page: u32,
    count: u32,
    fresh: u32,
    catalog: &mut Catalog,
) -> Result<(), CatalogError>
    requires whole { length bytes.now ≡ 4096 }
    requires low { 1 ≤ page }
    requires high { page < 17 }
    requires few { count ≤ 512 }
    requires read { AreRead (page - 1) count fresh (series_in catalog.old) }
    ensures read { OnOk result (AreRead page count fresh (series_in catalog.new)) }
    ensures keeps { OnOk result (KeepsLayout (count_of_records page count) fresh bytes.now) }
    ensures told { OnOk result ((image : Image) → image page ≡ bytes.now → AreAsTold image (series_in catalog.old)
        → AreAsTold image (series_in catalog.new)) }
    ensures cause { IfErr result (λ e. IsPageCause e page ((image : Image) → image page ≡ bytes.now
        → AreAsTold image (series_in catalog.old)
        → (KeepsLayout (count_of_records page count) fresh bytes.now → ⊥) ⊎ HasRepeatedName image count page)) }
{
    let Ok(view) = CatalogView::new(bytes, records_of(page, count), fresh) else {
        return Err(CatalogError::Damaged { page });
    };
    for number in 0..view.count() {
        let series = series_of(alloc, &view.record_at(number))?;
        add_series(catalog, series, page)?;
    }
    Ok(())
}

/// Reads a page of the catalog into a buffer, and adds its series behind those of the pages before it.
fn read_page<P: Pages>(
    alloc: Global,
    space: &mut Space<P>,
    page: u32,
    bytes: &mut [u8],
    catalog: &mut Catalog,
) -> Result<(), CatalogError>
    requires sound { shown.IsSound space.old }
    requires low { 1 ≤ page }
    requires high { page < 17 }
    requires whole { length bytes.old ≡ 4096 }
    requires read { AreRead (page - 1) (shown.numbers space.old).series (shown.numbers space.old).fresh (series_in catalog.old) }
    requires told { shown.IsTold space.old → AreAsTold (shown.image space.old) (series_in catalog.old) }
    ensures read { OnOk result (AreRead page (shown.numbers space.old).series (shown.numbers space.old).fresh (series_in catalog.new)) }
    ensures told { OnOk result (shown.IsTold space.old → AreAsTold (shown.image space.old) (series_in catalog.new)) }
    ensures keeps { OnOk result (shown.IsTold space.old
        → KeepsLayout (count_of_records page (shown.numbers space.old).series) (shown.numbers space.old).fresh
        (shown.image space.old page)) }
    ensures place { IfErr result IsCatalogPage }
    ensures cause { IfErr result (λ e. IsCatalogCause e (shown.IsTold space.old) (shown.numbers space.old) (shown.view space.old)
        (shown.view space.new)) }
    ensures quiet { OnOk result ((shown.view space.new).faults ≡ (shown.view space.old).faults) }
    ensures quiet_err { IfErr result (λ e. e ≢ CatalogError.DiskFault → (shown.view space.new).faults ≡ (shown.view space.old).faults) }
    ensures reads { shown.ReadsOne space.old space.new }
    ensures goes_on { shown.TimeGoesOn space.old space.new }
    ensures superblock { shown.numbers space.new ≡ shown.numbers space.old }
{
    let _total = space.total();
    let count = space.series();
    let fresh = space.fresh();
    space.get(page, bytes)?;
    add_page(alloc, bytes, page, count, fresh, catalog)?;
    Ok(())
}

/// Reads the pages of the catalog into a buffer, one after the other, and adds their series.
fn read_pages<P: Pages>(
    alloc: Global,
    space: &mut Space<P>,
    bytes: &mut [u8],
    catalog: &mut Catalog,
) -> Result<(), CatalogError>
    requires sound { shown.IsSound space.old }
    requires whole { length bytes.old ≡ 4096 }
    requires none { series_in catalog.old ≡ [] }
    ensures read { OnOk result (AreRead 16 (shown.numbers space.old).series (shown.numbers space.old).fresh (series_in catalog.new)) }
    ensures few { (shown.numbers space.old).series ≤ 512 }
    ensures told { OnOk result (shown.IsTold space.old → AreAsTold (shown.image space.old) (series_in catalog.new)) }
    ensures whole { OnOk result (shown.IsTold space.old
        → AreCatalog (shown.image space.old) (shown.numbers space.old).fresh (shown.numbers space.old).series) }
    ensures place { IfErr result IsCatalogPage }
    ensures cause { IfErr result (λ e. IsCatalogCause e (shown.IsTold space.old) (shown.numbers space.old) (shown.view space.old)
        (shown.view space.new)) }
    ensures quiet { OnOk result ((shown.view space.new).faults ≡ (shown.view space.old).faults) }
    ensures quiet_err { IfErr result (λ e. e ≢ CatalogError.DiskFault → (shown.view space.new).faults ≡ (shown.view space.old).faults) }
    ensures reads { ReadsUpTo 16 space.old space.new }
    ensures goes_on { shown.TimeGoesOn space.old space.new }
    ensures superblock { shown.numbers space.new ≡ shown.numbers space.old }
{
    let _most = space.series();
    for page in FIRST_PAGE..END_PAGE {
        read_page(alloc, space, page, bytes, catalog)?;
    }
    Ok(())
}

/// The catalog that the pages of a space have. It reads 16 blocks at most and writes none.
///
/// `Damaged` names a page that breaks the layout of a catalog page, or has a name that stands in the
/// catalog before.
pub fn read_catalog<P: Pages>(alloc: Global, space: &mut Space<P>) -> Result<Catalog, CatalogError>
    requires sound { shown.IsSound space.old }
    ensures count { IfOk result (λ catalog. length (series_in catalog) ≡ (shown.numbers space.old).series) }
    ensures fit { IfOk result (λ catalog. AreFit (shown.numbers space.old).fresh (series_in catalog)) }
    ensures distinct { IfOk result (λ catalog. AllPairs (λ one other. one ≢ other) (map (λ series. series.name) (series_in catalog))) }
    ensures told { IfOk result (λ catalog. shown.IsTold space.old → AreAsTold (shown.image space.old) (series_in catalog)) }
    ensures whole { IfOk result (λ catalog. shown.IsTold space.old
        → AreCatalog (shown.image space.old) (shown.numbers space.old).fresh (shown.numbers space.old).series) }
    ensures place { IfErr result IsCatalogPage }
    ensures cause { IfErr result (λ e. IsCatalogCause e (shown.IsTold space.old) (shown.numbers space.old) (shown.view space.old)
        (shown.view space.new)) }
    ensures quiet { OnOk result ((shown.view space.new).faults ≡ (shown.view space.old).faults) }
    ensures quiet_err { IfErr result (λ e. e ≢ CatalogError.DiskFault → (shown.view space.new).faults ≡ (shown.view space.old).faults) }
    ensures reads { ReadsUpTo 16 space.old space.new }
    ensures goes_on { shown.TimeGoesOn space.old space.new }
    ensures superblock { shown.numbers space.new ≡ shown.numbers space.old }
{
    let mut catalog = Catalog::new(alloc)?;
    let mut bytes = vec![in alloc; 0; BLOCK]?;
    read_pages(alloc, space, bytes.as_mut_slice(), &mut catalog)?;
    Ok(catalog)
}
