//! A store is made, and opened.
ghost use Rattle.std.specs.Prelude.{◌≡◌, ◌≢◌, ◌≤◌, ◌<◌, ℕ, List, [], IfOk, IfErr};
ghost use Rattle.block_disk.specs.Counts.{HasRisen};
ghost use Rattle.gate_pages.specs.Pages.{GoesOn};
ghost use Rattle.path_repair.specs.Standing.{ReadsMost};
ghost use Rattle.series_book.specs.declared.one_series.Series.{Series};
ghost use Rattle.series_store.specs.Opening.{pages_in, IsFirstPage, IsOpenCause, IsReadCause, IsOutside, MakesStore, space_error_of};
ghost use Rattle.series_store.specs.Opening.{catalog_error_of};
ghost use Rattle.stored_book.specs.Standing.{StandsForBook};
ghost use Rattle.tree_walk.specs.Walk.{FitsAny};
ghost use Rattle.series_catalog.specs.Shown.{series_in};
ghost use Rattle.page_space.specs.Shown as spaces;
ghost use Rattle.series_store.specs.Shown as shown;

use crate::errors::StoreError;
use crate::store::Store;
use block_disk::Back;
use gate_pages::Pages;
use page_space::{Space, SpaceError};
use series_catalog::{Catalog, CatalogError, read_catalog};
use std::alloc::Global;
use tree_walk::{Trail, Tree};

/// No series is selected.
pub(crate) const NO_TREE: Tree = Tree {
    slots: 0,
    root: 0,
    span: None,
};

/// What an error of a space is in a store. `Full` comes from no opening.
pub(crate) fn space_error(error: SpaceError) -> StoreError
    ensures { result ≡ space_error_of error }
{
    match error {
        SpaceError::NotAStore => StoreError::NotAStore,
        SpaceError::Full { .. } | SpaceError::NoMemory => StoreError::NoMemory,
        SpaceError::DiskFault => StoreError::DiskFault,
        SpaceError::Damaged { page } => StoreError::Damaged { page },
    }
}

fn catalog_error(error: CatalogError) -> StoreError
    ensures { result ≡ catalog_error_of error }
{
    match error {
        CatalogError::DiskFault => StoreError::DiskFault,
        CatalogError::Damaged { page } => StoreError::Damaged { page },
        CatalogError::NoMemory => StoreError::NoMemory,
    }
}

/// A catalog without a series and an empty trail.
fn parts(alloc: Global) -> Result<(Catalog, Trail), StoreError>
    ensures catalog { IfOk result (λ parts. series_in parts.0 ≡ []) }
    ensures trail { IfOk result (λ parts. FitsAny parts.1) }
    ensures err { IfErr result (λ e. e ≡ StoreError.NoMemory) }
{
    let Ok(catalog) = Catalog::new(alloc) else {
        return Err(StoreError::NoMemory);
    };
    let Ok(trail) = Trail::new(alloc) else {
        return Err(StoreError::NoMemory);
    };
    Ok((catalog, trail))
}

impl<P: Pages> Store<P> {
    /// Makes the pages a store without a series, in one commit, whatever they were. After `DiskFault` they
    /// aren't sound. Where there is no memory, they are as they were.
    pub fn init(alloc: Global, pages: P) -> Result<Store<P>, Back<P, StoreError>>
        requires sound { (P.view pages).fit }
        requires many { 62 ≤ (P.view pages).size }
        ensures cause { IfErr result (λ back. IsOutside back.cause) }
        ensures fault { IfErr result (λ back. back.cause ≡ StoreError.DiskFault
            → HasRisen (P.view pages).faults (P.view back.value).faults) }
        ensures quiet { IfOk result (λ store. (shown.view store).faults ≡ (P.view pages).faults) }
        ensures quiet_err { IfErr result (λ back. back.cause ≢ StoreError.DiskFault → (P.view back.value).faults ≡ (P.view pages).faults) }
        ensures unsound { IfErr result (λ back. back.cause ≡ StoreError.DiskFault → (P.view back.value).fit → ⊥) }
        ensures no_memory { IfErr result (λ back. back.cause ≡ StoreError.NoMemory → back.value ≡ pages) }
        ensures store { IfOk result (λ store. P.told pages → StandsForBook (shown.image store) (P.view pages).size []) }
        ensures sound { IfOk result (λ store. shown.IsSound store) }
        ensures none { IfOk result (λ store. shown.SelectsNone store) }
        // a crash at any moment leaves the pages from before, or the store
        ensures moments { MakesStore (P.view pages) (P.view (pages_in result)) }
        ensures told { P.told pages → P.told (pages_in result) }
        ensures goes_on { GoesOn (P.under pages) (P.under (pages_in result)) }
        ensures size { (P.view (pages_in result)).size ≡ (P.view pages).size }
        ensures beside { (P.view (pages_in result)).beside ≡ (P.view pages).beside }
    {
        let _count = pages.count();
        let (catalog, trail) = match parts(alloc) {
            Ok(parts) => parts,
            Err(cause) => return Err(Back {
                value: pages,
                cause,
            }),
        };
        match Space::init(alloc, pages) {
            Ok(space) => Ok(Store {
                alloc,
                space,
                catalog,
                trail,
                tree: NO_TREE,
            }),
            Err(Back { value, cause }) => Err(Back {
                value,
                cause: space_error(cause),
            }),
        }
    }

    /// The store that the pages hold. It reads page 0 and the catalog, 17 blocks at most, and writes nothing.
    ///
    /// `NotAStore` where page 0 lacks the magic, `Damaged` where it breaks its layout else, or a page of
    /// the catalog does, or repeats a name.
    pub fn open(alloc: Global, pages: P) -> Result<Store<P>, Back<P, StoreError>>
        requires sound { (P.view pages).fit }
        requires many { 62 ≤ (P.view pages).size }
        ensures cause { IfErr result (λ back. IsOpenCause back.cause (P.told pages) (P.view pages) (P.view back.value)) }
        ensures quiet { IfOk result (λ store. (shown.view store).faults ≡ (P.view pages).faults) }
        ensures quiet_err { IfErr result (λ back. back.cause ≢ StoreError.DiskFault → (P.view back.value).faults ≡ (P.view pages).faults) }
        ensures place { IfErr result (λ back. IsFirstPage back.cause) }
        ensures none { IfOk result (λ store. shown.SelectsNone store) }
        ensures a_store { (total : ℕ) (book : List Series) → P.told pages → total ≤ (P.view pages).size
            → StandsForBook (P.view pages).image total book → IfErr result (λ back. IsOutside back.cause) }
        ensures reads { ReadsMost 17 (P.told pages) (P.told (pages_in result)) (P.view pages) (P.view (pages_in result)) }
        ensures goes_on { GoesOn (P.under pages) (P.under (pages_in result)) }
    {
        let Ok(trail) = Trail::new(alloc) else {
            return Err(Back {
                value: pages,
                cause: StoreError::NoMemory,
            });
        };
        match Space::open(alloc, pages) {
            Ok(space) => Store::with_catalog(alloc, space, trail),
            Err(Back { value, cause }) => Err(Back {
                value,
                cause: space_error(cause),
            }),
        }
    }

    /// The store of a space, whose catalog is read.
    fn with_catalog(
        alloc: Global,
        mut space: Space<P>,
        trail: Trail,
    ) -> Result<Store<P>, Back<P, StoreError>>
        requires sound { spaces.IsSound space }
        requires trail { FitsAny trail }
        ensures place { IfErr result (λ back. IsFirstPage back.cause) }
        ensures none { IfOk result (λ store. shown.SelectsNone store) }
        ensures cause { IfErr result (λ back. IsReadCause back.cause (spaces.IsTold space) (spaces.numbers space) (spaces.view space)
            (P.view back.value)) }
        ensures quiet { IfOk result (λ store. (shown.view store).faults ≡ (spaces.view space).faults) }
        ensures quiet_err { IfErr result (λ back. back.cause ≢ StoreError.DiskFault
            → (P.view back.value).faults ≡ (spaces.view space).faults) }
        ensures reads { ReadsMost 16 (spaces.IsTold space) (P.told (pages_in result)) (spaces.view space) (P.view (pages_in result)) }
        ensures goes_on { GoesOn (spaces.under space) (P.under (pages_in result)) }
    {
        let _total = space.total();
        match read_catalog(alloc, &mut space) {
            Ok(catalog) => Ok(Store {
                alloc,
                space,
                catalog,
                trail,
                tree: NO_TREE,
            }),
            Err(cause) => Err(Back {
                value: space.into_pages(),
                cause: catalog_error(cause),
            }),
        }
    }
}
