//! An empty store is written into pages.
ghost use Rattle.std.specs.Prelude.{◌≡◌, ◌≢◌, ◌≤◌, IfOk, IfErr};
ghost use Rattle.gate_pages.specs.Pages.{GoesOn};
ghost use Rattle.page_space.specs.Layout.{HasMagic};
ghost use Rattle.store_upgrade.specs.OldStores.{HasOldMagic};
ghost use Rattle.store_upgrade.specs.Upgraded.{current};
ghost use Rattle.empty_store.specs.Causes.{PreventsPages, given};
ghost use Rattle.empty_store.specs.Few.{Costs};
ghost use Rattle.empty_store.specs.Kept.{Stays};
ghost use Rattle.empty_store.specs.Stores.{IsEmptyStore, Makes};

use crate::errors::InitCause;
use block_disk::Back;
use gate_pages::Pages;
use page_space::{Space, SpaceError};
use std::alloc::Global;
use store_upgrade::{UpgradeError, is_old};

/// Makes pages an empty store where page 0 lacks the magic of either version.
pub(crate) fn make_pages<P: Pages>(alloc: Global, pages: P) -> Result<P, Back<P, InitCause>>
    requires sound { (P.view pages).fit }
    requires many { 62 ≤ (P.view pages).size }
    ensures cause { IfErr result (λ back. PreventsPages back.cause (P.told pages) (P.view pages) (P.view back.value)) }
    ensures quiet { IfOk result (λ made. (P.view made).faults ≡ (P.view pages).faults) }
    ensures quiet_err { IfErr result (λ back. back.cause ≢ InitCause.DiskFault → (P.view back.value).faults ≡ (P.view pages).faults) }
    ensures no_memory { IfErr result (λ back. back.cause ≡ InitCause.NoMemory → P.told pages
        → (P.view back.value).image ≡ (P.view pages).image) }
    ensures fresh { IfOk result (λ made. P.told pages → HasMagic (current (P.view pages).image 0) → ⊥) }
    ensures makes { P.told pages → Makes (P.view pages) (P.view (given result)) }
    ensures kept { P.told pages → HasMagic (current (P.view pages).image 0) → Stays (P.view pages) (P.view (given result)) }
    ensures told { P.told pages → P.told (given result) }
    ensures goes_on { GoesOn (P.under pages) (P.under (given result)) }
    ensures store { IfOk result (λ made. P.told pages → IsEmptyStore (P.view pages).size (P.view made).image) }
    ensures sound { IfOk result (λ made. (P.view made).fit) }
    ensures size { (P.view (given result)).size ≡ (P.view pages).size }
    ensures beside { (P.view (given result)).beside ≡ (P.view pages).beside }
    ensures few { Costs 2 4 37 (P.view pages) (P.view (given result)) }
    ensures faults { (P.view pages).faults ≤ (P.view (given result)).faults }
{
    match Space::open(alloc, pages) {
        Ok(space) => Err(Back {
            value: space.into_pages(),
            cause: InitCause::IsStore,
        }),
        Err(Back { value, cause }) => match cause {
            SpaceError::NotAStore => make_new(alloc, value),
            SpaceError::Damaged { .. } => Err(Back {
                value,
                cause: InitCause::IsStore,
            }),
            other => Err(Back {
                value,
                cause: cause_of(other),
            }),
        },
    }
}

/// Makes pages an empty store where page 0 lacks the magic of version 1.
fn make_new<P: Pages>(alloc: Global, mut pages: P) -> Result<P, Back<P, InitCause>>
    requires sound { (P.view pages).fit }
    requires many { 62 ≤ (P.view pages).size }
    ensures cause { IfErr result (λ back. PreventsPages back.cause (P.told pages) (P.view pages) (P.view back.value)) }
    ensures quiet { IfOk result (λ made. (P.view made).faults ≡ (P.view pages).faults) }
    ensures quiet_err { IfErr result (λ back. back.cause ≢ InitCause.DiskFault → (P.view back.value).faults ≡ (P.view pages).faults) }
    ensures no_memory { IfErr result (λ back. back.cause ≡ InitCause.NoMemory → P.told pages
        → (P.view back.value).image ≡ (P.view pages).image) }
    ensures fresh { IfOk result (λ made. P.told pages → HasOldMagic ((P.view pages).image 0) → ⊥) }
    ensures makes { P.told pages → Makes (P.view pages) (P.view (given result)) }
    ensures kept { P.told pages → HasOldMagic ((P.view pages).image 0) → Stays (P.view pages) (P.view (given result)) }
    ensures told { P.told pages → P.told (given result) }
    ensures goes_on { GoesOn (P.under pages) (P.under (given result)) }
    ensures store { IfOk result (λ made. P.told pages → IsEmptyStore (P.view pages).size (P.view made).image) }
    ensures sound { IfOk result (λ made. (P.view made).fit) }
    ensures size { (P.view (given result)).size ≡ (P.view pages).size }
    ensures beside { (P.view (given result)).beside ≡ (P.view pages).beside }
    ensures few { Costs 1 4 37 (P.view pages) (P.view (given result)) }
    ensures faults { (P.view pages).faults ≤ (P.view (given result)).faults }
{
    match is_old(alloc, &mut pages) {
        Ok(false) => write_pages(alloc, pages),
        Ok(true) => Err(Back {
            value: pages,
            cause: InitCause::IsStore,
        }),
        Err(UpgradeError::NoMemory) => Err(Back {
            value: pages,
            cause: InitCause::NoMemory,
        }),
        Err(_) => Err(Back {
            value: pages,
            cause: InitCause::DiskFault,
        }),
    }
}

/// Makes pages an empty store, whatever they were.
pub(crate) fn write_pages<P: Pages>(alloc: Global, pages: P) -> Result<P, Back<P, InitCause>>
    requires sound { (P.view pages).fit }
    requires many { 62 ≤ (P.view pages).size }
    ensures cause { IfErr result (λ back. PreventsPages back.cause (P.told pages) (P.view pages) (P.view back.value)) }
    ensures quiet { IfOk result (λ made. (P.view made).faults ≡ (P.view pages).faults) }
    ensures quiet_err { IfErr result (λ back. back.cause ≢ InitCause.DiskFault → (P.view back.value).faults ≡ (P.view pages).faults) }
    ensures never_there { IfErr result (λ back. back.cause ≢ InitCause.IsStore) }
    ensures no_memory { IfErr result (λ back. back.cause ≡ InitCause.NoMemory → back.value ≡ pages) }
    ensures unsound { IfErr result (λ back. back.cause ≡ InitCause.DiskFault → (P.view back.value).fit → ⊥) }
    ensures makes { Makes (P.view pages) (P.view (given result)) }
    ensures told { P.told pages → P.told (given result) }
    ensures goes_on { GoesOn (P.under pages) (P.under (given result)) }
    ensures store { IfOk result (λ made. P.told pages → IsEmptyStore (P.view pages).size (P.view made).image) }
    ensures sound { IfOk result (λ made. (P.view made).fit) }
    ensures size { (P.view (given result)).size ≡ (P.view pages).size }
    ensures beside { (P.view (given result)).beside ≡ (P.view pages).beside }
    ensures few { Costs 0 4 37 (P.view pages) (P.view (given result)) }
    ensures faults { (P.view pages).faults ≤ (P.view (given result)).faults }
{
    match Space::init(alloc, pages) {
        Ok(space) => Ok(space.into_pages()),
        Err(Back { value, cause }) => Err(Back {
            value,
            cause: cause_of(cause),
        }),
    }
}

/// What a fault of the disk or want of memory is here. `init` and `open` answer no `Full`.
fn cause_of(cause: SpaceError) -> InitCause
    ensures fault { cause ≡ SpaceError.DiskFault → result ≡ InitCause.DiskFault }
    ensures memory { cause ≢ SpaceError.DiskFault → result ≡ InitCause.NoMemory }
{
    match cause {
        SpaceError::DiskFault => InitCause::DiskFault,
        _ => InitCause::NoMemory,
    }
}
