//! Pages are brought to version 2.
ghost use Rattle.std.specs.Prelude.{◌≡◌, ◌≢◌, ◌≤◌, ◌<◌, length, IfOk, IfErr, OnOk, OnErr};
ghost use Rattle.block_disk.specs.Blocks.{IsBlock};
ghost use Rattle.block_disk.specs.Counts.{HasRisen};
ghost use Rattle.gate_pages.specs.Batch.{AllBelow};
ghost use Rattle.gate_pages.specs.Entries.{entries};
ghost use Rattle.gate_pages.specs.Pages.{Reads, GoesOn};
ghost use Rattle.store_upgrade.specs.OldStores.{HasOldMagic, has_old_magic, KeepsOldRules, IsOldStore};
ghost use Rattle.store_upgrade.specs.Upgraded.{upgraded_page, current};
ghost use Rattle.store_upgrade.specs.Upgrading.{Prevents, IsPlace, IsOutside, Stops, Looks, Upgrades, BreaksAt, StopsFirst, HasOldCatalog};
ghost use Rattle.store_upgrade.specs.Upgrading.{HasNewPages};

use crate::errors::UpgradeError;
use crate::layout::FIRST;
use crate::old_pages::{is_old_first, is_old_page};
use crate::renewing::{renew_first, renew_page};
use block_disk::BLOCK;
use gate_pages::{Batch, DiskFault, Pages};
use std::alloc::Global;

/// Brings pages of version 1 to version 2, in one commit. Other pages are left: it reads page 0 alone.
///
/// `Damaged` comes where a page of the catalog breaks a rule of version 1. Then nothing is written.
pub fn upgrade<P: Pages>(alloc: Global, pages: &mut P) -> Result<(), UpgradeError>
    requires sound { (P.view pages.old).fit }
    requires many { 62 ≤ (P.view pages.old).size }
    ensures cause { IfErr result (λ cause. Prevents cause (P.told pages.old) (P.view pages.old) (P.view pages.new)) }
    ensures quiet { OnOk result ((P.view pages.new).faults ≡ (P.view pages.old).faults) }
    ensures quiet_err { IfErr result (λ cause. cause ≢ UpgradeError.DiskFault → (P.view pages.new).faults ≡ (P.view pages.old).faults) }
    ensures place { IfErr result (λ cause. IsPlace cause) }
    // a crash at any moment leaves the pages from before or those that they become
    ensures upgrades { Upgrades (P.told pages.old) (P.told pages.new) (P.view pages.old) (P.view pages.new) }
    ensures goes_on { GoesOn (P.under pages.old) (P.under pages.new) }
    // after Ok the pages are of version 2, and a store of version 1 kept its rules
    ensures done { P.told pages.old → OnOk result ((P.view pages.new).image ≡ current (P.view pages.old).image) }
    ensures kept { P.told pages.old → OnOk result (HasOldMagic ((P.view pages.old).image 0) → IsOldStore (P.view pages.old).image) }
    ensures sound { OnOk result (P.view pages.new).fit }
    ensures stops { IfErr result (λ cause. Stops cause (P.told pages.old) (P.told pages.new) (P.view pages.old) (P.view pages.new)) }
    // pages without the old magic are only read, and of them page 0 alone
    ensures unwritten { P.told pages.old → (HasOldMagic ((P.view pages.old).image 0) → ⊥)
        → Reads (P.told pages.old) (P.told pages.new) (P.view pages.old) (P.view pages.new) }
{
    let mut block = vec![in alloc; 0; BLOCK]?;
    let page = block.as_mut_slice();
    let Ok(is_old) = read_first(pages, page) else {
        return Err(UpgradeError::DiskFault);
    };
    if !is_old {
        return Ok(());
    }
    match new_pages(alloc, pages, page) {
        Ok(batch) => match pages.commit(&batch) {
            Ok(()) => Ok(()),
            Err(_) => Err(UpgradeError::DiskFault),
        },
        Err(cause) => Err(cause),
    }
}

/// Whether pages have the old magic. It reads page 0.
pub fn is_old<P: Pages>(alloc: Global, pages: &mut P) -> Result<bool, UpgradeError>
    requires sound { (P.view pages.old).fit }
    requires many { 62 ≤ (P.view pages.old).size }
    ensures cause { IfErr result (λ cause. Prevents cause (P.told pages.old) (P.view pages.old) (P.view pages.new)) }
    ensures quiet { OnOk result ((P.view pages.new).faults ≡ (P.view pages.old).faults) }
    ensures quiet_err { IfErr result (λ cause. cause ≢ UpgradeError.DiskFault → (P.view pages.new).faults ≡ (P.view pages.old).faults) }
    ensures outside { IfErr result (λ cause. IsOutside cause) }
    ensures reads { Reads (P.told pages.old) (P.told pages.new) (P.view pages.old) (P.view pages.new) }
    ensures goes_on { GoesOn (P.under pages.old) (P.under pages.new) }
    ensures old { P.told pages.old → IfOk result (λ old. old ≡ has_old_magic ((P.view pages.old).image 0)) }
{
    let mut page = vec![in alloc; 0; BLOCK]?;
    let is_old = read_first(pages, page.as_mut_slice())?;
    Ok(is_old)
}

/// Reads page 0 into a buffer. Whether it has the old magic.
fn read_first<P: Pages>(pages: &mut P, page: &mut [u8]) -> Result<bool, DiskFault>
    requires sound { (P.view pages.old).fit }
    requires many { 62 ≤ (P.view pages.old).size }
    requires whole { IsBlock page.old }
    ensures whole { IsBlock page.new }
    ensures cause { OnErr result (HasRisen (P.view pages.old).faults (P.view pages.new).faults) }
    ensures quiet { OnOk result ((P.view pages.new).faults ≡ (P.view pages.old).faults) }
    ensures reads { Reads (P.told pages.old) (P.told pages.new) (P.view pages.old) (P.view pages.new) }
    ensures goes_on { GoesOn (P.under pages.old) (P.under pages.new) }
    ensures page { P.told pages.old → OnOk result (page.new ≡ (P.view pages.old).image 0) }
    ensures old { IfOk result (λ old. old ≡ has_old_magic page.new) }
{
    pages.get(0, page)?;
    Ok(is_old_first(page))
}

/// The pages of version 2 in place of these, of which the buffer has page 0.
fn new_pages<P: Pages>(alloc: Global, pages: &mut P, page: &mut [u8]) -> Result<Batch, UpgradeError>
    requires sound { (P.view pages.old).fit }
    requires many { 62 ≤ (P.view pages.old).size }
    requires whole { IsBlock page.old }
    ensures cause { IfErr result (λ cause. StopsFirst cause (P.told pages.old) (P.view pages.old) (P.view pages.new)) }
    ensures quiet { OnOk result ((P.view pages.new).faults ≡ (P.view pages.old).faults) }
    ensures quiet_err { IfErr result (λ cause. cause ≢ UpgradeError.DiskFault → (P.view pages.new).faults ≡ (P.view pages.old).faults) }
    ensures looks { Looks 16 (P.told pages.old) (P.told pages.new) (P.view pages.old) (P.view pages.new) }
    ensures goes_on { GoesOn (P.under pages.old) (P.under pages.new) }
    ensures few { IfOk result (λ batch. length (entries batch) ≡ 17) }
    ensures below { IfOk result (λ batch. AllBelow 17 (entries batch)) }
    ensures kept { P.told pages.old → OnOk result (HasOldCatalog 17 (P.view pages.old).image) }
    ensures pages { P.told pages.old → page.old ≡ (P.view pages.old).image 0
        → IfOk result (λ batch. HasNewPages 17 (entries batch) (P.view pages.old).image) }
{
    let mut batch = Batch::new(alloc)?;
    renew_first(page);
    batch.put(0, page);
    for p in 1..FIRST {
        new_page(pages, p, page)?;
        batch.put(p, page);
    }
    Ok(batch)
}

/// Reads a page of the catalog, and brings it to version 2 in the buffer.
fn new_page<P: Pages>(pages: &mut P, p: u32, page: &mut [u8]) -> Result<(), UpgradeError>
    requires sound { (P.view pages.old).fit }
    requires p_in_count { p < (P.view pages.old).size }
    requires whole { IsBlock page.old }
    ensures whole { IsBlock page.new }
    ensures cause { IfErr result (λ cause. BreaksAt p cause (P.told pages.old) (P.view pages.old) (P.view pages.new)) }
    ensures quiet { OnOk result ((P.view pages.new).faults ≡ (P.view pages.old).faults) }
    ensures quiet_err { IfErr result (λ cause. cause ≢ UpgradeError.DiskFault → (P.view pages.new).faults ≡ (P.view pages.old).faults) }
    ensures reads { Reads (P.told pages.old) (P.told pages.new) (P.view pages.old) (P.view pages.new) }
    ensures goes_on { GoesOn (P.under pages.old) (P.under pages.new) }
    ensures kept { P.told pages.old → OnOk result (KeepsOldRules ((P.view pages.old).image p)) }
    ensures page { P.told pages.old → OnOk result (page.new ≡ upgraded_page ((P.view pages.old).image p)) }
{
    pages.get(p, page)?;
    if !is_old_page(page) {
        return Err(UpgradeError::Damaged { page: p });
    }
    renew_page(page);
    Ok(())
}
