//! All pages of a store that are in use or freed are read, and what they hold is counted.
ghost use Rattle.std.specs.Prelude.{◌≡◌, ◌≤◌, ◌<◌, ◌+◌, ℕ, List, IfOk, IfErr, OnOk, ◌≢◌};
ghost use Rattle.page_space.specs.Spaces.{Stands};
ghost use Rattle.series_store.specs.Counting.{values_of, ReadsTrees, ReadsOnce, AreCounts, AreNumbers, AreSound, AreSoundTrees};
ghost use Rattle.series_store.specs.Counting.{IsSoundChain, NamesWithin, IsCheckCause, IsTreesCause, IsChainCause};
ghost use Rattle.series_store.specs.Opening.{IsOutside};
ghost use Rattle.series_catalog.specs.Catalogs.{AreFit};
ghost use Rattle.series_catalog.specs.Shown.{series_in};
ghost use Rattle.page_space.specs.Shown as spaces;
ghost use Rattle.series_store.specs.Looking as looks;
ghost use Rattle.series_store.specs.Shown as shown;

use crate::counting::count_values;
use crate::counts::Counts;
use crate::errors::StoreError;
use crate::opening::space_error;
use crate::store::Store;
use gate_pages::Pages;
use om3_coeff::page_levels;
use page_space::Space;
use series_catalog::Catalog;
use std::alloc::Global;

/// How many values the trees of all series store.
fn count_trees<P: Pages>(space: &mut Space<P>, catalog: &Catalog) -> Result<u64, StoreError>
    requires sound { spaces.IsSound space.old }
    requires fits { AreFit (spaces.numbers space.old).fresh (series_in catalog.now) }
    ensures looks { looks.OnlyLooks space.old space.new }
    ensures within { IfErr result (NamesWithin (spaces.total space.old)) }
    ensures cause { IfErr result (λ e. IsTreesCause e (spaces.IsTold space.old) (spaces.view space.old) (spaces.view space.new)
        (spaces.total space.old) (series_in catalog.now)) }
    ensures quiet { OnOk result ((spaces.view space.new).faults ≡ (spaces.view space.old).faults) }
    ensures quiet_err { IfErr result (λ e. e ≢ StoreError.DiskFault → (spaces.view space.new).faults ≡ (spaces.view space.old).faults) }
    ensures counts { looks.ForCatalog space.old catalog.now (λ book. IfOk result (λ values. values ≡ values_of book)) }
    ensures stands { looks.ForCatalog space.old catalog.now (λ book. IfErr result (λ e. e ≡ StoreError.DiskFault)) }
    ensures reads { spaces.IsTold space.old → ReadsTrees (spaces.image space.old) (series_in catalog.now) (spaces.view space.old).reads
        (spaces.view space.new).reads }
    ensures whole { spaces.IsTold space.old → OnOk result
        (AreSoundTrees (spaces.image space.old) (spaces.total space.old) (series_in catalog.now)) }
{
    let mut values = 0;
    for id in 0..catalog.len() {
        let tree = catalog.series(id as u16).tree;
        let levels = page_levels(tree.slots);
        let more = count_values(space, tree.slots, levels, 0, tree.root, tree.span)?;
        values += more;
    }
    Ok(values)
}

/// Reads the pages of the chain: they are taken in a transaction, which is dropped.
fn pass_chain<P: Pages>(alloc: Global, space: &mut Space<P>) -> Result<(), StoreError>
    requires sound { spaces.IsSound space.old }
    ensures looks { looks.OnlyLooks space.old space.new }
    ensures within { IfErr result (NamesWithin (spaces.total space.old)) }
    ensures cause { IfErr result (λ e. IsChainCause e (spaces.IsTold space.old) (spaces.numbers space.old) (spaces.view space.old)
        (spaces.view space.new)) }
    ensures quiet { OnOk result ((spaces.view space.new).faults ≡ (spaces.view space.old).faults) }
    ensures quiet_err { IfErr result (λ e. e ≢ StoreError.DiskFault → (spaces.view space.new).faults ≡ (spaces.view space.old).faults) }
    ensures stands { (count : ℕ) (taken freed : List ℕ) → spaces.IsTold space.old
        → Stands count (spaces.image space.old) (spaces.numbers space.old) taken freed → IfErr result IsOutside }
    ensures reads { (spaces.view space.new).reads ≤ (spaces.view space.old).reads + (spaces.numbers space.old).chain }
    ensures whole { spaces.IsTold space.old → OnOk result
        (IsSoundChain (spaces.image space.old) (spaces.numbers space.old) (spaces.numbers space.old).chain) }
{
    let mut txn = space.begin(alloc)?;
    let freed = space.fresh() - space.used();
    for _ in 0..freed {
        if let Err(error) = space.alloc(&mut txn) {
            return Err(space_error(error));
        }
    }
    Ok(())
}

impl<P: Pages> Store<P> {
    /// Reads every page of the trees and of the chain, and counts: the series, the values that they store,
    /// and the pages in use. Page 0 and the catalog were read at opening. Nothing is written, and the
    /// selected series stays.
    ///
    /// Each page that is read is checked; the first that is bad for its place is `Damaged`. Where the pages
    /// stand for a book none is.
    pub fn check(&mut self) -> Result<Counts, StoreError>
        requires sound { shown.IsSound self.old }
        ensures counts { shown.ForBook self.old (λ total book. IfOk result (λ counts. AreCounts total book counts)) }
        ensures a_store { shown.ForBook self.old (λ total book. IfErr result IsOutside) }
        // each page of the trees and of the chain is read once at most
        ensures reads { shown.ForBook self.old (λ total book. ReadsOnce (shown.numbers self.old) (shown.view self.old)
            (shown.view self.new)) }
        ensures numbers { IfOk result (λ counts. AreNumbers (shown.numbers self.old) counts) }
        ensures whole { shown.IsTold self.old → OnOk result (AreSound (shown.image self.old) (shown.numbers self.old)) }
        ensures within { IfErr result (NamesWithin (shown.total self.old)) }
        ensures cause { IfErr result (λ e. IsCheckCause e (shown.IsTold self.old) (shown.numbers self.old) (shown.view self.old)
            (shown.view self.new)) }
        ensures quiet { OnOk result ((shown.view self.new).faults ≡ (shown.view self.old).faults) }
        ensures quiet_err { IfErr result (λ e. e ≢ StoreError.DiskFault → (shown.view self.new).faults ≡ (shown.view self.old).faults) }
        ensures looks { shown.OnlyLooks self.old self.new }
        ensures catalog { self.new.catalog ≡ self.old.catalog }
        ensures selected { shown.SelectsSame self.old self.new }
    {
        let values = count_trees(&mut self.space, &self.catalog)?;
        pass_chain(self.alloc, &mut self.space)?;
        Ok(Counts {
            series: self.catalog.len(),
            values,
            used: self.space.used(),
            total: self.space.total(),
        })
    }
}
