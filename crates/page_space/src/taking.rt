//! A page is taken.
ghost use Rattle.std.specs.Prelude.{◌≡◌, ◌≢◌, ◌<◌, ◌+◌, ◌^◌, is_some, IsTrue, IfOk, IfErr, OnOk, OnErr};
ghost use Rattle.page_space.specs.Causes.{FromFresh};
ghost use Rattle.page_space.specs.Changing.{TakesInto};
ghost use Rattle.page_space.specs.Layout.{IsGiven, IsSuperblock, IsNext, IsFull, in_use, without_head};
ghost use Rattle.page_space.specs.Shown as shown;
ghost use Rattle.page_space.specs.Transactions.{held_page, OnlyFirst};
ghost use Rattle.page_space.specs.declared.errors.SpaceError.{SpaceError};

use crate::errors::SpaceError;
use crate::freed_page::next_of;
use crate::space::Space;
use crate::superblock::Superblock;
use crate::txn::Txn;
use block_disk::BLOCK;
use gate_pages::Pages;

impl<P: Pages> Space<P> {
    /// Takes a page: the head of the chain where there is one, else the first that was never used.
    ///
    /// `Full` exactly where no page is free in the transaction: one more than the pages in use would be
    /// needed, and the store has so many. `Damaged` where the head of the chain breaks its layout. After
    /// an error the transaction is as it was.
    pub fn alloc(&mut self, txn: &mut Txn) -> Result<u32, SpaceError>
        requires sound { shown.IsSound self.old }
        requires total { txn.old.superblock.total ≡ shown.total self.old }
        ensures takes { IfOk result (λ p. shown.TakesPage self.old txn.old txn.new.superblock p) }
        ensures cause { IfErr result (λ cause. shown.RefusesPage cause txn.old self.old self.new) }
        ensures quiet { OnOk result ((shown.view self.new).faults ≡ (shown.view self.old).faults) }
        ensures quiet_err { IfErr result (λ cause. cause ≢ SpaceError.DiskFault
            → (shown.view self.new).faults ≡ (shown.view self.old).faults) }
        ensures given { IfOk result (λ p. IsGiven txn.new.superblock.fresh p) }
        ensures one_more { IfOk result (λ p. in_use txn.new.superblock ≡ in_use txn.old.superblock + 1) }
        ensures same_total { txn.new.superblock.total ≡ txn.old.superblock.total }
        ensures pages { OnlyFirst txn.old txn.new }
        ensures same { OnErr result (txn.new ≡ txn.old) }
        ensures reads { shown.ReadsOne self.old self.new }
        ensures goes_on { shown.TimeGoesOn self.old self.new }
        ensures superblock { shown.numbers self.new ≡ shown.numbers self.old }
        // no block is read where the chain is empty, or its head is held: by the transaction, which freed that page, or in memory
        ensures unread { txn.old.superblock.chain ≡ 0 → self.new ≡ self.old }
        ensures freed { IsTrue (is_some (held_page txn.old txn.old.superblock.head)) → self.new ≡ self.old }
        ensures hit { shown.Holds self.old txn.old.superblock.head → self.new ≡ self.old }
        ensures others { shown.KeepsCopiesOff txn.old.superblock.head self.old self.new }
        // the page was not in use, and now it is
        ensures stands { shown.IsTold self.old → IfOk result (λ p. TakesInto (shown.image self.old) p txn.old txn.new) }
        // where the pages stand, none is damaged
        ensures undamaged { shown.ForStanding self.old txn.old (λ page. IfErr result (λ cause. cause ≢ SpaceError.Damaged page)) }
    {
        let (p, superblock) = self.next_free(txn)?;
        txn.settle(superblock);
        Ok(p)
    }

    /// The page that is taken next, and the numbers of page 0 once it is.
    fn next_free(&mut self, txn: &Txn) -> Result<(u32, Superblock), SpaceError>
        requires sound { shown.IsSound self.old }
        requires total { txn.now.superblock.total ≡ shown.total self.old }
        ensures takes { IfOk result (λ found. shown.TakesPage self.old txn.now found.1 found.0) }
        ensures cause { IfErr result (λ cause. shown.RefusesPage cause txn.now self.old self.new) }
        ensures quiet { OnOk result ((shown.view self.new).faults ≡ (shown.view self.old).faults) }
        ensures quiet_err { IfErr result (λ cause. cause ≢ SpaceError.DiskFault
            → (shown.view self.new).faults ≡ (shown.view self.old).faults) }
        ensures reads { shown.ReadsOne self.old self.new }
        ensures goes_on { shown.TimeGoesOn self.old self.new }
        ensures superblock { shown.numbers self.new ≡ shown.numbers self.old }
        ensures unread { txn.now.superblock.chain ≡ 0 → self.new ≡ self.old }
        ensures freed { IsTrue (is_some (held_page txn.now txn.now.superblock.head)) → self.new ≡ self.old }
        ensures hit { shown.Holds self.old txn.now.superblock.head → self.new ≡ self.old }
        ensures others { shown.KeepsCopiesOff txn.now.superblock.head self.old self.new }
        ensures rules { IfOk result (λ found. IsSuperblock found.1.total found.1) }
        ensures same_total { IfOk result (λ found. found.1.total ≡ txn.now.superblock.total) }
        ensures small { IfOk result (λ found. (txn.now.superblock.fresh < 2 ^ 32) × (found.1.head < 2 ^ 32)) }
    {
        let superblock = txn.superblock;
        if superblock.chain == 0 {
            return superblock.with_fresh();
        }
        let mut page = [0; BLOCK];
        self.read(txn, superblock.head, &mut page)?;
        let Some(next) = next_of(&page, &superblock) else {
            return Err(SpaceError::Damaged {
                page: superblock.head,
            });
        };
        Ok((superblock.head, superblock.without_head(next)))
    }
}

impl Superblock {
    /// The first page that was never used, and the numbers once it is taken.
    fn with_fresh(self) -> Result<(u32, Superblock), SpaceError>
        requires rules { IsSuperblock self.total self }
        requires none { self.chain ≡ 0 }
        ensures fresh { IfOk result (λ found. FromFresh self found.1 found.0) }
        ensures rules { IfOk result (λ found. IsSuperblock found.1.total found.1) }
        ensures small { IfOk result (λ found. (self.fresh < 2 ^ 32) × (found.1.head < 2 ^ 32)) }
        ensures full { IfErr result (λ cause. IsFull self × (cause ≡ SpaceError.Full (in_use self + 1) self.total)) }
    {
        if self.fresh == self.total {
            return Err(SpaceError::Full {
                needed: u64::from(self.used()) + 1,
                have: u64::from(self.total),
            });
        }
        let fresh = self.fresh + 1;
        Ok((self.fresh, Superblock { fresh, ..self }))
    }
    /// The numbers once the head of the chain is taken, where this is the next page of it.
    fn without_head(self, next: u32) -> Superblock
        requires rules { IsSuperblock self.total self }
        requires some { self.chain ≢ 0 }
        requires next { IsNext self next }
        ensures numbers { result ≡ without_head self next }
        ensures rules { IsSuperblock result.total result }
        ensures small { (self.fresh < 2 ^ 32) × (result.head < 2 ^ 32) }
    {
        let chain = self.chain - 1;
        Superblock {
            head: next,
            chain,
            ..self
        }
    }
}
