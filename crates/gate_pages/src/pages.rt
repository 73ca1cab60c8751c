//! Pages that are committed in batches.
ghost use Rattle.std.specs.Prelude.{◌≡◌, ◌<◌, ◌↔◌, [], IsTrue, IsOk, OnOk, OnErr};
ghost use Rattle.block_disk.specs.Blocks.{IsBlock};
ghost use Rattle.block_disk.specs.Counts.{HasRisen};
ghost use Rattle.block_disk.specs.View.{View, Now, Honest, Only};
ghost use Rattle.gate_pages.specs.Batch.{AllBelow, put_all};
ghost use Rattle.gate_pages.specs.Entries.{entries};
ghost use Rattle.gate_pages.specs.Pages.{Reads, Commits, GoesOn};

use crate::batch::Batch;
use crate::errors::DiskFault;

/// Pages of 4,096 bytes. A crash leaves the pages from before a commit or those from after it.
///
/// `get` and `commit` take no memory. `DiskFault` comes exactly where a fault is counted.
pub trait Pages: Drop {
    /// The pages, and what a crash at each moment so far may leave of them. They are fit where they
    /// are sound.
    ghost view: { Self → View };

    /// Reads give what the pages are.
    ghost told: { Self → Type 0 };

    /// What the pages lie on.
    ghost under: { Self → View };

    /// The number of pages. It never changes.
    fn count(&self) -> u32
        ensures { result ≡ (view self.now).size };

    /// Whether more calls may be made. After a fault in a commit they may not.
    fn is_sound(&self) -> bool
        ensures { IsTrue result ↔ (view self.now).fit };

    /// Reads a page. After `DiskFault`, `out` may hold anything.
    fn get(&mut self, p: u32, out: &mut [u8]) -> Result<(), DiskFault>
        requires p_in_count { p < (view self.old).size }
        requires whole { IsBlock out.old }
        requires sound { (view self.old).fit }
        ensures page { told self.old → OnOk result (out.new ≡ (view self.old).image p) }
        ensures reads { Reads (told self.old) (told self.new) (view self.old) (view self.new) }
        ensures goes_on { GoesOn (under self.old) (under self.new) }
        ensures cause { OnErr result (HasRisen (view self.old).faults (view self.new).faults) }
        ensures quiet { OnOk result ((view self.new).faults ≡ (view self.old).faults) };

    /// Commits a batch. After `DiskFault` the pages aren't sound, and have to be opened again.
    fn commit(&mut self, batch: &Batch) -> Result<(), DiskFault>
        requires below { AllBelow (view self.old).size (entries batch.now) }
        requires sound { (view self.old).fit }
        // whole or absent at every moment
        ensures commits { Commits (entries batch.now) (told self.old) (told self.new) (view self.old) (view self.new) }
        // after Ok the new pages are there, and a crash leaves them
        ensures done { told self.old → OnOk result ((view self.new).image ≡ put_all (entries batch.now) (view self.old).image) }
        ensures sound { OnOk result (view self.new).fit }
        ensures unsound { OnErr result ((view self.new).fit → ⊥) }
        ensures goes_on { GoesOn (under self.old) (under self.new) }
        // an empty commit does nothing
        ensures empty_ok { entries batch.now ≡ [] → IsOk result }
        ensures empty { entries batch.now ≡ [] → self.new ≡ self.old }
        ensures cause { OnErr result (HasRisen (view self.old).faults (view self.new).faults) }
        ensures quiet { OnOk result ((view self.new).faults ≡ (view self.old).faults) };

    /// While the pages are sound a crash leaves them as they are.
    ghost rests: { (pages : Self) → (view pages).fit → Only (view pages).image (Now (view pages)) };

    /// Where a crash may leave the pages that reads give, reads give what the pages are.
    ghost tells: { (pages : Self) → (view pages).fit → Honest (view pages) → told pages };
}
