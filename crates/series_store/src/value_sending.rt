//! The values of a series are sent as texts.
ghost use Rattle.std.specs.Prelude.{◌≡◌, ◌<◌, ◌≤◌, ◌+◌, ◌++◌, ℤ, List, Option, Some, length, slice_get, Err, IfErr, OnOk, OnErr, ◌≢◌};
ghost use Rattle.block_disk.specs.Streams.{sent_after, PartSent};
ghost use Rattle.om3_coeff.specs.Keys.{page_levels};
ghost use Rattle.om3_coeff.specs.Spans.{IsProperIfAny};
ghost use Rattle.page_space.specs.Shown as spaces;
ghost use Rattle.path_repair.specs.Keeping.{IsMatched};
ghost use Rattle.series_book.specs.declared.limits.TheConstants.{MOST_SLOTS};
ghost use Rattle.series_catalog.specs.declared.stored_series.StoredSeries.{StoredSeries};
ghost use Rattle.tree_walk.specs.Trees.{StandsFor};
ghost use Rattle.series_store.specs.Sending.{texts_of, pages_said, CutsSeries, HasUnfitFrom, IsCauseOf, SendsCut, SendsBy, SendsOn};
ghost use Rattle.series_store.specs.Sending.{IsSeriesCause, IsNoDamage};
ghost use Rattle.series_store.specs.Shown as shown;
ghost use Rattle.series_store.specs.WhereFit.{StandsWhereFit};

use crate::send_errors::SendError;
use crate::sending::{send_below, send_waiting};
use crate::store::Store;
use crate::texts::Texts;
use gate_pages::PageWorld;
use om3_coeff::page_levels;
use page_space::Space;
use tree_walk::Tree;

/// Sends what waits and what is said of the values of a tree. Where a page is damaged, what is said of the values
/// in front of it is sent before; where that send fails, `SendFault` comes in place of `Damaged`.
fn send_tree<P: PageWorld, T: Texts>(
    space: &mut Space<P>,
    tree: Tree,
    texts: &T,
    out: &mut Vec<u8>,
) -> Result<(), SendError>
    requires sound { (spaces.view space.old).fit }
    requires few_slots { tree.slots ≤ MOST_SLOTS }
    requires slots { tree.slots ≤ T.slots texts.now }
    requires root { tree.root < spaces.total space.old }
    requires proper { IsProperIfAny tree.span }
    requires matched { IsMatched tree.root tree.span }
    requires few { length out.old.items < 16384 }
    ensures sent { (list : List (Option ℤ)) → spaces.IsTold space.old
        → StandsWhereFit (spaces.view space.old).image (spaces.total space.old) tree list
        → OnOk result ((spaces.view space.new).beside.sent ≡ sent_after (out.old.items ++ texts_of (T.text texts.now) list)
        (spaces.view space.old).beside.sent) }
    ensures part { (list : List (Option ℤ)) → spaces.IsTold space.old
        → StandsWhereFit (spaces.view space.old).image (spaces.total space.old) tree list
        → OnErr result (PartSent (out.old.items ++ texts_of (T.text texts.now) list) (spaces.view space.old).beside.sent
        (spaces.view space.new).beside.sent) }
    ensures cut { (list : List (Option ℤ)) → spaces.IsTold space.old
        → StandsWhereFit (spaces.view space.old).image (spaces.total space.old) tree list
        → IfErr result (λ e. SendsCut e (HasUnfitFrom (spaces.view space.old).image (spaces.total space.old)
        (page_levels tree.slots) 0 tree.root tree.span) (T.text texts.now) list out.old.items (spaces.view space.old).beside.sent
        (spaces.view space.new).beside.sent) }
    ensures no_damage { (list : List (Option ℤ)) → spaces.IsTold space.old
        → StandsFor (spaces.view space.old).image (spaces.total space.old) tree list → IfErr result IsNoDamage }
    ensures reads { (list : List (Option ℤ)) → spaces.IsTold space.old
        → StandsWhereFit (spaces.view space.old).image (spaces.total space.old) tree list
        → (spaces.view space.new).reads ≤ (spaces.view space.old).reads + pages_said (T.may_be_said texts.now) list }
    ensures sends { SendsBy space.old space.new }
    ensures cause { IfErr result (IsCauseOf tree space.old space.new) }
    ensures quiet { OnOk result ((spaces.view space.new).faults ≡ (spaces.view space.old).faults) }
    ensures quiet_err { IfErr result (λ e. e ≢ SendError.DiskFault → (spaces.view space.new).faults ≡ (spaces.view space.old).faults) }
    ensures quiet_sends { result ≢ Err SendError.SendFault
        → (spaces.view space.new).beside.send_faults ≡ (spaces.view space.old).beside.send_faults }
{
    let levels = page_levels(tree.slots);
    match send_below(
        space, levels, 0, tree.slots, tree.root, tree.span, texts, out,
    ) {
        Ok(()) => send_waiting(space, out),
        Err(SendError::Damaged { page }) => {
            // What is said of the values in front of the damage goes out first.
            send_waiting(space, out)?;
            Err(SendError::Damaged { page })
        }
        Err(error) => Err(error),
    }
}

impl<P: PageWorld> Store<P> {
    /// Sends the bytes of `out`, fewer than 16,384 of them, and behind them what `texts` says of each value of
    /// the series of this id, in the order of their slots. They go out in pieces: `out` never holds more than
    /// 16,384 bytes and a text. Each page of the series' tree is read once at most, and none where nothing
    /// may be said of its slots. A value that stands past the series' last slot is passed over.
    ///
    /// After an error a front of the bytes was sent. Each page that is read is checked; the first that is bad
    /// for its place is `Damaged`, and what is said of the values in front of it was sent before; where that send
    /// fails, `SendFault` comes in its place. Where the series' record and its tree stand for a series none is
    /// `Damaged`, whatever else the pages are; and where they do but for pages that fit no place of the tree, the bytes are those of
    /// that series. Nothing is written, and the selected series stays.
    pub fn send_values<T: Texts>(
        &mut self,
        id: u16,
        texts: &T,
        out: &mut Vec<u8>,
    ) -> Result<(), SendError>
        requires sound { (shown.view self.old).fit }
        requires there { id < length (shown.catalog self.old) }
        requires slots { (series : StoredSeries) → slice_get (shown.catalog self.old) id ≡ Some series
            → series.tree.slots ≤ T.slots texts.now }
        requires few { length out.old.items < 16384 }
        ensures sent { shown.ForFit self.old id (λ series.
            OnOk result (P.sent (shown.pages self.new)
            ≡ sent_after (out.old.items ++ texts_of (T.text texts.now) series.slots) (P.sent (shown.pages self.old)))) }
        ensures part { shown.ForFit self.old id (λ series.
            OnErr result (PartSent (out.old.items ++ texts_of (T.text texts.now) series.slots)
            (P.sent (shown.pages self.old)) (P.sent (shown.pages self.new)))) }
        // where a page is damaged, all that is said of the values before its slots was sent
        ensures cut { shown.ForFit self.old id (λ series. IfErr result (λ e. CutsSeries e (shown.image self.old) (shown.total self.old) id
            (T.text texts.now) series.slots out.old.items (P.sent (shown.pages self.old)) (P.sent (shown.pages self.new)))) }
        ensures no_damage { shown.ForKept self.old id (λ series. IfErr result IsNoDamage) }
        ensures reads { shown.ForFit self.old id (λ series. (shown.view self.new).reads ≤ (shown.view self.old).reads + pages_said
            (T.may_be_said texts.now) series.slots) }
        ensures cause { IfErr result (λ e. IsSeriesCause e (shown.IsTold self.old) (shown.numbers self.old) id (shown.view self.old)
            (shown.view self.new)) }
        ensures quiet { OnOk result ((shown.view self.new).faults ≡ (shown.view self.old).faults) }
        ensures quiet_err { IfErr result (λ e. e ≢ SendError.DiskFault → (shown.view self.new).faults ≡ (shown.view self.old).faults) }
        ensures quiet_sends { result ≢ Err SendError.SendFault
            → (shown.view self.new).beside.send_faults ≡ (shown.view self.old).beside.send_faults }
        ensures sends { SendsOn self.old self.new }
        ensures catalog { self.new.catalog ≡ self.old.catalog }
        ensures selected { (self.new.tree ≡ self.old.tree) × (self.new.trail ≡ self.old.trail) }
    {
        let tree = self.catalog.series(id).tree;
        send_tree(&mut self.space, tree, texts, out)
    }
}
