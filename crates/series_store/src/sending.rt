//! The values of a tree are sent as texts, page by page.
ghost use Rattle.std.specs.Prelude.{◌≡◌, ◌<◌, ◌≤◌, ◌+◌, ◌++◌, [], length, false, IsTrue, Err, IfErr, OnOk, ◌≢◌};
ghost use Rattle.om3_coeff.specs.Keys.{first_slot, end_slot};
ghost use Rattle.om3_coeff.specs.Spans.{IsProperIfAny};
ghost use Rattle.page_space.specs.Shown as spaces;
ghost use Rattle.path_repair.specs.Keeping.{IsMatched};
ghost use Rattle.tree_walk.specs.Trees.{top_of_page};
ghost use Rattle.series_book.specs.declared.limits.TheConstants.{MOST_SLOTS};
ghost use Rattle.series_store.specs.Sending.{CutsBelow, first_said, ForFitBelow, ForListBelow, GivesMore, IsNoDamage, IsSendCause};
ghost use Rattle.series_store.specs.Sending.{IsSilent, IsTextCause, may_be_said_in, SendsBelow, SendsBy};

use crate::counting::read_page;
use crate::send_errors::SendError;
use crate::texts::Texts;
use block_disk::Streams;
use gate_pages::PageWorld;
use node_page::child_of;
use om3_coeff::{Key, Span};
use page_space::Space;
use page_spans::PageSpans;

/// So many bytes wait at most before they are sent.
const PIECE: usize = 16_384;

/// Sends what waits.
pub(crate) fn send_waiting<P: PageWorld>(
    space: &mut Space<P>,
    out: &mut Vec<u8>,
) -> Result<(), SendError>
    ensures none { OnOk result (out.new.items ≡ []) }
    ensures sends { SendsBy space.old space.new }
    ensures reads { (spaces.view space.new).reads ≡ (spaces.view space.old).reads }
    ensures gives { GivesMore (λ text. text) result space.old space.new out.old.items out.new.items }
    ensures cause { IfErr result (λ e. IsTextCause e (spaces.view space.old) (spaces.view space.new)) }
    ensures quiet { (spaces.view space.new).faults ≡ (spaces.view space.old).faults }
    ensures quiet_sends { result ≢ Err SendError.SendFault
        → (spaces.view space.new).beside.send_faults ≡ (spaces.view space.old).beside.send_faults }
{
    let Ok(()) = space.send(out.as_slice()) else {
        return Err(SendError::SendFault);
    };
    out.clear();
    Ok(())
}

/// Gives the text of a value; what waits is sent once it is a piece.
fn send_value<P: PageWorld, T: Texts>(
    space: &mut Space<P>,
    slot: u64,
    value: i64,
    texts: &T,
    out: &mut Vec<u8>,
) -> Result<(), SendError>
    requires within { slot < T.slots texts.now }
    ensures few { OnOk result (length out.new.items < 16384) }
    ensures sends { SendsBy space.old space.new }
    ensures reads { (spaces.view space.new).reads ≡ (spaces.view space.old).reads }
    ensures gives { GivesMore (λ text. text ++ T.text texts.now slot value) result space.old space.new out.old.items out.new.items }
    ensures cause { IfErr result (λ e. IsTextCause e (spaces.view space.old) (spaces.view space.new)) }
    ensures quiet { (spaces.view space.new).faults ≡ (spaces.view space.old).faults }
    ensures quiet_sends { result ≢ Err SendError.SendFault
        → (spaces.view space.new).beside.send_faults ≡ (spaces.view space.old).beside.send_faults }
{
    texts.add(slot, value, out)?;
    if out.len() < PIECE {
        return Ok(());
    }
    send_waiting(space, out)
}

/// Whether something may be said of the slots of the page of this page level and index, among the first so many.
fn may_say<T: Texts>(level: u8, index: u64, slots: u64, texts: &T) -> bool
    requires level { level ≤ 5 }
    requires few { end_slot (top_of_page level index) ≤ MOST_SLOTS }
    requires slots { slots ≤ T.slots texts.now }
    ensures silent { result ≡ false → IsSilent (first_said slots (T.text texts.now)) (first_slot (top_of_page level index))
        (end_slot (top_of_page level index)) }
    ensures within { IsTrue result → first_slot (top_of_page level index) < slots }
    ensures may { result ≡ may_be_said_in (T.may_be_said texts.now) slots level index }
{
    let top = Key {
        level: 7 * level,
        index,
    };
    if top.first() >= slots {
        return false;
    }
    texts.may_say(top.first(), top.end().min(slots))
}

/// Sends what is said of the values in the range of this page level and index, which has this span: of a
/// slot, or of those below this page, and of none but the first so many slots. What waits at the end is fewer bytes than a piece.
pub(crate) fn send_below<P: PageWorld, T: Texts>(
    space: &mut Space<P>,
    level: u8,
    index: u64,
    slots: u64,
    page: u32,
    top: Option<Span>,
    texts: &T,
    out: &mut Vec<u8>,
) -> Result<(), SendError>
    requires sound { (spaces.view space.old).fit }
    requires level { level ≤ 5 }
    requires range { end_slot (top_of_page level index) ≤ MOST_SLOTS }
    requires slots { slots ≤ T.slots texts.now }
    requires page { page < spaces.total space.old }
    requires proper { IsProperIfAny top }
    requires matched { 1 ≤ level → IsMatched page top }
    requires few { length out.old.items < 16384 }
    ensures few { OnOk result (length out.new.items < 16384) }
    ensures sends { SendsBy space.old space.new }
    ensures cause { IfErr result (λ e. IsSendCause e (spaces.IsTold space.old) (spaces.view space.old) (spaces.view space.new)
        (spaces.total space.old) level page top) }
    ensures quiet { OnOk result ((spaces.view space.new).faults ≡ (spaces.view space.old).faults) }
    ensures quiet_err { IfErr result (λ e. e ≢ SendError.DiskFault → (spaces.view space.new).faults ≡ (spaces.view space.old).faults) }
    ensures quiet_sends { result ≢ Err SendError.SendFault
        → (spaces.view space.new).beside.send_faults ≡ (spaces.view space.old).beside.send_faults }
    ensures part { ForFitBelow space.old level index page top
        (SendsBelow (first_said slots (T.text texts.now))
        (T.may_be_said texts.now) slots level index space.old space.new out.old.items out.new.items result) }
    ensures cut { ForFitBelow space.old level index page top
        (CutsBelow (first_said slots (T.text texts.now)) level index page top space.old space.new out.old.items out.new.items result) }
    ensures no_damage { ForListBelow space.old level index page top (λ list. IfErr result IsNoDamage) }
{
    let Some(span) = top else {
        return Ok(());
    };
    if !may_say(level, index, slots, texts) {
        return Ok(());
    }
    if level == 0 {
        return send_value(space, index, span.min, texts, out);
    }
    let mut bytes = [0; 4096];
    let mut spans = PageSpans::new();
    read_page(space, level, page, span, &mut bytes, &mut spans)?;
    for child in 0..128 {
        let under = child_of(&bytes, child);
        let part = spans.leaf(child);
        let at = 128 * index + child as u64;
        send_below(space, level - 1, at, slots, under, part, texts, out)?;
    }
    Ok(())
}
