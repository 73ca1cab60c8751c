//! A page that was changed is put, or given back where nothing is stored below it.
ghost use Rattle.std.specs.Prelude.{◌≡◌, ◌≢◌, ◌<◌, ◌≤◌, ◌+◌, ◌⊎◌, ℕ, ℤ, suc, Option, List, length};
ghost use Rattle.block_disk.specs.View.{Image};
ghost use Rattle.om3_coeff.specs.Spans.{IsProperIfAny, AreSlots};
ghost use Rattle.page_space.specs.Transactions.{left_by, held, held_page, told_by};
ghost use Rattle.path_repair.specs.Apart.{LeavesApart};
ghost use Rattle.page_spans.specs.Heaps.{span_at};
ghost use Rattle.path_repair.specs.Forms.{IsForm};
ghost use Rattle.path_repair.specs.Keeping.{IsMatched};
ghost use Rattle.page_space.specs.Shown as shown;
ghost use Rattle.path_repair.specs.Repairs as repairs;
ghost use Rattle.path_repair.specs.Standing.{IsPartWay, IsRepaired};

use crate::change::{Place, Root};
use gate_pages::Pages;
use page_space::{Space, Txn};
use page_spans::PageSpans;

/// Puts a page whose children and leaves are set, or gives it back where no leaf has a span.
pub(crate) fn close_page<P: Pages>(
    space: &mut Space<P>,
    txn: &mut Txn,
    at: Place,
    number: u32,
    bytes: &mut [u8],
    spans: &mut PageSpans,
) -> Root
    requires total { (told_by txn.old).total ≡ shown.total space.old }
    requires level { (1 ≤ at.level) × (at.level ≤ 5) }
    requires first { 1 ≤ number }
    requires below { number < shown.total space.old }
    requires form { IsForm at.level (shown.total space.old) bytes.old }
    requires room { length (held txn.old) < 64 }
    ensures moved { repairs.Moves 0 1 space.old space.new txn.old txn.new }
    ensures same { space.new ≡ space.old }
    ensures page { result.page < shown.total space.old }
    ensures proper { IsProperIfAny result.span }
    ensures root { (result.page ≡ 0) ⊎ (result.page ≡ number) }
    ensures matched { IsMatched result.page result.span }
    ensures others { (p : ℕ) → 1 ≤ p → p ≢ number → held_page txn.new p ≡ held_page txn.old p }
    ensures apart { LeavesApart number txn.old txn.new }
    ensures repaired { (base before : Image) (count : ℕ) (list list' : List (Option ℤ)) (others : List ℕ) (below : ℕ) → at.level ≡ suc below
        → AreSlots list'
        → IsPartWay count before (left_by txn.old base) (told_by txn.old) list list' at.height below at.index number bytes.old
        (λ child. span_at spans.old (127 + child)) 128 others
        → IsRepaired count before (left_by txn.new base) (told_by txn.new) list' at.level at.index result.page result.span others }
{
    spans.gather(bytes);
    let span = spans.top();
    if span.is_none() {
        space.free(txn, number);
        return Root { page: 0, span };
    }
    space.put(txn, number, bytes);
    Root { page: number, span }
}
