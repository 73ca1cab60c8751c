//! What follows from the definitions. The functions do nothing: their contracts are the laws.

ghost use Rattle.std.specs.Prelude.{◌≡◌, ℕ, ℤ, ◌+◌, ◌≤◌, ◌<◌, List, length, Option, None, Some, IfSome};
ghost use Rattle.om3_coeff.specs.declared.key.Key.{Key};
ghost use Rattle.om3_coeff.specs.declared.span.Span.{Span};
ghost use Rattle.om3_coeff.specs.declared.coef.Coef.{Coef};
ghost use Rattle.om3_coeff.specs.Keys.{height, top_key, parent_of, left_of, right_of, first_slot, end_slot, IsKey, IsAtOrAbove};
ghost use Rattle.om3_coeff.specs.Spans.{AreSlots, IsProperIfAny, IsSpanOf, hull, span_of, span_over, span};
ghost use Rattle.om3_coeff.specs.Coefs.{coef_of, parts};
ghost use Rattle.om3_coeff.specs.Known.{known, known_below};
ghost use Rattle.om3_coeff.specs.View.{Agrees, known_of};
ghost use Rattle.om3_coeff.specs.Laws.{KnownSpansAreTheLists};

use crate::nodes::Nodes;

/// The span of a range of slots is the least and the greatest stored value of the range, or nothing
/// where none is stored, and no other span is that.
pub fn spans_are_the_extremes()
    ensures extremes { (list : List (Option ℤ)) (a b : ℕ) → IsSpanOf list a b (span_over list a b) }
    ensures one { (list : List (Option ℤ)) (a b : ℕ) (s : Option Span) → IsSpanOf list a b s → s ≡ span_over list a b }
{}

/// The spans of two ranges make that of both together, those of a key's halves that of the key; spans
/// of slots are proper.
pub fn spans_add_up()
    ensures ranges { (list : List (Option ℤ)) (a m b : ℕ) → a ≤ m → m ≤ b →
        span_over list a b ≡ hull (span_over list a m) (span_over list m b) }
    ensures halves { (list : List (Option ℤ)) (k : Key) → 1 ≤ k.level →
        span list k ≡ hull (span list (left_of k)) (span list (right_of k)) }
    ensures proper { (list : List (Option ℤ)) (a b : ℕ) → AreSlots list → IsProperIfAny (span_over list a b) }
    ensures all { (list : List (Option ℤ)) (b : ℕ) → length list ≤ b → span_over list 0 b ≡ span_of list }
{}

/// A span that was joined is split into the two that made it, and what is split joins to what it was.
pub fn split_and_join_undo_each_other()
    ensures split { (left right : Option Span) (s : Span) → IsProperIfAny left → IsProperIfAny right →
        hull left right ≡ Some s → parts s (coef_of left right) ≡ Some (left, right) }
    ensures proper { (s : Span) (c : Coef) (left right : Option Span) → parts s c ≡ Some (left, right) →
        IsProperIfAny left × IsProperIfAny right }
    ensures whole { (s : Span) (c : Coef) (left right : Option Span) → parts s c ≡ Some (left, right) →
        hull left right ≡ Some s }
    ensures join { (s : Span) (c : Coef) (left right : Option Span) → parts s c ≡ Some (left, right) →
        coef_of left right ≡ c }
{}

/// A key's range holds those of the keys below it, and a key of level 0 is its slot.
pub fn ranges_hold_those_below()
    ensures first { (w k : Key) → IsAtOrAbove w k → first_slot w ≤ first_slot k }
    ensures end { (w k : Key) → IsAtOrAbove w k → end_slot k ≤ end_slot w }
    ensures slot { (k : Key) → k.level ≡ 0 → first_slot k ≡ k.index }
    ensures one { (k : Key) → k.level ≡ 0 → end_slot k ≡ k.index + 1 }
{}

/// What is known from a root's span and told coefficients: the top's span is known, what is known of a
/// key shows what is known of its halves, and all of it is proper where the root is.
pub fn what_is_known()
    ensures top { (root : Option Span) (told : Key → Option Coef) (n : ℕ) →
        known root told (height n) (top_key n) ≡ Some root }
    ensures below { (root : Option Span) (told : Key → Option Coef) (top : ℕ) (k : Key) → k.level < top →
        known root told top k ≡ known_below k.index (known root told top (parent_of k)) (told (parent_of k)) }
    ensures proper { (root : Option Span) (told : Key → Option Coef) (top : ℕ) (k : Key) → IsProperIfAny root →
        IfSome (known root told top k) IsProperIfAny }
    ensures clear { (root : Option Span) (told : Key → Option Coef) (top : ℕ) (w k : Key) → w.level ≤ top →
        IsAtOrAbove w k → known root told top w ≡ Some None → known root told top k ≡ Some None }
{}

/// Where the root has the list's span and each key above another one, if it has a stored value, is told
/// with the list's coefficient, that key's span is known and is the list's.
pub fn known_spans_are_the_list_s()
    ensures { KnownSpansAreTheLists }
{}

/// Nodes that agree with a list know each key's span, and it is the list's.
pub fn agreeing_nodes_know_the_spans<N: Nodes>(nodes: &N)
    ensures { (list : List (Option ℤ)) → Agrees (N.view nodes.now) list →
        (k : Key) → IsKey (height (N.view nodes.now).slots) k → known_of (N.view nodes.now) k ≡ Some (span list k) }
{
    let _nodes = nodes;
}
