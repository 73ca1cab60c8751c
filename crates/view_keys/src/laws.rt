//! What follows from the definitions of needed and wanted keys and of their lists. The functions do
//! nothing: their contracts are the laws.

ghost use Rattle.std.specs.Prelude.{◌≡◌, ◌≢◌, ℕ, ℤ, ◌≤◌, ◌≤ℤ◌, List, AllPairs, Option, Some};
ghost use Rattle.om3_coeff.specs.declared.key.Key.{Key};
ghost use Rattle.om3_coeff.specs.declared.coef.Coef.{Coef};
ghost use Rattle.chart_grid.specs.Projection.{height as height_of};
ghost use Rattle.om3_coeff.specs.declared.span.Span.{Span};
ghost use Rattle.om3_coeff.specs.Known.{known, IsKnownClear};
ghost use Rattle.view_keys.specs.Ranges.{IsInRange};
ghost use Rattle.view_keys.specs.Flat.{IsFlat};
ghost use Rattle.view_keys.specs.Listed.{AreInOrder};
ghost use Rattle.view_keys.specs.Laws.{WantedKeysAreNeeded, WantedKeysShowTheirSpans, NeededKeysAreFew, WantedKeysAreFew};
ghost use Rattle.view_keys.specs.Laws.{FlatKeysHoldFlatKeys};

use chart_grid::laws::{borders_part_columns, columns_rise, heights_rise};
use om3_coeff::laws::{
    known_spans_are_the_list_s, spans_are_the_extremes, split_and_join_undo_each_other,
    what_is_known,
};

/// Where the root is the list's, and each key that is both needed and wanted is told with the list's
/// coefficient, the wanted keys are the needed ones, and what is seen of each is the list's span.
pub fn wanted_keys_are_needed()
    ensures same { WantedKeysAreNeeded }
    ensures spans { WantedKeysShowTheirSpans }
{
    columns_rise();
    heights_rise();
    spans_are_the_extremes();
    split_and_join_undo_each_other();
    what_is_known();
    known_spans_are_the_list_s();
}

/// A list in order has no key twice.
pub fn keys_in_order_are_distinct()
    ensures { (entries : List (Key × Coef)) → AreInOrder entries → AllPairs (λ e f. e.0 ≢ f.0) entries }
{}

/// A list of needed keys, or of wanted ones, in order has at most one key on each level for each border
/// between columns, and two for each column.
pub fn keys_of_a_view_are_few()
    ensures needed { NeededKeysAreFew }
    ensures wanted { WantedKeysAreFew }
{
    borders_part_columns();
    split_and_join_undo_each_other();
    what_is_known();
}

/// All values of a flat span have one height, and what is seen below a flat key is flat.
pub fn flat_keys_hold_flat_keys()
    ensures value { (lo hi v : ℤ) (h : ℕ) (s : Span) → IsFlat lo hi h s → s.min ≤ℤ v → v ≤ℤ s.max →
        height_of v lo hi h ≡ height_of s.min lo hi h }
    ensures below { FlatKeysHoldFlatKeys }
{
    heights_rise();
    split_and_join_undo_each_other();
    what_is_known();
}

/// Not all slots of a key whose span is seen are known to hold nothing.
pub fn seen_keys_have_an_open_slot()
    ensures { (root : Option Span) (told : Key → Option Coef) (top : ℕ) (k : Key) (s : Span) → k.level ≤ top →
        known root told top k ≡ Some (Some s) → ((i : ℕ) → IsInRange k i → IsKnownClear root told top i) → ⊥ }
{
    split_and_join_undo_each_other();
    what_is_known();
}
