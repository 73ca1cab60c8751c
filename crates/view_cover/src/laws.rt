//! What follows from the definitions. The functions do nothing: their contracts are the laws.

ghost use Rattle.std.specs.Prelude.{ℕ, ℤ, ◌^◌, ◌≤◌, List, length, Option};
ghost use Rattle.om3_coeff.specs.declared.key.Key.{Key};
ghost use Rattle.om3_coeff.specs.declared.coef.Coef.{Coef};
ghost use Rattle.view_cover.specs.Scene.{Scene, with_told, IsToldBy};
ghost use Rattle.view_cover.specs.Cover.{InCover};
ghost use Rattle.view_cover.specs.Chart.{IsToldOf, HoldsChart};

use chart_grid::laws::{columns_rise, heights_rise};
use om3_coeff::laws::{
    ranges_hold_those_below, spans_add_up, spans_are_the_extremes, split_and_join_undo_each_other,
    what_is_known,
};

/// With more coefficients the cover of a view lies within the cover of before.
pub fn covers_shrink()
    ensures { (scene : Scene) (more : Key → Option Coef) (x : ℕ) (y : ℤ) → IsToldBy scene.told more →
        InCover (with_told scene more) x y → InCover scene x y }
{
    heights_rise();
    ranges_hold_those_below();
    split_and_join_undo_each_other();
    what_is_known();
}

/// Where all that is told of the keys that a view needs is told of a list of slots, the cover holds the
/// list's chart. What is told of other keys may be any.
pub fn covers_hold_the_chart()
    ensures { (list : List (Option ℤ)) (scene : Scene) → IsToldOf list scene → length list ≤ 2 ^ 35 → HoldsChart list scene }
{
    columns_rise();
    heights_rise();
    ranges_hold_those_below();
    spans_are_the_extremes();
    spans_add_up();
    split_and_join_undo_each_other();
    what_is_known();
}
