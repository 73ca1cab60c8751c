//! What follows from the definitions. The functions do nothing: their contracts are the laws.

ghost use Rattle.std.specs.Prelude.{◌≡◌, ℤ, ◌<◌, List, Option};
ghost use Rattle.chart_grid.specs.declared.axis.Axis.{Axis};
ghost use Rattle.chart_grid.specs.declared.grid.Grid.{Grid};
ghost use Rattle.m4_groups.specs.Points.{AreInOrder, pixels};
ghost use Rattle.plain_chart.specs.declared.value_range.ValueRange.{ValueRange};
ghost use Rattle.plain_chart.specs.Samples.{kept};
ghost use Rattle.plain_chart.specs.Chart.{places};
ghost use Rattle.om3_coeff.specs.View.{Agrees};
ghost use Rattle.needed_nodes.specs.Answers.{points_of, AgreesForView};

use om3_coeff::Nodes;

/// The points that a view keeps are in order of time, and their pixels are the places of the samples
/// that it keeps. So the drawn rows of the points are the chart of the samples.
pub fn points_are_the_samples()
    ensures order { (list : List (Option ℤ)) (axis : Axis) (grid : Grid) → 0 < axis.step → AreInOrder grid (points_of axis grid list) }
    ensures places { (list : List (Option ℤ)) (axis : Axis) (grid : Grid) (range : ValueRange) →
        pixels grid range.lo range.hi (points_of axis grid list) ≡ places grid range (kept grid axis list) }
{}

/// Nodes that agree with a list on all keys agree with it for each view.
pub fn agreeing_nodes_agree_for_views<N: Nodes>(nodes: &N)
    ensures { (list : List (Option ℤ)) (axis : Axis) (grid : Grid) (lo hi : ℤ) → Agrees (N.view nodes.now) list
        → AgreesForView (N.view nodes.now) axis grid lo hi list }
{}
