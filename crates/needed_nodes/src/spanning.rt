ghost use Rattle.std.specs.Prelude.{◌≡◌, ℤ, ◌+◌, ◌*◌, ◌<◌, ◌≤◌, List, Option, IfOk, IfErr, ◌≢◌, OnOk};
ghost use Rattle.om3_coeff.specs.Keys.{height};
ghost use Rattle.om3_coeff.specs.Spans.{IsProperIfAny};
ghost use Rattle.om3_coeff.specs.View.{Agrees, HasCause};
ghost use Rattle.plain_chart.specs.Samples.{kept, values_of};
ghost use Rattle.needed_nodes.specs.Answers.{IsSpanOfValues};

use chart_grid::laws::borders_part_columns;
use chart_grid::{Axis, Grid};
use om3_coeff::{NodeError, Nodes, Span, range_span};

/// The least and the greatest value that a view keeps: those of the stored slots in its window; or
/// nothing where none is stored. It reads two blocks a level of the tree at most.
pub fn window_span<N: Nodes>(
    nodes: &mut N,
    axis: Axis,
    grid: Grid,
) -> Result<Option<Span>, NodeError>
    requires fit { (N.view nodes.old).fit }
    requires slots { axis.slots ≡ (N.view nodes.old).slots }
    requires step { 0 < axis.step }

    ensures list { (list : List (Option ℤ)) → Agrees (N.view nodes.old) list →
        IfOk result (IsSpanOfValues (values_of (kept grid axis list))) }
    ensures proper { IfOk result IsProperIfAny }
    ensures fit { (N.view nodes.new).fit }
    ensures kept { N.keeps nodes.old nodes.new }
    ensures reads { (N.view nodes.new).reads ≤ (N.view nodes.old).reads + 2 * height axis.slots }
    ensures faults { (N.view nodes.old).faults ≤ (N.view nodes.new).faults }
    ensures cause { IfErr result (HasCause (N.view nodes.old) (N.view nodes.new)) }
    ensures quiet { OnOk result ((N.view nodes.new).faults ≡ (N.view nodes.old).faults) }
    ensures quiet_err { IfErr result (λ e. e ≢ NodeError.DiskFault → (N.view nodes.new).faults ≡ (N.view nodes.old).faults) }
{
    borders_part_columns();
    let (from, _) = grid.slot_range(axis, 0);
    let (_, end) = grid.slot_range(axis, grid.w() - 1);
    range_span(nodes, from, end)
}
