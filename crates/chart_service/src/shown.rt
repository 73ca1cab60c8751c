ghost use Rattle.std.specs.Prelude.{◌≡◌, ◌≢◌, ◌+◌, ◌*◌, ◌≤◌, ◌<◌, ◌^◌, ℤ, List, Option, Some, length, IsTrue, IfOk, IfErr, None, OnOk};
ghost use Rattle.om3_coeff.specs.Keys.{height};
ghost use Rattle.om3_coeff.specs.Spans.{IsProperIfAny};
ghost use Rattle.om3_coeff.specs.View.{Agrees, HasCause};
ghost use Rattle.needed_nodes.specs.Answers.{IsSpanOfValues, most_needed};
ghost use Rattle.zoom_session.specs.Planned.{IsInBounds};
ghost use Rattle.zoom_session.specs.Plans.{AreNeeded, NeedsAtMost, PlansIn, HasEntries};
ghost use Rattle.zoom_session.specs.Sessions.{is_open, session_of};
ghost use Rattle.zoom_session.specs.Views.{IsRangeSpec};
ghost use Rattle.plain_chart.specs.Samples.{kept, values_of, IsRange as AreKeptIn};
ghost use Rattle.chart_frames.specs.Frames.{IsRange};
ghost use Rattle.chart_service.specs.Viewing.{ShowsRange, has_of, least_of, greatest_of};
ghost use Rattle.chart_service.specs.Planning.{TellsOf, AreInFrame, RefusesView, CountsOver, most_view_reads, planned_frame};

use chart_frames::ViewFrame;
use chart_grid::{Axis, Grid};
use needed_nodes::laws::agreeing_nodes_agree_for_views;
use needed_nodes::window_span;
use om3_coeff::laws::spans_add_up;
use om3_coeff::{NodeError, Nodes, Span};
use plain_chart::ValueRange;
use zoom_session::{PlanError, RangeSpec, Sessions, ViewPlan, ViewSpec};

/// What a view's frame tells of its series, and the range of values that it shows.
#[derive(Clone, Copy)]
pub(crate) struct Told {
    pub(crate) axis: Axis,
    /// The span of all slots.
    pub(crate) root: Option<Span>,
    pub(crate) range: ValueRange,
}

/// A view that can be answered.
#[derive(Drop)]
pub(crate) struct Planned {
    pub(crate) plan: ViewPlan,
    pub(crate) told: Told,
}

/// What a view takes and tells of the series below these nodes.
pub(crate) fn plan<N: Nodes>(
    sessions: &Sessions,
    number: u32,
    spec: &ViewSpec,
    axis: Axis,
    nodes: &mut N,
) -> Result<Planned, PlanError>
    requires opened { IsTrue (is_open number sessions.now) }
    requires unfiltered { spec.now.filter ≡ None }
    requires range { IsRangeSpec spec.now.range }
    requires fit { (N.view nodes.old).fit }
    requires slots { axis.slots ≡ (N.view nodes.old).slots }
    requires step { 0 < axis.step }

    ensures needed { (list : List (Option ℤ)) → Agrees (N.view nodes.old) list →
        IfOk result (λ planned. AreNeeded list axis spec.now.grid planned.told.range.lo planned.told.range.hi planned.plan.needed) }
    ensures planned { IfOk result (λ planned. PlansIn (session_of number sessions.now) spec.now.series planned.plan) }
    ensures told { (list : List (Option ℤ)) → Agrees (N.view nodes.old) list →
        IfOk result (λ planned. TellsOf list axis spec.now planned.told) }
    ensures bounds { IfOk result (λ planned. IsInBounds planned.plan) }
    ensures entries { IfOk result (λ planned. HasEntries axis.slots planned.plan) }
    ensures in_frame { IfOk result (λ planned. AreInFrame planned.told) }
    ensures axis { IfOk result (λ planned. planned.told.axis ≡ axis) }
    ensures root { IfOk result (λ planned. planned.told.root ≡ (N.view nodes.old).root) }

    // why nothing is planned
    ensures refused { IfErr result (RefusesView (session_of number sessions.now) (N.view nodes.old) (N.view nodes.new)) }
    ensures counted { (list : List (Option ℤ)) → Agrees (N.view nodes.old) list →
        IfErr result (CountsOver list axis spec.now) }
    ensures large { IfErr result (NeedsAtMost (most_needed spec.now.grid.w axis.slots)) }

    // the nodes
    ensures fit { (N.view nodes.new).fit }
    ensures kept { N.keeps nodes.old nodes.new }
    ensures reads { (N.view nodes.new).reads ≤ (N.view nodes.old).reads + most_view_reads spec.now.grid.w axis.slots }
    ensures faults { (N.view nodes.old).faults ≤ (N.view nodes.new).faults }
    ensures quiet { OnOk result ((N.view nodes.new).faults ≡ (N.view nodes.old).faults) }
    ensures quiet_err { IfErr result (λ e. e ≢ PlanError.Node NodeError.DiskFault → (N.view nodes.new).faults ≡ (N.view nodes.old).faults) }
{
    spans_add_up();
    let range = match shown_range(nodes, axis, spec.grid, spec.range) {
        Ok(range) => range,
        Err(error) => return Err(PlanError::Node(error)),
    };
    agreeing_nodes_agree_for_views(nodes);
    let plan = sessions.plan_view(number, spec, axis, range.lo, range.hi, nodes)?;
    let root = nodes.root();
    Ok(Planned {
        plan,
        told: Told { axis, root, range },
    })
}

/// The range of values that a view shows: from the least to the greatest stored value of its window,
/// 0 to 0 where none is stored; or the range that is asked for.
pub(crate) fn shown_range<N: Nodes>(
    nodes: &mut N,
    axis: Axis,
    grid: Grid,
    range: RangeSpec,
) -> Result<ValueRange, NodeError>
    requires range { IsRangeSpec range }
    requires fit { (N.view nodes.old).fit }
    requires slots { axis.slots ≡ (N.view nodes.old).slots }
    requires step { 0 < axis.step }

    ensures shown { (list : List (Option ℤ)) → Agrees (N.view nodes.old) list →
        IfOk result (ShowsRange range (values_of (kept grid axis list))) }
    ensures in_frame { IfOk result (λ shown. IsRange shown.lo shown.hi) }
    ensures cause { IfErr result (HasCause (N.view nodes.old) (N.view nodes.new)) }
    ensures fit { (N.view nodes.new).fit }
    ensures kept { N.keeps nodes.old nodes.new }
    ensures reads { (N.view nodes.new).reads ≤ (N.view nodes.old).reads + 2 * height axis.slots }
    ensures faults { (N.view nodes.old).faults ≤ (N.view nodes.new).faults }
    ensures quiet { OnOk result ((N.view nodes.new).faults ≡ (N.view nodes.old).faults) }
    ensures quiet_err { IfErr result (λ e. e ≢ NodeError.DiskFault → (N.view nodes.new).faults ≡ (N.view nodes.old).faults) }
{
    match range {
        RangeSpec::Fixed { lo, hi } => Ok(ValueRange { lo, hi }),
        RangeSpec::Auto => {
            let span = window_span(nodes, axis, grid)?;
            Ok(range_of_span(span))
        }
    }
}

/// The range from a span's least to its greatest value, and 0 to 0 where there is none.
fn range_of_span(span: Option<Span>) -> ValueRange
    requires { IsProperIfAny span }
    ensures range { (values : List ℤ) → IsSpanOfValues values span → AreKeptIn values result }
    ensures in_frame { IsRange result.lo result.hi }
{
    match span {
        None => ValueRange { lo: 0, hi: 0 },
        Some(span) => ValueRange {
            lo: span.min,
            hi: span.max,
        },
    }
}

/// What a frame tells of the stored values of a series.
#[derive(Clone, Copy)]
struct Stored {
    /// 1 where there is one, else 0.
    has: u8,
    least: i64,
    greatest: i64,
}

/// The least and the greatest stored value by the span of all slots, and zeros where there is none.
fn stored_of(root: Option<Span>) -> Stored
    ensures has { result.has ≡ has_of root }
    ensures least { result.least ≡ least_of root }
    ensures greatest { result.greatest ≡ greatest_of root }
{
    match root {
        None => Stored {
            has: 0,
            least: 0,
            greatest: 0,
        },
        Some(span) => Stored {
            has: 1,
            least: span.min,
            greatest: span.max,
        },
    }
}

/// The frame of an answered view of the series of this id on this grid.
pub(crate) fn view_frame(number: u32, id: u16, grid: Grid, planned: Planned) -> ViewFrame
    requires { length planned.plan.send < 2 ^ 32 }
    ensures session { result.session ≡ number }
    ensures fields { result ≡ planned_frame number id grid planned.told planned.plan.send }
{
    let told = planned.told;
    let coefs = planned.plan.into_send();
    let stored = stored_of(told.root);
    ViewFrame {
        session: number,
        series: id,
        w: grid.w(),
        h: grid.h(),
        t0: grid.t0(),
        t1: grid.t1(),
        lo: told.range.lo,
        hi: told.range.hi,
        start: told.axis.start,
        step: told.axis.step,
        slots: told.axis.slots,
        has: stored.has,
        rmin: stored.least,
        rmax: stored.greatest,
        count: coefs.as_slice().len() as u32,
        coefs,
    }
}
