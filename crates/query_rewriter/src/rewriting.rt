ghost use Rattle.std.specs.Prelude.{◌≡◌, ℤ, ◌<◌, List, Option, IfOk, All, length};
ghost use Rattle.plain_chart.specs.Samples.{IsSlot};
ghost use Rattle.query_rewriter.specs.Kept.{query_keeps, plan_keeps};
ghost use Rattle.query_rewriter.specs.Scans.{AreShown, IsScan, IsLeft};

use crate::queries::{Plan, ViewQuery};
use crate::slots::window_slots;
use crate::trimming::{holds_everywhere, trimmed};
use chart_grid::{Axis, Grid};
use std::alloc::{AllocError, Global};
use value_filter::Filter;

/// The plan of a query. It keeps exactly the points that the query keeps, of whichever slots the series
/// has; its slots are a range of the series' slots, all in the window.
pub fn rewrite(alloc: Global, query: &ViewQuery) -> Result<Plan, AllocError>
    requires { 0 < query.now.axis.step }
    ensures grid { IfOk result (λ plan. plan.grid ≡ query.now.grid) }
    ensures scan { IfOk result (IsScan query.now.axis) }
    ensures same { (slots : List (Option ℤ)) → length slots ≡ query.now.axis.slots → All IsSlot slots →
        IfOk result (λ plan. plan_keeps query.now.axis plan slots ≡ query_keeps query.now slots) }
{
    let shown = window_slots(query.axis, query.grid);
    let Some(filter) = &query.filter else {
        return Ok(Plan {
            grid: query.grid,
            slots: shown,
            filter: None,
        });
    };
    let slots = trimmed(filter, query.axis, query.grid, shown);
    Ok(Plan {
        grid: query.grid,
        slots,
        filter: left_over(alloc, filter, query.axis, query.grid, slots)?,
    })
}

/// What is left of a filter to ask at these slots: nothing, where it holds of every value at each.
fn left_over(
    alloc: Global,
    filter: &Filter,
    axis: Axis,
    grid: Grid,
    slots: (u64, u64),
) -> Result<Option<Filter>, AllocError>
    requires step { 0 < axis.step }
    requires shown { AreShown axis grid slots.0 slots.1 }
    ensures { IfOk result (IsLeft filter.now axis slots.0 slots.1) }
{
    if holds_everywhere(filter, axis, grid, slots) {
        return Ok(None);
    }
    Ok(Some(filter.copy_in(alloc)?))
}
