//! Filters of time become ranges of slots. No clause says how short a plan is.

use chart_grid::{Axis, Grid};
use query_rewriter::{Plan, ViewQuery, rewrite};
use std::alloc::Global;
use std::test::Fail;
use value_filter::{Filter, FilterFault};

/// The plan of a filter's text over four slots from the time 98 on.
fn plan_of(alloc: Global, text: &[u8]) -> Result<Plan, Fail> {
    if text.len() > 8192 {
        return Err(FilterFault::At { at: 8192 }.into());
    }
    let query = ViewQuery {
        axis: Axis {
            start: 98,
            step: 1,
            slots: 4,
        },
        grid: Grid::new(98, 102, 4, 4)?,
        filter: Some(Filter::parse(alloc, text)?),
    };
    Ok(rewrite(alloc, &query)?)
}

/// A filter, the slots of its plan, and whether a filter is left.
const PLANS: [(&[u8], u64, u64, bool); 16] = [
    (b"v > 10 or t >= 100 and not v = 12", 0, 4, true),
    (b"v > 10 or t >= 100", 0, 4, true),
    (b"v > 10 or t >= 98", 0, 4, false),
    (b"t >= 100 and v > 3", 2, 4, true),
    (b"v > 3 and t < 101 and t > 98", 1, 3, true),
    (b"not t < 100", 2, 4, false),
    (b"not (t < 100 or v > 3)", 2, 4, true),
    (b"not (t < 100 and v > 3)", 0, 4, true),
    (b"(t < 99 or t < 100) and v > 3", 0, 2, true),
    (b"t < 100", 0, 2, false),
    (b"t = 99 or t = 100", 1, 3, true),
    (b"t = 99", 1, 2, false),
    (b"t < 98", 4, 4, false),
    (b"v > 1000000000000000000", 4, 4, false),
    (b"v <= 1000000000000000000", 0, 4, false),
    (b"v < 1000000000000000000", 0, 4, true),
];

#[test]
fn bounds_become_ranges_of_slots(rt: HostRuntime) -> Result<(), Fail> {
    for (text, from, end, is_left) in PLANS {
        let plan = plan_of(rt.alloc(), text)?;
        assert!(rt;
            plan.slots == (from, end) && plan.filter.is_some() == is_left,
            "{from}..{end}"
        );
    }
    Ok(())
}
