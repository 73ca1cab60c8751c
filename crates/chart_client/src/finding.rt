//! What a view wants, and its rows, by what is sent and held.

ghost use Rattle.std.specs.Prelude.{◌≡◌, ℤ, List, Option, All, IfOk, IfErr};
ghost use Rattle.m4_groups.specs.Rows.{AreRising};
ghost use Rattle.m4_groups.specs.Heights.{IsDrawable};
ghost use Rattle.view_keys.specs.Wanted.{IsWanted};
ghost use Rattle.view_keys.specs.Listed.{IsListOf};
ghost use Rattle.chart_frames.specs.Frames.{FitsView};
ghost use Rattle.chart_client.specs.Holdings.{told_by, axis_of, seen_by};
ghost use Rattle.chart_client.specs.Agreeing.{Agrees};
ghost use Rattle.chart_client.specs.Failing.{NoneFails};
ghost use Rattle.needed_nodes.specs.Answers.{AreDrawnAs, points_of};
ghost use Rattle.chart_client.specs.Finding.{FindsNone, error_of};

use crate::drawing::{axis_of, root_of};
use crate::errors::ClientError;
use crate::failing::first_failing;
use crate::failure::Failure;
use crate::held_nodes::{HeldNodes, LEVELS};
use chart_frames::ViewFrame;
use chart_grid::Grid;
use coefficient_cache::CoefficientCache;
use needed_nodes::{Findings, ScanOf, survey};
use plain_chart::ValueRange;
use std::alloc::Global;
use view_keys::laws::wanted_keys_are_needed;

/// The wanted keys of a view and its rows, by what is sent and what a list holds.
pub(crate) fn find(
    alloc: Global,
    view: &ViewFrame,
    cache: &CoefficientCache,
    grid: Grid,
) -> Result<Findings, ClientError>
    requires { FitsView view.now }
    ensures wanted { IfOk result (λ f. IsListOf (IsWanted (seen_by view.now cache.now) (axis_of view.now) grid view.now.lo view.now.hi)
        (told_by view.now cache.now) f.needed) }
    ensures usable { IfOk result (λ _. NoneFails (seen_by view.now cache.now) (axis_of view.now) grid view.now.lo view.now.hi) }
    ensures rows { (list : List (Option ℤ)) → Agrees view.now cache.now grid list →
        IfOk result (λ f. AreDrawnAs grid view.now.lo view.now.hi (points_of (axis_of view.now) grid list) f.rows) }
    ensures rising { IfOk result (λ f. AreRising f.rows) }
    ensures drawable { IfOk result (λ f. All (IsDrawable grid.w) f.rows) }
    ensures failed { IfErr result (FindsNone view.now cache.now grid) }
{
    let axis = axis_of(view);
    wanted_keys_are_needed();
    let mut nodes = HeldNodes {
        series: view.series,
        sent: view.coefs.as_slice(),
        cache,
        slots: view.slots,
        root: root_of(view),
        asked: None,
        hints: [(0, 0); LEVELS],
    };
    match survey(alloc, &mut nodes, axis, grid, view.lo, view.hi) {
        Ok(findings) => Ok(findings),
        Err(ScanOf::NoMemory) => Err(ClientError::NoMemory),
        Err(ScanOf::Node(_)) => {
            let range = ValueRange {
                lo: view.lo,
                hi: view.hi,
            };
            let Some(failure) = first_failing(&nodes, axis, grid, range) else {
                unreachable!()
            };
            Err(error_of(failure))
        }
    }
}

// The error of a wanted key that fails.
fn error_of(failure: Failure) -> ClientError
    ensures { result ≡ error_of failure }
{
    if failure.is_missing {
        ClientError::Missing { key: failure.key }
    } else {
        ClientError::BadCoefficient { key: failure.key }
    }
}
