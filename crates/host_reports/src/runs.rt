//! The runs of a frame.
ghost use Rattle.std.specs.Prelude.{◌≡◌, map, IfOk};
ghost use Rattle.host_reports.specs.Reports.{AreInOrder, run_in};

use chart_frames::Run;
use series_store::SlotRun;
use std::alloc::{AllocError, Global};

/// These runs, each by its first slot and the number of its slots.
pub(crate) fn frame_runs(alloc: Global, runs: &[SlotRun]) -> Result<Vec<Run>, AllocError>
    requires { AreInOrder runs.now }
    ensures { IfOk result (λ all. all.items ≡ map run_in runs.now) }
{
    let mut all = Vec::with_capacity(alloc, runs.len())?;
    for run in runs {
        all.push(Run {
            first: run.first,
            count: run.end - run.first,
        })?;
    }
    Ok(all)
}
