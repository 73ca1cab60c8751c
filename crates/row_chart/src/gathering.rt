ghost use Rattle.std.specs.Prelude.{◌≡◌, ℤ, ◌<◌, ◌++◌, List, All, IfOk, OnOk, length};
ghost use Rattle.std.specs.Option.{ForSome, option_to_list};
ghost use Rattle.chart_grid.specs.Projection.{InWindow};
ghost use Rattle.plain_chart.specs.Samples.{kept, sample_points, IsSeries, IsSlot};
ghost use Rattle.m4_groups.specs.Gathered.{IsGathered, IsLater};
ghost use Rattle.m4_groups.specs.Rows.{AreRowsOf, AreRising};
ghost use Rattle.m4_groups.specs.Heights.{IsDrawable};

use chart_grid::{Axis, Grid};
use m4_groups::laws::points_follow;
use m4_groups::{Groups, Rows};
use plain_chart::{Sample, sample_at};
use std::alloc::{AllocError, Global};

/// The rows of the samples that the view keeps. Slots outside the window are passed over.
pub fn rows_of_slots(
    alloc: Global,
    grid: Grid,
    axis: Axis,
    slots: &[Option<i64>],
) -> Result<Rows, AllocError>
    requires series { IsSeries axis }
    requires step { 0 < axis.step }
    requires slots { axis.slots ≡ length slots.now }
    requires values { All IsSlot slots.now }
    ensures rows { IfOk result (λ rows. AreRowsOf grid (sample_points (kept grid axis slots.now)) rows) }
    ensures rising { IfOk result AreRising }
    ensures drawable { IfOk result (All (IsDrawable grid.w)) }
{
    points_follow();
    let mut groups = Groups::new(alloc, grid)?;
    for (slot, stored) in slots.iter().enumerate() {
        let sample = sample_at(grid, axis, slot, *stored);
        take_in(&mut groups, sample)?;
    }
    Ok(groups.rows())
}

/// Takes in a slot's sample, where there is one.
fn take_in(groups: &mut Groups, sample: Option<Sample>) -> Result<(), AllocError>
    requires shown { ForSome sample (λ s. InWindow groups.old.grid s.time) }
    requires later { ForSome sample (λ s. IsLater groups.old s.time) }
    ensures gathered { OnOk result ((points : List (ℤ × ℤ)) →
        IsGathered points groups.old → IsGathered (points ++ sample_points (option_to_list sample)) groups.new) }
    ensures grid { groups.new.grid ≡ groups.old.grid }
{
    let Some(sample) = sample else {
        return Ok(());
    };
    groups.push(sample.time, sample.value)?;
    Ok(())
}
