//! Whether two series of a store are on one grid.
ghost use Rattle.std.specs.Prelude.{◌≡◌, ◌<◌, ◌≤◌, ◌*◌, ◌^◌, length, unsigned_abs, IfSome, MatchOption};
ghost use Rattle.series_store.specs.Shown as shown;
ghost use Rattle.series_pair.specs.Derived.{AreShifted, AreShiftedIn, AreUnlike, AreUnlikeIn};

use chart_grid::Axis;
use derived_chart::shift_between;
use gate_pages::Pages;
use series_store::{SeriesInfo, Store};

/// How many slots the series of the id `y` began before that of the id `x`: slot i of the one has the time of slot i + d of the
/// other. Nothing exactly where the steps differ, or the starts differ by no multiple of the step. Nothing is read.
pub fn shift_of<P: Pages>(store: &Store<P>, x: u16, y: u16) -> Option<i64>
    requires first { x < length (shown.catalog store.now) }
    requires second { y < length (shown.catalog store.now) }
    ensures shift { shown.ForSoundBook store.now (λ total book. MatchOption result (AreUnlike book x y) (AreShifted book x y)) }
    // so it is by the catalog, whatever the pages are
    ensures records { MatchOption result (AreUnlikeIn (shown.catalog store.now) x y) (AreShiftedIn (shown.catalog store.now) x y) }
    ensures small { IfSome result (λ d. unsigned_abs d ≤ 2 * 10 ^ 18) }
{
    shift_between(axis_of(&store.info(x)), axis_of(&store.info(y)))
}

/// The times of the slots of a series of which this is told.
fn axis_of(info: &SeriesInfo) -> Axis
    ensures { result ≡ record { start = info.now.start; step = info.now.step; slots = info.now.slots } }
{
    Axis {
        start: info.start,
        step: info.step,
        slots: info.slots,
    }
}
