//! A series of a store is asked for its first stored slot.
ghost use Rattle.std.specs.Prelude.{◌≡◌, ◌≤◌, ◌<◌, ◌+◌, ℤ, List, None, Option, length, IfOk, IfErr, IfSome};
ghost use Rattle.chart_world.specs.Faults.{CountsFault, fault_in};
ghost use Rattle.om3_coeff.specs.View.{Agrees};
ghost use Rattle.om3_coeff.specs.Walks.{IsFirstStored};
ghost use Rattle.series_book.specs.declared.limits.TheConstants.{MOST_SLOTS};
ghost use Rattle.series_book.specs.Axes.{IsAxisOf};
ghost use Rattle.series_store.specs.Shown as shown;
ghost use Rattle.retention.specs.Damage.{TellsBadAt};
ghost use Rattle.retention.specs.Faults.{sweep_fault};
ghost use Rattle.retention.specs.Moving.{LooksOnly};
ghost use Rattle.retention.specs.Sweeping.{IsAskCause, IsOfPages, TellsBad, TellsNone, error_of};

use crate::sweep_error::SweepError;
use gate_pages::Pages;
use om3_coeff::{NodeError, Nodes, first_in};
use series_book::Axis;
use series_store::Store;

/// What an error of the nodes is for a sweep. Nodes over pages name no key.
fn node_error(error: NodeError) -> SweepError
    requires { IsOfPages error }
    ensures { result ≡ error_of error }
{
    match error {
        NodeError::DiskFault => SweepError::DiskFault,
        NodeError::Damaged { page } => SweepError::Damaged { page },
        NodeError::Missing { .. } | NodeError::BadCoefficient { .. } => unreachable!(),
    }
}

/// Selects the series of this id, and tells the times of its slots.
pub(crate) fn selected<P: Pages>(store: &mut Store<P>, id: u16) -> Axis
    requires sound { shown.IsSound store.old }
    requires there { id < length (shown.catalog store.old) }
    ensures fit { (shown.nodes store.new).fit }
    ensures slots { result.slots ≡ (shown.nodes store.new).slots }
    ensures few { result.slots ≤ MOST_SLOTS }
    ensures step { 1 ≤ result.step }
    ensures axis { shown.ForSeries store.old id (λ total book series. IsAxisOf series result) }
    ensures agrees { shown.ForSeries store.old id (λ total book series. Agrees (shown.nodes store.new) series.slots) }
    ensures bad { TellsBad store.new }
    ensures bad_at { TellsBadAt id store.new }
    ensures whole { shown.ForSeries store.old id (λ total book series. TellsNone store.new) }
    ensures faults { CountsFault None (shown.view store.old) (shown.view store.new) }
    ensures reads { (shown.view store.new).reads ≡ (shown.view store.old).reads }
    ensures looks { LooksOnly store.old store.new }
{
    let info = store.info(id);
    store.select(id);
    Axis {
        start: info.start,
        step: info.step,
        slots: store.slots(),
    }
}

/// The first stored slot among some first slots of the selected series, with its value. It reads 105 blocks at most: the tree
/// has at most 35 levels.
pub(crate) fn first_stored<P: Pages>(
    store: &mut Store<P>,
    end: u64,
) -> Result<Option<(u64, i64)>, SweepError>
    requires fit { (shown.nodes store.old).fit }
    requires within { end ≤ (shown.nodes store.old).slots }
    ensures first { (list : List (Option ℤ)) → Agrees (shown.nodes store.old) list → IfOk result (IsFirstStored list 0 end) }
    ensures slot { IfOk result (λ found. IfSome found (λ p. p.0 < end)) }
    ensures cause { IfErr result (IsAskCause (shown.nodes store.old) (shown.nodes store.new)) }
    ensures faults { CountsFault (fault_in sweep_fault result) (shown.view store.old) (shown.view store.new) }
    ensures reads { (shown.view store.new).reads ≤ (shown.view store.old).reads + 105 }
    ensures looks { LooksOnly store.old store.new }
{
    match first_in(store, 0, end) {
        Ok(found) => Ok(found),
        Err(error) => Err(node_error(error)),
    }
}
