//! The first stored slot of a series.
ghost use Rattle.std.specs.Prelude.{◌<◌, ◌≤◌};
ghost use Rattle.series_book.specs.declared.limits.TheConstants.{MOST_SLOTS};

use series_book::Axis;

/// The first stored slot of a series, by its id, with the times of its slots.
#[derive(Clone, Copy)]
pub(crate) struct Oldest {
    pub(crate) id: u16,
    pub(crate) axis: Axis,
    pub(crate) slot: u64,
    ghost low: { slot < axis.slots },
    ghost few: { axis.slots ≤ MOST_SLOTS },
}
