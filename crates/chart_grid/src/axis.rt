ghost use Rattle.std.specs.Prelude.{◌<◌};

use crate::share::gap;

/// The times of a series' slots: slot i stands at `start + i * step`. There are `slots` of them.
/// Calls that take an axis want a step of at least 1.
#[derive(Clone, Copy)]
pub struct Axis {
    pub start: i64,
    pub step: u32,
    pub slots: u64,
}

impl Axis {
    ghost use Rattle.chart_grid.specs.Slots.{AreSlotsBefore};

    // How many slots stand before the time t.
    pub(crate) fn slots_before(&self, t: i64) -> u64
        requires { 0 < self.now.step }
        ensures { AreSlotsBefore self.now t result }
    {
        if t <= self.start {
            return 0;
        }
        gap(self.start, t)
            .div_ceil(u64::from(self.step))
            .min(self.slots)
    }
}
