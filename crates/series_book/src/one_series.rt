ghost use Rattle.std.specs.Prelude.{◌≡◌, ◌≤◌, [], length};
ghost use Rattle.series_book.specs.declared.limits.TheConstants.{MOST_SLOTS};
ghost use Rattle.series_book.specs.Axes.{IsAxisOf};

use crate::axis::Axis;
use crate::names::Name;
use crate::slot_list::Slots;
use std::alloc::Global;

/// A series. Slot i stands at the time `start + i * step`; a whole number v in it means
/// `v / 10^scale`.
#[derive(Drop)]
pub struct Series {
    pub name: Name,
    pub start: i64,
    pub step: u32,
    pub scale: u8,
    pub slots: Slots,
}

impl Series {
    /// A series without slots.
    pub(crate) fn empty(alloc: Global, name: Name, start: i64, step: u32, scale: u8) -> Series
        ensures { result ≡ record { name = name; start = start; step = step; scale = scale; slots = [] } }
    {
        let slots = Slots::from_vec(Vec::new(alloc));
        Series {
            name,
            start,
            step,
            scale,
            slots,
        }
    }

    /// Where its slots stand in time.
    pub fn axis(&self) -> Axis
        requires { length self.now.slots ≤ MOST_SLOTS }
        ensures { IsAxisOf self.now result }
    {
        Axis {
            start: self.start,
            step: self.step,
            slots: self.slots.as_slice().len() as u64,
        }
    }
}
