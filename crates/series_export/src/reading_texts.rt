//! The lines of a series' readings.
ghost use Rattle.std.specs.Prelude.{◌≡◌, ◌≤◌, ◌<◌};
ghost use Rattle.whole_number.specs.Range.{IsValue};
ghost use Rattle.whole_number.specs.SlotTimes.{EndsInTime};
ghost use Rattle.series_export.specs.Exports.{slot_time, line_at};

use crate::window::{Window, is_within, may_meet};
use reading_lines::add_reading;
use series_store::Texts;
use std::alloc::AllocError;
use whole_number::slot_times::{slot_time, slots_stand_in_time};

/// The lines of the readings of a series in a window.
#[derive(Drop)]
pub(crate) struct ReadingTexts {
    pub(crate) start: i64,
    pub(crate) step: u32,
    pub(crate) scale: u8,
    pub(crate) slots: u64,
    pub(crate) window: Option<Window>,
    ghost near: { IsValue start },
    ghost last: { EndsInTime start step slots },
    ghost places: { scale ≤ 9 },
}

impl ReadingTexts {
    /// The time of a slot.
    fn time(&self, slot: u64) -> i64
        requires { slot < self.now.slots }
        ensures { result ≡ slot_time self.now.start self.now.step slot }
    {
        slots_stand_in_time();
        slot_time(self.start, self.step, slot)
    }
}

impl Texts for ReadingTexts {
    ghost use Rattle.series_export.specs.Exports.{line_at, may_be_in};

    ghost slots = { λ texts. texts.slots };

    ghost text = { λ texts slot value. line_at texts.start texts.step texts.scale texts.window slot value };

    ghost may_be_said = { λ texts first end. may_be_in texts.start texts.step texts.window first end };

    fn may_say(&self, first: u64, end: u64) -> bool {
        may_meet(self.window, self.time(first), self.time(end - 1))
    }

    fn add(&self, slot: u64, value: i64, out: &mut Vec<u8>) -> Result<(), AllocError> {
        let time = self.time(slot);
        if !is_within(self.window, time) {
            return Ok(());
        }
        add_reading(out, self.scale, time, value)
    }
}
