use crate::fields::Stop;
use std::alloc::AllocFailed;

/// Why the items of a frame were not read to the end.
pub enum ItemStop {
    /// The next one lacks bytes, or a field of it breaks its rule.
    Stop(Stop),
    /// Want of memory.
    NoMemory,
}

impl<T: Drop> From<AllocFailed<T>> for ItemStop {
    ghost use Rattle.std.specs.Prelude.{◌≡◌};
    ghost use Rattle.chart_frames.specs.declared.item_stop.ItemStop.TheVariants.{NoMemory};

    ghost from_gives = { λ _ error. error ≡ NoMemory };

    fn from(_error: AllocFailed<T>) -> ItemStop {
        ItemStop::NoMemory
    }
}
