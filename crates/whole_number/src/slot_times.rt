//! Whether the slots of a series stand at times.
ghost use Rattle.std.specs.Prelude.{◌≡◌, ◌<◌, ◌*◌, ◌+ℤ◌, ℕ, ℤ, pos};
ghost use Rattle.whole_number.specs.SlotTimes.{ends_in_time, IsEarly, EndsInTime};

/// The latest time: 2 * 10^18.
pub const LATEST_TIME: i64 = 2_000_000_000_000_000_000;

/// Whether the last of so many slots stands at a time, at most at 2 * 10^18. Slot i stands at `start + i * step`.
#[tactic(auto, unfolding(crate::specs::SlotTimes::ends_in_time))]
pub fn ends_in_time(start: i64, step: u32, slots: u64) -> bool
    ensures { result ≡ ends_in_time start step slots }
{
    if slots == 0 {
        return true;
    }
    if start > LATEST_TIME {
        return false;
    }
    u128::from(slots - 1) * u128::from(step) <= u128::from(LATEST_TIME.abs_diff(start))
}

/// The time of a slot that stands at one: `start + slot * step`.
pub fn slot_time(start: i64, step: u32, slot: u64) -> i64
    requires { IsEarly start step slot }
    ensures { result ≡ start +ℤ pos (slot * step) }
{
    (i128::from(start) + i128::from(slot) * i128::from(step)) as i64
}

/// Each of the slots stands at a time, where the last one does.
pub fn slots_stand_in_time()
    ensures { (start : ℤ) (step slots i : ℕ) → EndsInTime start step slots → i < slots → IsEarly start step i }
{}
