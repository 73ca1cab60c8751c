//! Counters of 64 bits.
ghost use Rattle.std.specs.Prelude.{◌≡◌, ◌≤◌, ◌+◌};
ghost use Rattle.block_disk.specs.Counts.{HasRisen, counted};

/// One more, unless the count stands at its last value.
pub(crate) fn count_one(count: &mut u64)
    ensures counted { count.new ≡ counted count.old }
    ensures risen { HasRisen count.old count.new }
    ensures low { count.old ≤ count.new }
    ensures high { count.new ≤ count.old + 1 }
{
    *count = count.saturating_add(1);
}
