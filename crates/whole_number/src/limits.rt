/// The greatest size of a value that a series holds, and of a series' start.
pub const GREATEST_VALUE: u64 = 1_000_000_000_000_000_000;

/// The greatest size of a time, and of the difference of two values.
pub const GREATEST_TIME: u64 = 2_000_000_000_000_000_000;
