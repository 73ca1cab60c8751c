use whole_number::limits::GREATEST_VALUE;

/// The most slots that a series has: 128^5.
pub const MOST_SLOTS: u64 = 34_359_738_368;

/// The most series that a book has.
pub const MOST_SERIES: usize = 512;

/// The most bytes of a name.
pub const MOST_NAME_BYTES: usize = 31;

/// The most values of an append or a set.
pub const MOST_VALUES: usize = 256;

/// The most slots of a clear.
pub const MOST_CLEARED: u64 = 4_096;

/// The greatest size of a start.
pub const GREATEST_START: u64 = GREATEST_VALUE;

/// The greatest step.
pub const GREATEST_STEP: u32 = 2_147_483_648;

/// The greatest scale.
pub const GREATEST_SCALE: u8 = 9;

/// The slots of a page of the lowest level; a page of each further level covers as many pages of
/// the level below it.
pub const PAGE_SLOTS: u64 = 128;

/// The pages of a book with no stored value: its head and 16 pages of a catalog.
pub const FIXED_PAGES: u64 = 17;
