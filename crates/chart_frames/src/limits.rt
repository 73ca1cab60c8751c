/// The length of a frame with one number of eight bytes, or with two of four.
pub const EIGHT_LENGTH: u32 = 9;

/// The length of a frame that tells a refusal.
pub const REFUSED_LENGTH: u32 = 18;

/// The length of a frame that tells a session alone.
pub const SESSION_LENGTH: u32 = 5;

/// The length of a frame that tells a session and whether it follows its view.
pub const LIVE_LENGTH: u32 = 6;

/// The length of a view without coefficients, the bytes before the first one, and those of one.
pub const VIEW_LENGTH: u32 = 84;

pub const VIEW_HEAD_BYTES: usize = 88;

pub const COEF_BYTES: usize = 25;

/// The most coefficients of a view.
pub const MOST_COEFS: u32 = 131_072;

/// The length of a frame of rows without any, the bytes before the first one, and those of one.
pub const ROWS_LENGTH: u32 = 27;

pub const ROWS_HEAD_BYTES: usize = 31;

pub const ROW_BYTES: usize = 34;

/// The most rows: one a column.
pub const MOST_ROWS: u32 = 4_096;

/// The most pixels of a side.
pub const MOST_PIXELS: u16 = 4_096;

/// The series of a book are numbered below it.
pub const SERIES_END: u16 = 512;

/// The greatest step.
pub const GREATEST_STEP: u32 = 2_147_483_648;

/// The most slots of a series: 128^5.
pub const MOST_SLOTS: u64 = 34_359_738_368;

/// The keys of a level: a key's number is its level times this, and its index.
pub const LEVEL_KEYS: u64 = 1_099_511_627_776;

/// The length of a frame that tells a sweep.
pub const SWEPT_LENGTH: u32 = 8;

/// The most clears of a sweep that one frame tells.
pub const MOST_CLEARS: u16 = 64;

/// The length of a catalog without series, and the bytes of one.
pub const CATALOG_LENGTH: u32 = 11;

pub const LISTED_BYTES: u32 = 70;

/// The bytes that hold a name, with 0 behind it.
pub const NAME_BYTES: usize = 31;

/// The length of a frame of values without any, the bytes of a run, and those of a value.
pub const VALUES_LENGTH: u32 = 16;

pub const RUN_BYTES: u32 = 16;

pub const VALUE_BYTES: u32 = 8;

/// The length of a frame of one value, and the greatest one of a frame of values.
pub const ONE_VALUE_LENGTH: u32 = 40;

pub const MOST_VALUES_LENGTH: u32 = 49_176;

/// The most values of a frame, and the most slots from its first one to its last one.
pub const MOST_VALUES: u16 = 4_096;

pub const SLOTS_OF_VALUES: u64 = 4_096;
