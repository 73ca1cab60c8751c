//! Where the blocks of a store stand.

/// The block whose first byte is the gate.
pub(crate) const GATE: u32 = 0;

/// The block of the journal's directory.
pub(crate) const DIRECTORY: u32 = 1;

/// The block of the journal's first image.
pub(crate) const IMAGES: u32 = 2;

/// The block of page 0.
pub(crate) const HOME: u32 = 66;

/// The most pages of a batch.
pub(crate) const MOST: usize = 64;

/// The fewest blocks of a store.
pub(crate) const FEWEST_BLOCKS: u32 = 128;

/// The most blocks of a disk that are used.
pub(crate) const MOST_BLOCKS: u32 = u32::MAX;

/// The gate byte of an open gate. With every other value it is closed.
pub(crate) const OPEN: u8 = 1;

/// The gate byte that is written to close the gate.
pub(crate) const CLOSED: u8 = 0;

/// The first eight bytes of a directory.
pub(crate) const MAGIC: [u8; 8] = *b"CHARTDIR";
