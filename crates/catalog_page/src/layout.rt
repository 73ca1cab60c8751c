//! Where the records of a catalog page and their fields stand.

/// The kind of a catalog page, its byte 0.
pub(crate) const KIND: u8 = 4;

/// The bytes 1 to 7 and those from 3,080 on are 0.
pub(crate) const RECORDS: usize = 8;

pub(crate) const END: usize = 3080;

/// The records of a page.
pub(crate) const MOST_RECORDS: u8 = 32;

/// The bytes of a record.
pub(crate) const RECORD: usize = 96;

/// The first byte of a record of a series.
pub(crate) const USED: u8 = 1;

pub(crate) const NAME: usize = 4;

pub(crate) const NAME_END: usize = 35;

pub(crate) const STEP: usize = 36;

pub(crate) const START: usize = 40;

pub(crate) const SLOTS: usize = 48;

pub(crate) const ROOT: usize = 56;

pub(crate) const MIN: usize = 64;

pub(crate) const MAX: usize = 72;

pub(crate) const LEVELS: usize = 80;

/// The bytes from here on are 0.
pub(crate) const SPARE: usize = 81;

/// The first page that can be a root.
pub(crate) const FIRST: u32 = 17;
