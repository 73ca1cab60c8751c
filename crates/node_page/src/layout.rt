//! Where the fields of a tree page stand.

use whole_number::limits::GREATEST_TIME;

/// The kind of a tree page, its byte 0.
pub(crate) const KIND: u8 = 2;

/// The greatest page level.
pub(crate) const MOST_LEVELS: u8 = 5;

/// The bytes 2 to 7 and those from 2,584 on are 0.
pub(crate) const FLAGS: usize = 8;

pub(crate) const DIFFERENCES: usize = 40;

pub(crate) const CHILDREN: usize = 2072;

pub(crate) const END: usize = 2584;

/// The greatest size of a difference.
pub(crate) const GREATEST_DIFFERENCE: u64 = GREATEST_TIME;
