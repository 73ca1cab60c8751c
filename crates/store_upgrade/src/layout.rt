//! Where the fields of both versions stand.

/// The first page behind the catalog.
pub(crate) const FIRST: u32 = 17;

/// The first bytes of page 0 in version 1.
pub(crate) const OLD_MAGIC: [u8; 8] = *b"CHARTST1";

/// The same in version 2.
pub(crate) const MAGIC: [u8; 8] = *b"CHARTST2";

/// The kind of a page of the catalog in version 1, its byte 0.
pub(crate) const OLD_KIND: u8 = 3;

/// The same in version 2.
pub(crate) const KIND: u8 = 4;

/// Where the records of a page of the catalog begin.
pub(crate) const RECORDS: usize = 8;

/// The records of a page.
pub(crate) const MOST_RECORDS: u8 = 32;

/// The bytes of a record.
pub(crate) const RECORD: usize = 96;

/// Where its number of slots stands.
pub(crate) const SLOTS: usize = 48;

/// Where its page levels stand: 0 in version 1.
pub(crate) const LEVELS: usize = 80;

/// The most slots of a series in version 1.
pub(crate) const MOST_OLD_SLOTS: u64 = 1 << 28;
