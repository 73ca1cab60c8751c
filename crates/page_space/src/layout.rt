//! Where the fields of a page stand, and their limits.

/// The page of the superblock.
pub(crate) const SUPERBLOCK: u32 = 0;

/// The first page behind the catalog.
pub(crate) const FIRST: u32 = 17;

/// The fewest pages of a store.
pub(crate) const FEWEST: u32 = 62;

/// How many pages the cache has a place for.
pub(crate) const PLACES: usize = 4096;

/// The most series of a store.
pub(crate) const MOST_SERIES: u32 = 512;

/// The first eight bytes of the superblock.
pub(crate) const MAGIC: [u8; 8] = *b"CHARTST2";

/// Where the superblock's number of pages stands. The other four numbers follow it.
pub(crate) const TOTAL: usize = 8;

pub(crate) const FRESH: usize = 12;

pub(crate) const HEAD: usize = 16;

pub(crate) const CHAIN: usize = 20;

pub(crate) const SERIES: usize = 24;

/// The first four bytes of a page of the chain.
pub(crate) const FREED: [u8; 4] = [1, 0, 0, 0];

/// Where a page of the chain names the next one.
pub(crate) const NEXT: usize = 4;

/// The first byte of a page of the catalog.
pub(crate) const CATALOG: [u8; 1] = [4];
