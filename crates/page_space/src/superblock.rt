//! The numbers of page 0.

/// The numbers of page 0.
#[derive(Clone, Copy)]
pub struct Superblock {
    /// How many pages the store has.
    pub(crate) total: u32,
    /// The first page that was never used.
    pub(crate) fresh: u32,
    /// The first page of the chain, 0 for none.
    pub(crate) head: u32,
    /// How many pages are in the chain.
    pub(crate) chain: u32,
    /// How many series the catalog has.
    pub(crate) series: u32,
}
