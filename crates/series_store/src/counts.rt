//! What a check of a store counts.

/// How many series a store has, how many values they store, and how many of its pages are in use.
#[derive(Clone, Copy)]
pub struct Counts {
    pub series: u32,
    pub values: u64,
    pub used: u32,
    pub total: u32,
}
