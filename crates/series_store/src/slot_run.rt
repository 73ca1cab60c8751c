//! A run of slots.

/// The slots from `first` on and below `end`, at least one, which all hold a value.
#[derive(Clone, Copy)]
pub struct SlotRun {
    pub first: u64,
    pub end: u64,
}
