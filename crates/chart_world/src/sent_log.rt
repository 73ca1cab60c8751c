//! When something was sent.

/// A send: the disk's moment then, and how many bytes were sent once it was done.
#[derive(Clone, Copy)]
pub struct Sent {
    pub(crate) at: u64,
    pub(crate) count: u64,
}
