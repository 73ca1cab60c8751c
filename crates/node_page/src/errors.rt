use thiserror::Error;

/// The first field of a page that breaks its rule, in this order.
#[derive(Clone, Copy, Debug, Error)]
pub enum BadPage {
    /// Byte 0 isn't 2.
    #[error("the page is no tree page")]
    Kind,
    /// The page level isn't 1 to 5.
    #[error("the page level isn't 1 to 5")]
    Level,
    /// A byte of no field isn't 0.
    #[error("a byte of no field isn't 0")]
    Reserved,
    /// A node's flags don't agree with its parent's flag for it, node 0 has none, or one of the two
    /// last flags is set.
    #[error("the flags don't agree")]
    Flags,
    /// A difference is above 2 * 10^18 in size, or isn't 0 beside fewer than two flags.
    #[error("a difference is out of range")]
    Differences,
    /// A child is there that no flag tells, or one is missing.
    #[error("the children don't agree with the flags")]
    Children,
}
