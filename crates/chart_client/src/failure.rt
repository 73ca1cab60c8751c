use om3_coeff::Key;

/// A key whose coefficient can't be used.
#[derive(Clone, Copy)]
pub(crate) struct Failure {
    pub(crate) key: Key,
    /// Whether there is no coefficient; else it doesn't fit the key's span.
    pub(crate) is_missing: bool,
}
