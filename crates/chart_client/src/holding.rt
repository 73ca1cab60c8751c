use coefficient_cache::CoefficientCache;

/// What a client holds of a session.
#[derive(Drop)]
pub struct Holding {
    /// The session's number, at least 1.
    pub(crate) number: u32,
    /// The coefficients, the most recently used first.
    pub(crate) cache: CoefficientCache,
}
