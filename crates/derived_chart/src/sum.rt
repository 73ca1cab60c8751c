//! A sum of two series.

/// `a * x + b * y`, where the value y stands `shift` slots behind x in its own series: slot i of the first
/// series has the time of slot i + shift of the second one.
#[derive(Clone, Copy)]
pub struct Sum {
    /// At most 10^9 in size.
    pub a: i64,
    /// At most 10^9 in size.
    pub b: i64,
    /// At most 4 * 10^18 in size.
    pub shift: i64,
}
