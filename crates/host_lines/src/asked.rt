//! What a line asks.
use derive_command::Request;
use retention::Rule;
use series_book::Name;

/// What a line asks of the host alone.
#[derive(Drop)]
pub enum HostLine {
    /// `list`: what is told of each series.
    List,
    /// `values NAME T0 T1`: the stored values of a series from a time on and before another.
    Values { name: Name, t0: i128, t1: i128 },
    /// `sum N` and a line of `derive`: the rows of a sum of two series, for the session.
    Sum { session: u32, request: Request },
    /// `sweep` and a line of `retain`: a step of the sweep of a rule.
    Sweep(Rule),
    /// The line begins as one of these; `at` is the offset of the first token that isn't what its place
    /// allows, or the line's length where a token is missing.
    Bad { at: u32 },
    /// Any other line, one of more than 8,192 bytes too.
    Other,
}
