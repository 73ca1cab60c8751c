//! Why not all of an input was done.
use chart_world::LineFault;

/// Why not all of an input was done by a work.
pub enum LinesStop<E> {
    /// The input gave no more lines.
    Fault(LineFault),
    /// The work stopped at a line, or at the end.
    Work(E),
}
