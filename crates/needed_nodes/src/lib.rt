//! Which coefficients of a series' tree a view needs, and the rows that it draws.
//!
//! A key of the tree lies outside a view's window, or within one of its columns, or is cut: a border
//! of a column or an end of the window lies inside its range. A walk from the top asks the cut keys and
//! finds each column's blocks, the largest keys within it that have a stored value. The first block
//! leads down to the column's first stored slot and the last block to its last one, or to a key whose
//! values have one height; the keys above these ends and the cut keys are the keys that the view needs.
//!
//! Nodes that agree with a list of slots for the view, and tell anything of other keys, give the list's
//! needed keys and rows. Nodes that agree with no list give the keys that they make wanted.
//! `view_keys` says which keys are needed and wanted. Drawing the rows is left to the layers above.
#![tactic(auto)]

mod asking;
mod blocks;
mod columns;
mod ends;
mod finding;
pub mod laws;
mod level;
mod ordering;
mod scan_of;
mod spanning;
mod surveying;
mod window;

pub use om3_coeff::Coefs as Needed;
pub use scan_of::ScanOf;
pub use spanning::window_span;
pub use surveying::{Findings, needed, rows_of, survey};
