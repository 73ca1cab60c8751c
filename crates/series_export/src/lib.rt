//! A series as the text that a load reads.
//!
//! `export_series` sends the header and the line of each stored value of a series, in rising time, or of those
//! in a window of times. specs/Exports.antt says which text this is, of the plain list of the series' slots. That a
//! load of the text stores the same values again is a law. Names of series, words of the command line and
//! the codes of its ends are left to the layer above.
#![tactic(auto)]

mod exporting;
pub mod laws;
mod reading_texts;
mod window;

pub use exporting::export_series;
pub use window::Window;
