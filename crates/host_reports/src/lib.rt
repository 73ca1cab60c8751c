//! What is told of a store in the frames of reports: its series, and the stored values of a window.
//!
//! - `catalog_frame` gives the catalog, which is in memory: no page is read.
//! - `values_frame` gives the values of the window's first piece, which ends at the next multiple of 4,096 slots, and the
//!   time from which to ask on where more are left. So each page that holds slots is read once, however many pieces a
//!   window has, and a frame reads 36 pages at most.
//!
//! Nothing is written. specs/Reports.antt says what is told, of the plain book. Names, lines and their replies are left
//! to the layer above.
#![tactic(auto)]

mod catalogs;
mod runs;
mod values;

pub use catalogs::catalog_frame;
pub use values::values_frame;
