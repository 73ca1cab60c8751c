//! The catalog of a store in memory: its series, each with its name and its tree, as the records of the
//! pages 1 to 16 say.
//!
//! A catalog is read once, when a store is opened; a page that breaks its layout, or repeats a name, is
//! damaged. Then a change of a series is written to its record's page in a transaction, and kept here once
//! that is committed. Invariant of a catalog: at most 512 series. That it says what the pages say is kept
//! by the layer above.
#![tactic(auto)]

mod catalog;
mod errors;
mod reading;
mod stored_series;
mod writing;

pub use catalog::Catalog;
pub use errors::CatalogError;
pub use reading::read_catalog;
pub use stored_series::StoredSeries;
pub use writing::put_record;
