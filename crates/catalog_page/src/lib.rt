//! The layout of a catalog page: 32 records of 96 bytes, one for each series, in 4,096 bytes.
//!
//! Byte 0 is 4, and record i stands at 8 + 96 * i. A record has the name, the step, the start, the slots,
//! the page of the root, the least and the greatest stored value and the page levels of its series. The
//! records behind those of the series are all 0, and so are the bytes of no field. Numbers are big-endian,
//! signed ones in two's complement.
//!
//! `specs/Layout.antt` has each field's rule. A `CatalogView` is a page that keeps all of them, for so
//! many series and a first page that was never used. Whether names are distinct, and whether a root's
//! page is one, is left to the layers above. No call takes memory.
#![tactic(auto)]

mod bad_fields;
mod catalog_view;
mod errors;
mod fields;
pub mod laws;
mod layout;
mod places;
mod rules;
mod series_record;
mod setting;

pub use catalog_view::CatalogView;
pub use errors::{BadCatalog, BadField};
pub use places::{record_number, record_page, records_of};
pub use series_record::Record;
pub use setting::set_record;
