//! Frames: the answers of the server as bytes, written and read.
//!
//! A frame is a length of four bytes, a kind of one byte, and the fields of its kind. The length
//! counts the kind and the fields. Numbers are big-endian, signed ones in two's complement. The table
//! of kinds, fields and rules is docs/FORMATS.md; `specs/Fields.antt` has it as data.
//!
//! `encode` gives the one spelling of a frame whose fields meet their rules. A `Decoder` takes the
//! stream in pieces and gives the frames whose spellings stand in it, one after the other. A field
//! that breaks its rule is refused as soon as its last byte has come.
//!
//! Between calls a decoder holds the bytes that were fed and not given, and the coefficients or rows
//! that it has read of the frame at their front, so that none of them is read again; a report, of at
//! most 49,180 bytes, is. Whether a coefficient is the series' one, and whether a view has those that
//! it needs, is left to the layers above.
#![tactic(auto)]

mod admitting;
mod catalog_reading;
mod coefficients;
mod decoder;
mod encoding;
mod errors;
mod fields;
mod frame;
mod heads;
mod item_stop;
pub mod laws;
mod limits;
mod opening;
mod place;
mod report_encoding;
mod report_lists;
mod reports;
mod rows;
mod values_reading;

pub use decoder::Decoder;
pub use encoding::encode;
pub use errors::FrameFault;
pub use frame::{Frame, RowsFrame, ViewFrame};
pub use report_lists::{RunList, SeriesList, ValueList};
pub use reports::{CatalogFrame, ListedSeries, Report, Run, ValuesFrame};
