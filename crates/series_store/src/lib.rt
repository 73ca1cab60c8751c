//! A book of series on pages: opened, read and edited in commits.
//!
//! Page 0 and the 16 pages of the catalog are read when a store is opened, and kept in memory; of the
//! trees of the series only the pages on the way to what is asked are read. An edit changes pages in a
//! transaction, which is committed at once. So at each moment a crash leaves the pages of the book from
//! before the edit or of the one after it.
//!
//! Invariant of a store: while its pages are sound, its numbers and its catalog are those of the pages.
//! A store is the nodes of the series that is selected. Requests, sessions and streams are left to the
//! layer above.
#![tactic(auto)]

mod checking;
mod committing;
mod counting;
mod counts;
mod creating;
mod edit_errors;
mod editing;
mod errors;
mod groups;
pub mod laws;
mod named_series;
mod nodes;
mod opening;
mod puts;
mod saving;
mod send_errors;
mod sending;
mod series_info;
mod slot_run;
mod staged;
mod staging;
mod store;
mod store_calls;
mod streams;
mod texts;
mod undoing;
mod value_sending;
mod window_adding;
mod window_reading;
mod window_values;

pub use counts::Counts;
pub use errors::StoreError;
pub use named_series::NamedSeries;
pub use send_errors::SendError;
pub use series_info::SeriesInfo;
pub use slot_run::SlotRun;
pub use store::Store;
pub use texts::Texts;
pub use window_reading::piece_end;
pub use window_values::WindowValues;
