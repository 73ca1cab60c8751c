//! The commands `load`, `check`, `list` and `export` over the store of a disk.
//!
//! Each opens the store, does its work, and sends its text last: `load_series` stores the readings of the input
//! (series_load), and `check_store` reads every page of the store (series_store). `specs/Loaded.antt`, `Checked.antt`,
//! `Listed.antt` and `Exported.antt` say what the disk holds and
//! what was sent after each end, and what a crash leaves at each moment; `specs/Books.antt` has the words for it: the
//! book that a disk holds, and the one that a command leaves. The words of the command line are for the layer above.
#![tactic(auto)]

mod check;
mod export;
pub mod laws;
mod list;
mod load;
mod opening;
mod sending;

pub use check::check_store;
pub use export::export_values;
pub use list::list_series;
pub use load::load_series;
pub use opening::{opening_end, opening_status};
pub use sending::send_text;
