//! Stores of version 1 are brought to version 2.
//!
//! A store of version 1 begins with `CHARTST1`, its catalog pages are of kind 3, byte 80 of their records is 0, and a
//! series has at most 2^28 slots. `upgrade` writes page 0 and the 16 pages of the catalog anew, in one commit: with
//! `CHARTST2`, kind 4, and in byte 80 of each record in use the number of page levels of its slots. All other bytes
//! stay, so the pages of the trees do. A crash at any moment leaves the pages from before or those of version 2.
//!
//! This crate alone knows version 1. What else the pages of a store hold is for the crates above, which read them once
//! they are of version 2.
#![tactic(auto)]

mod errors;
pub mod laws;
mod layout;
mod old_pages;
mod renewing;
mod upgrading;

pub use errors::UpgradeError;
pub use upgrading::{is_old, upgrade};
