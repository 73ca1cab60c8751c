//! Changes of a series' tree, in place: slots get values or lose them, and the tree grows.
//!
//! A change goes down from the root to the pages whose ranges hold its slots. Each of these pages is read
//! once, its 255 spans are spread, its children are changed one after the other, and then its
//! coefficients are gathered again and the page is put. A page below which nothing is stored is given
//! back. A tree that grows gets new roots above the old one by the same way down. All is done in a
//! transaction; a page off the way stays as it is.
//!
//! Whether there is room is tested first: a way down without a change counts the pages that the changed
//! tree has more. No call takes memory.
#![tactic(auto)]

mod calls;
mod change;
mod closing;
mod counting;
mod errors;
pub mod laws;
mod opening;
mod reading;
mod repairing;

pub use calls::{clear_run, grow, put_run, put_slot};
pub use errors::RepairError;
pub use reading::names_within;
