//! An empty store is made on a disk.
//!
//! A journal that an earlier run left is replayed first. Then page 0 tells whether there is a store
//! already: one that begins with the magic of either version isn't written over. Where the journal can't be
//! read, there is none, and the pages are taken as they lie. The store is written in one commit, so a crash at any
//! moment leaves the pages from before or those of an empty store.
//!
//! What the pages of a store hold is for page_space, and how they are committed for gate_pages.
#![tactic(auto)]

mod errors;
mod making;
mod pages;

pub use errors::InitCause;
pub use making::make_store;
