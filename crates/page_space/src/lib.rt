//! Pages in use, a chain of freed pages, a superblock, and transactions, over any `Pages`.
//!
//! Page 0 is the superblock, pages 1 to 16 are for a catalog, and from page 17 on pages are given out.
//! A page is taken from the head of the chain where there is one, else it is the first page that was
//! never used. A freed page becomes the head of the chain and names the one behind it. A transaction
//! keeps the pages that it changes, page 0 among them, until they are committed in one batch; dropping
//! it changes nothing. A page that is read stays in a cache, in the place of its number mod 4,096.
//!
//! Invariant of a space: its numbers keep the rules of page 0, and while the pages are sound, page 0
//! spells them, and what the cache has of a page is that page. Invariant of a transaction: its page 0
//! spells its numbers. What the pages of the catalog and the pages given out hold is for the layers above,
//! but that the cache notes of which page level a copy was found to be a tree page.
#![tactic(auto)]

mod cache_calls;
mod errors;
mod fields;
mod freed_page;
mod initial;
pub mod laws;
mod layout;
mod opening;
mod page_cache;
mod space;
mod space_calls;
mod space_streams;
mod superblock;
mod superblock_page;
mod taking;
mod tree_pages;
mod txn;
mod txn_calls;

pub use errors::SpaceError;
pub use space::Space;
pub use txn::Txn;
