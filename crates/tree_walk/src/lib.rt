//! The coefficients of a series' tree, read from the pages of a space.
//!
//! A tree of k page levels has its root page on level k. A page of level p holds the coefficients of
//! seven levels of keys, and names the pages of its 128 parts on level p - 1; 0 stands for a part
//! without a stored value. The way to a key is the pages whose ranges hold the key's range.
//!
//! A `Trail` holds the pages of the way to the key asked last. So an ask in tree order reads one page at
//! most. `PagedNodes` are the nodes of a tree on pages; between two calls its trail holds pages as the
//! pages are. Changes of a tree, and which pages are in use, are left to the layers above.
#![tactic(auto)]

mod asking;
mod held_page;
pub mod laws;
mod paged_nodes;
mod paths;
mod trail;
mod tree;

pub use asking::coef_at;
pub use paged_nodes::PagedNodes;
pub use trail::Trail;
pub use tree::Tree;
