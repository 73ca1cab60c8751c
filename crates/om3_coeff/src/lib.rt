//! The binary tree over a series' slots: spans, coefficients, the nodes that hold them, and walks.
//!
//! The key (level j, index q) covers the slots q * 2^j to (q + 1) * 2^j - 1. Its span is the least and
//! the greatest stored value there. Its coefficient says which of its halves has a stored value and,
//! where both have, by how much the left one's least and greatest value exceed the right one's. So
//! `split` gets both halves' spans back from the span and the coefficient, and the root's span and the
//! coefficients hold all values.
//!
//! `Nodes` is whatever gives coefficients: a list, pages of a disk, what a client holds. Its contract
//! says what they mean, which walks may rely on; the walks answer for the list of slots that the nodes
//! agree with, and ask keys from the top down. No call takes memory.
#![tactic(auto)]

mod asking;
mod coef;
mod coefs;
mod ends;
mod errors;
mod heights;
mod joining;
mod key;
pub mod laws;
mod list_nodes;
mod nodes;
mod places;
mod scanning;
mod span;
mod walks;

pub use asking::ask;
pub use coef::Coef;
pub use coefs::Coefs;
pub use ends::{first_in, last_in};
pub use errors::{BadCoef, NodeError};
pub use heights::{height, page_levels, top_key};
pub use joining::{join, split};
pub use key::Key;
pub use list_nodes::ListNodes;
pub use nodes::Nodes;
pub use span::Span;
pub use walks::{range_span, value_at};
