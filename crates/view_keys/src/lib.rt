//! Which keys of a series' tree a view needs, and which it wants by what it has seen.
//!
//! A view draws columns of pixels; the slots of a column are a range of slots. A key is flat where the
//! least and the greatest value of its range have one height. It is needed where its range lies across
//! a column's slots; or within them, where it isn't flat and holds the first or the last stored one:
//! with these keys' coefficients a client finds each column's least and greatest value, and the heights
//! of its first and last one. A client that holds coefficients can't see the list of slots; the keys
//! that it wants are said by what the root and its coefficients show. Where those are the series' own,
//! both are the same keys.
//!
//! This crate has the definitions, their laws, the test of flatness and the order of keys in a list.
//! The walks that find the keys stand above it.
#![tactic(auto)]

mod flat;
pub mod laws;
mod order;

pub use flat::is_flat;
pub use order::comes_before;
