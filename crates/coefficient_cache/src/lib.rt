//! The list of coefficients that a client keeps of its charts, and that the server mirrors for each
//! session, so that a view sends only what the client lacks. Both ends run this one implementation.
//!
//! A list has pairs of a key of a series and its coefficient, the most recently used first, no two of
//! one key, and at most as many as its capacity, which is 1 to 131,072. A view needs some keys of one
//! series. The needed pairs that the list lacks, or holds with another coefficient, are sent. Then
//! those needed keys that are in the list come to its front, in their order and with their present
//! coefficients, next the others are put in front of them, and what passes the capacity falls off the
//! end.
//!
//! Each look-up is by hash, and a view costs time in proportion to what it needs, whatever the list
//! holds. Which keys a view needs, and which session has which list, is left to the layers above.
#![tactic(auto)]

mod cache;
mod in_line;
pub mod laws;
mod pair_list;
mod renewal;
mod series_key;

pub use cache::{CoefficientCache, MOST_CAPACITY, is_capacity};
// A crate can name a list in a contract only if the types of its fields are exported.
#[doc(hidden)]
pub use pair_list::PairList;
pub use series_key::SeriesKey;
