//! The spans of a tree page, from its top to its leaves.
//!
//! A page holds the coefficients of 127 nodes as a heap: the nodes 2n + 1 and 2n + 2 lie below node n.
//! The 128 places behind them are the leaves: the tops of the children's pages or, on page level 1, the
//! slots. `PageSpans` are the spans of these 255 places. `spread` splits them from the top's span by a
//! page's coefficients; `gather` joins them from the leaves, and writes the coefficients. So a page is
//! changed in three steps: spread, set leaves, gather. No call takes memory.
#![tactic(auto)]

mod errors;
mod joining;
mod page_spans;
mod splitting;

pub use errors::BadNode;
pub use page_spans::PageSpans;
