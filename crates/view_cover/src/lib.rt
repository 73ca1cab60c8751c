//! Which pixels of a chart may be black, by what is seen of a series.
//!
//! A root's span and some coefficients show the spans of some keys of the series' tree. The front are
//! the lowest of these keys that meet a view's window. Each has a box: the columns of its range's slots,
//! and the rows of its span. The cover has the pixels of the boxes, and of the least rectangles that
//! hold the boxes of two neighbours of the front. With more coefficients a cover shrinks, and it holds
//! the chart of each series of which all is true that is told of the keys that the view needs.
//!
//! Between calls nothing is kept. Which coefficients are told is left to the layer above.
#![tactic(auto)]

mod area;
pub mod laws;
mod scope;
mod teller;
mod walk;

pub use scope::Scope;
pub use teller::Teller;
pub use walk::draw_cover;
