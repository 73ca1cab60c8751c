//! The points of a view, gathered by pixel columns, and their picture drawn from what was gathered.
//!
//! A row holds, for one column that has points, the values of the first, of the least, of the
//! greatest and of the last of them. Rows stand in rising order of columns. A row is drawn by filling
//! its column from the height of the least to that of the greatest value; its last point is joined
//! by a segment to the next row's first point. The picture is that of all points, each joined to the
//! next, pixel for pixel, though a canvas of w columns has at most w rows.
//!
//! Between calls `Groups` holds the rows of the points that were pushed, which lie in its grid's
//! window and come in order of time. Which points are gathered, and over which range of values they
//! are drawn, is left to the layers above.
#![tactic(auto)]

mod drawing;
mod groups;
pub mod laws;
mod row;
mod rows;
mod scale;

pub use drawing::draw_rows;
pub use groups::Groups;
pub use row::Row;
pub use rows::Rows;
