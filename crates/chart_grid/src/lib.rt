//! Where times and values lie on a canvas.
//!
//! A grid is a window of time, from t0 to below t1, on a canvas of w columns and h rows of pixels.
//! The column of a time t of the window is (t - t0) * w / (t1 - t0). The height of a value v over a
//! range lo to hi is (v - lo) * (h - 1) / (hi - lo), counted from the bottom row, and 0 where lo is
//! hi. Both are rounded towards minus infinity. Heights aren't clamped. A column shows the slots of
//! a series whose times have that column: these slots are neighbours, and may be none.
//!
//! Between calls a grid's window isn't empty, its ends are at most 2 * 10^18 from 0, and its canvas
//! has 1 to 4,096 columns and rows. No call takes memory. What is drawn, and over which range of
//! values, is left to the layer above.
#![tactic(auto)]

mod axis;
mod grid;
mod grid_error;
mod height;
pub mod laws;
mod share;
mod times;

pub use axis::Axis;
pub use grid::Grid;
pub use grid_error::GridError;
pub use height::height_of;
pub use times::later;
