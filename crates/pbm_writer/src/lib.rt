//! A bitmap as the bytes of Netpbm's raw portable bitmap (PBM).
//!
//! The format: `P4`, a line feed, the width, a space, the height and a line feed, both numbers in
//! decimal. Then the rows from the top, each of `ceil(width / 8)` bytes. Pixel x of a row is bit
//! `7 - x mod 8` of byte `x / 8`, and 1 is black. The bits past the last column are 0.
//!
//! Sending the bytes is left to the layer above.
#![tactic(auto)]

mod rows;
mod writer;

pub use writer::pbm;
