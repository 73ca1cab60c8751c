//! Readings and series as lines of text: what `load` reads, and what is told of a series.
//!
//! - The line of a reading is its time, a comma and its value with exactly as many decimals as the series' scale says; a
//!   point stands only where there are any, and a `-` in front of a value below 0.
//! - The line of a series is its name, start, step, scale and number of slots, with one space between two of them.
//!
//! A line is spelled on the stack and then appended to the caller's text, whole or not at all. That csv_load reads
//! the line of a reading as that reading is a law. Which readings are spelled, and where lines go, is left to the layer above.
#![tactic(auto)]

pub mod laws;
mod lines;
mod pieces;

pub use lines::{add_reading, add_series};
