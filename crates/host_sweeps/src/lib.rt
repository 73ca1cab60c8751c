//! A step of a sweep of old slots, between the lines of a host.
//!
//! `sweep_step` does at most 64 clears of a rule on the store of a live service, and answers how many they were, how many
//! pages are in use behind them, and whether clears are left to make; so that a long sweep is done by one line after the
//! other, and other lines come through in between. Behind it a push is pending for each session that follows a series
//! which the rule may have changed. All else stays: the sessions have their lists and last views.
//!
//! How lines come and frames are sent is left to the layer above.
#![tactic(auto)]

pub mod laws;
mod pushing;
mod step_work;
mod steps;

pub use steps::{MOST_CLEARS, sweep_step};
