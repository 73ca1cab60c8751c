//! Tests of derived_chart, and nothing else: what no clause of it says. A crate with tests is proved twice, and the other
//! crate of tests for these layers stands on the commands, so they have one of their own.
#![tactic(auto)]

#[cfg(test)]
mod sums;
