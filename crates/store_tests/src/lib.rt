//! Tests over the libraries of the store: what no clause says of them, and no golden run shows.
//!
//! They run on disks in memory that stop, fail and tear where they are told to, and count
//! their calls. The library itself is empty.
#![tactic(auto)]

#[cfg(test)]
mod counts;
#[cfg(test)]
mod deeds;
#[cfg(test)]
mod fakes;
#[cfg(test)]
mod rows;
#[cfg(test)]
mod stops;
#[cfg(test)]
mod sweeps;
