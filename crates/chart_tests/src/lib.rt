//! Tests of the crates from value_filter up to store_commands, and nothing else: of what no clause says and no golden
//! run of the program shows. A crate with tests is proved twice, so they stand here, over the libraries.
#![tactic(auto)]

#[cfg(test)]
mod calls;
#[cfg(test)]
mod frames;
#[cfg(test)]
mod hosted;
#[cfg(test)]
mod keys;
#[cfg(test)]
mod limits;
#[cfg(test)]
mod loads;
#[cfg(test)]
mod plans;
#[cfg(test)]
mod reports;
#[cfg(test)]
mod served;
#[cfg(test)]
mod walks;
#[cfg(test)]
mod worlds;
