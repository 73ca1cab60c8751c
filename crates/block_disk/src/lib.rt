//! The outside as the program sees it: a stream of input, a stream of output, and why a call failed.
//!
//! `Streams` names what a stream means (the bytes left to take, the bytes sent, a count of each kind
//! of fault and a count of pieces), and each call says what it does to these meanings. What else a
//! call may change is named by two relations of the trait, `takes` and `sends`, which a trait above
//! gives laws: so something may stand beside the streams later, on one clock with them.
#![tactic(auto)]

mod back;
mod clocked;
mod count_one;
mod disk;
mod failed;
mod file_disk;
mod fuse_disk;
mod mem_calls;
mod mem_disk;
mod mem_made;
mod no_disk;
mod streams;
mod tear;
mod world;

pub use back::Back;
pub use clocked::Clocked;
pub use disk::{BLOCK, Disk};
pub use failed::Failed;
pub use file_disk::FileDisk;
pub use fuse_disk::FuseDisk;
pub use mem_disk::MemDisk;
pub use streams::Streams;
pub use tear::Tear;
pub use world::World;
