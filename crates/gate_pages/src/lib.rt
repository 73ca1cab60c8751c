//! Pages of 4,096 bytes on a disk of blocks, committed in batches through a journal.
//!
//! Block 0 is the gate, block 1 the directory of the journal, blocks 2 to 65 its images, and page p
//! is block 66 + p. A commit writes the images and the directory and syncs; opens the gate and syncs;
//! writes the pages home and syncs; closes the gate and syncs. An opening finishes what an open gate
//! tells of. So a crash at any moment leaves the pages from before a commit or those from after it.
//!
//! Invariant of sound pages: nothing is pending on the disk, and the gate is closed. After a fault in
//! a commit the pages aren't sound, and the store has to be opened again. What a page holds is for the
//! layers above.
#![tactic(auto)]

mod batch;
mod batch_calls;
mod directory;
mod errors;
mod gate_pages;
mod gate_streams;
mod journal;
mod layout;
mod list_calls;
mod list_pages;
mod opening;
mod page;
mod page_calls;
mod page_world;
mod pages;
mod recovery;

pub use batch::Batch;
pub use errors::{DiskFault, OpenCause, OpenError};
pub use gate_pages::GatePages;
pub use list_pages::ListPages;
pub use page_world::PageWorld;
pub use pages::Pages;
