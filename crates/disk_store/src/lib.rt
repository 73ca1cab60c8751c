//! A store on a disk is opened, and its disk is given back.
//!
//! A journal that an earlier run left is replayed first, and a store of version 1 is then brought to version 2.
//! A crash at any moment of an opening leaves the pages for which the disk stood, or these in version 2. Then
//! page 0 and the catalog are read. `specs/Held.antt` says when a disk holds a book: every image that a crash
//! now may leave recovers to it.
//!
//! Page p of a store is block 66 + p, and block 1 has the directory of the journal.
#![tactic(auto)]

mod causes;
mod closing;
mod opening;

pub use causes::OpeningCause;
pub use closing::disk_of;
pub use opening::open_store;
