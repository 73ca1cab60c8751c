//! When pages stand for a book, and what follows.
//!
//! Page 0 has the numbers of the pages, pages 1 to 16 are the catalog, with a record for each series, and
//! each series has a tree on pages of its own. `specs/Standing.antt` says when pages stand for a book,
//! and when the image of a disk does.
//!
//! Pages stand for one book alone. Those in use are as many as the book needs. Where the tree of a series
//! is changed and then its record, the pages stand for the changed book, and so they do with a record more.
//! The functions do nothing: their contracts are these laws, of which the layers above, which read and
//! change such pages, make use.
#![tactic(auto)]

pub mod laws;
