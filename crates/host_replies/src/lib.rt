//! The replies of a host to the lines that ask for a report, over a service.
//!
//! `answer_report` answers `list` by the catalog, `values` by the first piece of the values in a window, and `sum` by the
//! rows of a sum of two series, each by one frame; or it refuses, as a line that is bad, by the numbers that request lines
//! have. The book and the sessions stay, each with its list and its last view. specs/Replies.antt says what is told of the
//! plain book.
//!
//! What a line spells, and lines that change the store, are left to other layers.
#![tactic(auto)]

mod reading;
mod replies;
mod report_work;

pub use replies::answer_report;
