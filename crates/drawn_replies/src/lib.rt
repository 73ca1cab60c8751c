//! What a client draws of a service's frames: the charts of the book.
#![tactic(auto)]

pub mod laws;
