//! A view whose coefficients are taken one after the other, with a cover of its chart at each stage.
//!
//! The coefficients that count are those of the frame that were taken, and those that the client holds
//! of keys whose range lies across an end of a column's slots, as far as the frame sends none and their
//! turn in the order of keys has come. What else the client holds may be old, and isn't used. By what
//! these coefficients show, view_cover says which pixels may be black: that is the cover.
//!
//! Between calls a view's session is open at the client, its frame's fields meet their rules, and no
//! more coefficients are taken than the frame has. Nothing is copied of the frame or of the client. The
//! picture, once all is taken, is left to the client.
#![tactic(auto)]

pub mod laws;
mod places;
mod progress;
mod scopes;
mod taken;

pub use progress::Progress;
