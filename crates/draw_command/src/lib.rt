//! The commands `draw` and `cover`: the frames of an input as pictures.
//!
//! Frames are taken in pieces of the input, and each that stands whole is drawn by a client that begins
//! without sessions. The picture of a View and of a Rows frame is sent as a PBM; `cover` sends before a
//! View's picture the covers of its chart (progressive_view) after 0, every, 2 * every, .. coefficients, each number
//! below that of all that the frame sends. Both commands are one loop.
//!
//! Between two frames the client has accepted all frames so far, in their order, and what was sent are
//! their covers and pictures. The disk is never called. The words of the command line and the statuses
//! are for the layer above.
#![tactic(auto)]

mod covers;
mod draw_end;
mod drawing;
pub mod laws;
mod picture;

pub use draw_end::DrawEnd;
pub use drawing::{cover, draw};
