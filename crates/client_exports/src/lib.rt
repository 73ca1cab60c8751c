//! The proved client for callers that are not Rattle: a library for C, and from it a module for WebAssembly.
//!
//! A caller holds a `Handle`: eight bytes, 0 where it is closed. It feeds the bytes of a stream in pieces. `chart_next`
//! takes the next frame in hand and tells its numbers, `chart_cover` draws a cover of it, and `chart_draw` has the client
//! accept it and draws its picture. What was drawn last is copied out by `chart_picture`, as the bytes of a PBM, and
//! `chart_column` tells the least and the greatest value of a column of the last picture, `chart_columns` those of many.
//!
//! No call asks for more than its types say: that the handle's bytes are as the last call left them, that the bytes of
//! a slice are there, and that one call is made at a time. A call of a closed handle says so.
//!
//! A `Handle` isn't `Drop`. So no function here lets one go without taking its stream back as a box, whose drop gives
//! the memory back.
#![tactic(auto)]

mod answer;
mod cover;
mod exports;
mod fault;
mod handle;
mod loose;
mod stream;

pub use answer::Answer;
pub use fault::Fault;
pub use handle::Handle;
pub use stream::Stream;
