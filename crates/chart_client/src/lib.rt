//! A client of the chart server: it draws the pictures of frames from what it was sent.
//!
//! For each session that is open in the stream a client holds a list of coefficients, the most
//! recently used first. A view's frame brings those that the list lacks, or holds with an old value.
//! From both the client finds, in every pixel column, the first, the least, the greatest and the last
//! value, and draws them: for every series that the frame may be of, the picture is that of all stored
//! points that the view keeps. Then its list changes as the server's list of the session does.
//!
//! A frame that names no open session, or a view for which a coefficient is missing or doesn't fit,
//! gives an error and changes nothing. `Show` is what shows the bytes of one frame, and `Screen` shows
//! them as a client does. `ColumnSpans` has the least and the greatest value of a picture's columns. How a
//! stream is cut into frames, and where the pictures go, is left to the layers above.
#![tactic(auto)]

mod client;
mod column_spans;
mod drawing;
mod errors;
mod failing;
mod failure;
mod finding;
mod held_nodes;
mod holding;
pub mod laws;
mod lookup;
mod picture;
mod screen;
mod search;
mod show;

pub use client::Client;
pub use column_spans::ColumnSpans;
pub use errors::ClientError;
pub use picture::Picture;
pub use screen::Screen;
pub use show::{Show, Shown};
