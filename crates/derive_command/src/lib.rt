//! The command `derive`: charts of `a * x + b * y` of two stored series, without a third one.
//!
//! A line is `NAME NAME A B W H T0 T1 RANGE`, or empty, and is answered by a raw PBM: the chart of A times the first series
//! and B times the second at each time of the window at which both store a value. specs/Requests.antt says which lines are
//! requests, specs/Answers.antt what they are answered or why they are refused. The first refusal ends the run. Nothing is
//! written: the book stays at each moment.
//!
//! The words of the command line are for the layer above.
#![tactic(auto)]

mod answering;
mod asked;
mod asking;
mod command;
mod derive_refusal;
mod drawing;
pub mod laws;
mod request;
mod request_error;
mod request_work;
mod requests;
mod tokens;

pub use asked::Asked;
pub use asking::asked_of;
pub use command::derive;
pub use derive_refusal::DeriveRefusal;
pub use drawing::draw_lines;
pub use request::Request;
pub use request_error::RequestError;
pub use requests::{GREATEST_FACTOR, request_of};
