//! Request lines and the frames that answer them, over a store.
//!
//! - A service holds a store, whose pages stand for a book, and the sessions that are open, each with the
//!   coefficients that its client keeps and the view that it was answered last.
//! - It answers one request at a time. A refused request is answered by the first refusal that
//!   stands, in the order of the refusals' numbers, and changes nothing. An accepted edit is one commit,
//!   and is answered behind it.
//! - A view, a zoom and a pan without a filter are answered by what the session's client lacks: of the
//!   coefficients that the view needs, those which the client doesn't keep, or keeps with an old value.
//!   Only the pages on the way to them are read.
//! - A view with a filter, and a zoom or pan of one, is answered by the rows of the points that it
//!   keeps, and leaves the list of coefficients that the client keeps.
//!
//! `answer_line`, `answer_long_line` and `answer_edits` send the bytes that a `Reply` makes of the frames
//! that answer lines; served_lines gives them the lines of the stream beside the pages. After a fault
//! of the disk the store has to be opened again; with every other error nothing was committed for the
//! request, and its session may be closed. Invariant: the last view of each session is of a series that
//! the store has. Drawing is the client's.
#![tactic(auto)]

mod answering;
mod answers;
mod edits;
mod failure;
mod filters;
mod gathering;
mod groups;
pub mod laws;
mod looking;
pub mod ranges;
mod refusals;
mod replying;
mod selecting;
mod service;
mod service_calls;
mod shown;
mod shown_rows;
mod stepping;
mod store_work;
mod streams;
mod viewing;
mod viewport;

pub use answers::{answer_edits, answer_line, answer_long_line};
pub use failure::{AnswerEnd, ServeEnd, ServiceError};
pub use gathering::edit_in;
pub use refusals::refused;
pub use replying::Reply;
pub use service::Service;
pub use store_work::StoreWork;
