//! What a call for the next line answers.

use thiserror::Error;

/// The next line, or the end of the input.
#[derive(Clone, Copy)]
pub enum LineAnswer {
    /// A line of at most 8,192 bytes, which `Lines::line` gives.
    Line,
    /// A line of more than 8,192 bytes. It is passed over.
    TooLong,
    /// No byte is left.
    End,
}

/// Why no line came. It is the last answer of these `Lines`.
#[derive(Clone, Copy, Debug, Error)]
pub enum LineFault {
    /// A take failed. Every line whose line feed was taken came before.
    #[error("the input could not be read")]
    ReadFault,
    /// A byte past the limit of these `Lines` was taken, and every line whose line feed is within it
    /// came before.
    #[error("the input has more bytes than its limit")]
    InputTooLong,
}
