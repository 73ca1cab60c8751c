//! Request lines and the requests that they spell.
//!
//! A line is a list of tokens with exactly one space between two of them, so that two spaces, or one
//! at an end, make an empty token. The first token names the kind of the line, and each place after
//! it allows certain tokens:
//!
//!     create NAME START STEP SCALE        append NAME V V ..
//!     set NAME T V V ..                   clear NAME T COUNT
//!     open N [CACHE]                      zoom N T0 T1
//!     pan N D                             close N
//!     view N NAME W H T0 T1 RANGE [where TEXT]
//!
//! Behind `where` and one space stands the text of a filter: any bytes up to the line's end, none too.
//! A line that isn't so is refused at the first token that its place doesn't allow. Lines of more
//! than 8,192 bytes are left to the layer above, as are the filter that a text spells and what a
//! request does.
#![tactic(auto)]

pub mod filter_texts;
pub mod laws;
pub mod line_errors;
pub mod line_kinds;
pub mod lines;
pub mod places;
pub mod ranges;
mod readers;
pub mod requests;
pub mod tokens;

pub use filter_texts::FilterText;
pub use line_errors::LineError;
pub use lines::parse_line;
pub use ranges::RangeWord;
pub use requests::Request;
