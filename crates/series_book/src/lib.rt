//! Series of optional whole numbers, books of series, and edits of a book over plain lists.
//!
//! - A series has a name, a start, a step, a scale and slots; slot i stands at `start + i * step`.
//! - A book is a list of series, no two of one name. The place of a series in it is its id.
//! - An edit creates a series, appends or sets values, or clears slots. It is refused with the first
//!   refusal that stands, in the order of the refusals' numbers.
//! - The pages of a book are 17 and, for each series and each of its page levels j, the aligned
//!   ranges of 128^j slots that hold a stored value. An edit that would need more pages than the
//!   book may take is refused.
//!
//! Between calls each series of a book is in range (`IsBook`), and a `ListBook` knows how many pages
//! its book takes. Sessions, views and lines are left to the crates above.
#![tactic(auto)]

pub mod axis;
pub mod books;
pub mod checks;
pub mod edits;
pub mod errors;
pub mod laws;
pub mod limits;
pub mod list_books;
pub mod names;
pub mod one_series;
pub mod outcomes;
pub mod page_count;
pub mod refusal_numbers;
pub mod refusals;
pub mod slot_list;
pub mod value_list;

pub use axis::Axis;
pub use books::Book;
pub use edits::Edit;
pub use errors::{BookError, NameError};
pub use list_books::ListBook;
pub use names::Name;
pub use one_series::Series;
pub use outcomes::Outcome;
pub use page_count::{page_levels, pages};
pub use refusals::Refusal;
pub use slot_list::Slots;
pub use value_list::Values;
