//! Filters of a view as text: comparisons of a point's time `t` and its value `v` with whole
//! numbers, joined by `and`, `or`, `not` and parentheses.
//!
//!     expr = conj { "or" conj }        unit = "not" unit | "(" expr ")" | atom
//!     conj = unit { "and" unit }       atom = ("t" | "v") ("<" | "<=" | "=" | "!=" | ">=" | ">") integer
//!
//! A filter is kept as its steps in postfix order, which are always those of one expression. So it is
//! read, and told on a point or on a box of points, in time linear in its text and without recursion;
//! telling it takes no memory. At most 64 `not` and `(` are open at once. Texts of more than 8,192
//! bytes and what a filter keeps of a series are left to the layers above.
#![tactic(auto)]

mod answer_stack;
pub mod atoms;
pub mod box_answers;
pub mod faults;
pub mod filters;
mod frames;
pub mod laws;
mod parser;
mod pieces;
pub mod steps;
pub mod tokens;

pub use atoms::{Atom, Comparison, Subject};
pub use box_answers::BoxAnswer;
pub use faults::FilterFault;
pub use filters::Filter;
