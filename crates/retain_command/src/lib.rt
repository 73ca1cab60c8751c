//! The command `retain`: lines that are rules, each swept over the store of a disk and answered.
//!
//! A line is `before NAME T`, `last NAME COUNT` or `free PAGES`, or empty. Its sweep (retention) drops old slots in
//! small commits, and once that is done `swept CLEARS USED` is sent. specs/Rules.antt says which lines are rules,
//! specs/Answers.antt what they do and what is said of them. At each moment a crash leaves the book behind the sweep of
//! each line whose answer was sent, and behind some first clears of the next one. specs/Retained.antt says how it ends.
//!
//! The words of the command line are for the layer above.
#![tactic(auto)]

mod answering;
mod command;
pub mod laws;
mod rule_error;
mod rule_work;
mod rules;
mod sweeping;

pub use command::retain;
pub use rule_error::RuleError;
pub use rules::rule_of;
pub use sweeping::sweep_lines;
