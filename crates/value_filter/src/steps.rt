use crate::atoms::Atom;

/// The most `not` and `(` that are open at once.
pub const OPEN_AT_ONCE: usize = 64;

/// The most answers that are pending while a filter's steps are told: two for each level of
/// parentheses, and one.
pub const PENDING: usize = 131;

/// A step of a filter: an atom, or what is done with the last answers.
#[derive(Clone, Copy)]
pub enum Step {
    Test(Atom),
    Not,
    And,
    Or,
}
