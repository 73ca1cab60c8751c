//! A value that a call could not use.

/// An error that hands back the argument of the call, as its cause left it.
#[derive(Drop)]
pub struct Back<T, E> {
    pub value: T,
    pub cause: E,
}
