/// The coefficient of a key: whether the left and the right half of its range have a stored value and,
/// where both have, the left one's least less the right one's least value, and the same of the
/// greatest. Both differences are 0 otherwise.
#[derive(Clone, Copy, PartialEq, Eq)]
pub struct Coef {
    pub left: bool,
    pub right: bool,
    pub dmin: i64,
    pub dmax: i64,
}
