/// The least and the greatest stored value of a range.
#[derive(Clone, Copy, PartialEq, Eq)]
pub struct Span {
    pub min: i64,
    pub max: i64,
}
