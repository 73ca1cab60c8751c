/// A stored value and its time.
#[derive(Clone, Copy)]
pub struct Sample {
    pub time: i64,
    pub value: i64,
}
