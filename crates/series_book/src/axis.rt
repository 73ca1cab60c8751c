/// Where the slots of a series stand in time, and how many there are.
#[derive(Clone, Copy)]
pub struct Axis {
    /// The time of slot 0.
    pub start: i64,
    /// The time from a slot to the next.
    pub step: u32,
    /// The number of slots.
    pub slots: u64,
}
