/// The values from `lo` to `hi`, which a chart shows from the bottom row to the top one.
#[derive(Clone, Copy)]
pub struct ValueRange {
    pub lo: i64,
    pub hi: i64,
}
