//! The stored values of a window of slots.
use crate::slot_run::SlotRun;

/// The stored values of a window of slots, in order, and the runs of the slots that hold them. The slots between runs
/// hold nothing, nor do those before the first one and behind the last.
#[derive(Drop)]
pub struct WindowValues {
    pub runs: Vec<SlotRun>,
    pub stored: Vec<i64>,
}
