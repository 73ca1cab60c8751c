/// What an edit answers.
#[derive(Clone, Copy)]
pub struct Outcome {
    /// The number of slots of the series after the edit.
    pub slots: u64,
}
