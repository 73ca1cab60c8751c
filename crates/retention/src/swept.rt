//! What a sweep did.

/// How many clears a rule made, and how many pages are in use behind them.
#[derive(Clone, Copy)]
pub struct Swept {
    pub clears: u64,
    pub used: u64,
}

/// How many clears a step of a sweep made, how many pages are in use behind them, and whether the rule makes more.
#[derive(Clone, Copy)]
pub struct SweptSome {
    pub clears: u64,
    pub used: u32,
    pub more: bool,
}
