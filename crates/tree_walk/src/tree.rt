use om3_coeff::Span;

/// A series' tree: how many slots it has, the page of its root, and the span of all slots. The root is
/// 0 where no slot has a value.
#[derive(Clone, Copy)]
pub struct Tree {
    pub slots: u64,
    pub root: u32,
    pub span: Option<Span>,
}
