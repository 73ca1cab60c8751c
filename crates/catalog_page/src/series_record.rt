use om3_coeff::Span;

/// What a record says of its series.
#[derive(Clone, Copy)]
pub struct Record<'a> {
    /// The name, 1 to 31 bytes.
    pub name: &'a [u8],
    /// How many decimals a reader may show, 0 to 9.
    pub scale: u8,
    /// The time from a slot to the next, 1 to 2^31.
    pub step: u32,
    /// The time of slot 0, at most 10^18 in size.
    pub start: i64,
    /// How many slots there are, at most 2^35, the last one at a time of at most 2 * 10^18.
    pub slots: u64,
    /// The page of the root, 0 where nothing is stored.
    pub root: u32,
    /// The least and the greatest stored value; none without a root.
    pub span: Option<Span>,
}
