use thiserror::Error;

/// The first field of a record that breaks its rule, in this order.
#[derive(Clone, Copy, Debug, Error)]
pub enum BadField {
    /// Byte 0 of the record isn't 1.
    #[error("the record isn't marked as one of a series")]
    Used,
    /// The name's length isn't 1 to 31.
    #[error("the name's length isn't 1 to 31")]
    Length,
    /// The scale is above 9.
    #[error("the scale is above 9")]
    Scale,
    /// The name's bytes are no name, or a byte behind them isn't 0.
    #[error("the name isn't one, or isn't padded with 0")]
    Name,
    /// The step isn't 1 to 2^31.
    #[error("the step isn't 1 to 2^31")]
    Step,
    /// The start is above 10^18 in size.
    #[error("the start is out of range")]
    Start,
    /// There are more than 2^35 slots, or the last one's time is past 2 * 10^18.
    #[error("there are too many slots")]
    Slots,
    /// The root is no page that was given out, or isn't 0 where there is no slot.
    #[error("the root is no page that can be one")]
    Root,
    /// The least value is above 10^18 in size, or isn't 0 without a root.
    #[error("the least value is out of range")]
    Min,
    /// The greatest value is above 10^18 in size, below the least, or isn't 0 without a root.
    #[error("the greatest value is out of range")]
    Max,
    /// The page levels aren't those of the slots.
    #[error("the page levels aren't those of the slots")]
    Levels,
    /// A byte of no field isn't 0.
    #[error("a byte of no field isn't 0")]
    Spare,
}

/// What of a catalog page first breaks its rule, in this order.
#[derive(Clone, Copy, Debug, Error)]
pub enum BadCatalog {
    /// Byte 0 isn't 4.
    #[error("the page is no catalog page")]
    Kind,
    /// A byte of no record isn't 0.
    #[error("a byte of no record isn't 0")]
    Reserved,
    /// This is the first record of a series of which a field breaks its rule, and its first such field.
    #[error("record {number}: {field}")]
    Record { number: u8, field: BadField },
    /// This is the first record behind those of the series that isn't all 0.
    #[error("record {number} is of no series and isn't 0")]
    Unused { number: u8 },
}
