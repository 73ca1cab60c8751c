use thiserror::Error;

/// What a line says. Its numbers have at most 19 digits.
#[derive(Clone, Copy, PartialEq, Eq)]
pub enum Row {
    /// A reading: the time as the line has it, and the value that it has, times 10^scale.
    Point { time: i128, value: i128 },
    /// A time without a reading.
    Skip { time: i128 },
    /// The names of the two columns.
    Header,
}

/// The first thing that is wrong with a line.
#[derive(Clone, Copy, Debug, PartialEq, Eq, Error)]
pub enum RowCause {
    /// The line isn't one record of two fields.
    #[error("not two fields")]
    Fields,
    /// The first field is no whole number: it isn't `0`, nor an optional `-` and 1 to 19 digits of
    /// which the first isn't 0.
    #[error("a time that is no whole number")]
    Time,
    /// The second field is neither empty nor `-`, and is no decimal with at most `scale` places that
    /// has at most 19 digits once it is scaled.
    #[error("a value that is no decimal of the series")]
    Value,
}

/// Why a line gives no row.
#[derive(Clone, Copy, Debug, PartialEq, Eq, Error)]
pub enum RowError {
    /// The line is no row.
    #[error("bad row: {0}")]
    BadRow(RowCause),
    /// Want of memory.
    #[error("out of memory")]
    NoMemory,
}
