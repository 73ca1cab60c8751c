/// How a run ended: it did all that it was asked, or this came in its way.
#[derive(Clone, Copy)]
pub enum End {
    /// All input was read to its end, and all output was sent.
    Done,
    /// The words aren't a command: the index of the first wrong word, the number of words where one is missing, and
    /// 0 where one is a flag.
    WrongWords { word: u64 },
    /// There was no memory.
    NoMemory,
    /// The input could not be read.
    ReadFault,
    /// The output could not be sent.
    SendFault,
    /// A call of the disk failed.
    DiskFault,
    /// No store was opened: this block breaks its layout, or it is 66 and there is no store.
    DamagedBlock { block: u64 },
    /// This page of an open store is bad for its place.
    DamagedPage { page: u32 },
    /// The line, the field or the frame at this offset of the input isn't in the grammar. Where the input ends within
    /// a frame, it is the input's length.
    BadInput { at: u64 },
    /// The input has more than 2^32 bytes.
    InputTooLong,
    /// The input has more than a run takes, slots of a plot or bytes of a host: the most that it takes.
    TooMuch { most: u64 },
    /// The first coefficient that a view wants and can't use was neither sent nor held: the number of its key.
    Missing { key: u64 },
    /// The first coefficient that a view wants and can't use doesn't fit: the number of its key.
    BadCoefficient { key: u64 },
    /// The disk has too few blocks for a store: so many.
    TooSmall { blocks: u32 },
    /// There is a store already.
    IsStore,
    /// A load or an export has no series of the name.
    UnknownSeries,
    /// A set of the readings of a load is refused: the offset of the line of its first reading, and the refusal's number.
    Refused { at: u32, refusal: u8 },
    /// A frame names this session, which isn't open.
    UnknownSession { session: u32 },
    /// A line of `derive` is refused: its offset, and the refusal's number.
    RefusedLine { at: u32, refusal: u8 },
    /// The line of `retain` at this offset names a series that isn't there.
    NoSeries { at: u32 },
}
