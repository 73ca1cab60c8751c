//! The codes of statuses.

/// All input was read to its end, and all output was sent.
pub const DONE: u8 = 0;

/// The words aren't a command. The place is the index of the first wrong word, and the number of
/// words where one is missing; 0 where one is a flag.
pub const WRONG_WORDS: u8 = 2;

/// There was no memory.
pub const NO_MEMORY: u8 = 3;

/// The input could not be read.
pub const READ_FAULT: u8 = 4;

/// The output could not be sent.
pub const SEND_FAULT: u8 = 5;

/// A call of the disk failed.
pub const DISK_FAULT: u8 = 6;

/// A block breaks its layout, or there is no store, and the place is that block: page p of the store is block
/// 66 + p.
pub const DAMAGED: u8 = 7;

/// A line or a frame of the input isn't in the grammar, and the place is the offset of the line or of the
/// field. Where the input ends within a frame, the place is its length.
pub const BAD_INPUT: u8 = 8;

/// There is more input than a run takes. The place is the most that it takes.
pub const TOO_MUCH: u8 = 9;

/// The first coefficient that a view wants and can't use was neither sent nor held. The place is the
/// number of its key.
pub const MISSING: u8 = 10;

/// The first coefficient that a view wants and can't use doesn't fit. The place is the number of its
/// key.
pub const BAD_COEFFICIENT: u8 = 11;

/// The disk has too few blocks for a store. The place is their number.
pub const TOO_SMALL: u8 = 12;

/// There is a store already. The place is the block of its page 0.
pub const IS_STORE: u8 = 13;

/// A load or an export has no series of the name, and the place is 8; or a set of the input's readings is refused, and the
/// place is 256 times the offset of the line of its first reading, and the number of the refusal.
pub const REFUSED: u8 = 14;

/// A frame names a session that isn't open. The place is the session's number.
pub const UNKNOWN_SESSION: u8 = 15;

/// A line of `derive` is refused. The place is 256 times the offset of the line, and the number of the refusal.
pub const REFUSED_LINE: u8 = 16;

/// A line of `retain` names a series that isn't there. The place is the offset of the line.
pub const NO_SERIES: u8 = 17;
