ghost use Rattle.std.specs.Prelude.{◌≡◌};
ghost use Rattle.run_ends.specs.Statuses.{block_of, code_of, place_of, refused_at, status, status_of};

use crate::codes::{
    BAD_COEFFICIENT, BAD_INPUT, DAMAGED, DISK_FAULT, DONE, IS_STORE, MISSING, NO_MEMORY, NO_SERIES,
    READ_FAULT, REFUSED, REFUSED_LINE, SEND_FAULT, TOO_MUCH, TOO_SMALL, UNKNOWN_SESSION,
    WRONG_WORDS,
};
use crate::ending::End;
use series_book::refusal_numbers::UNKNOWN_SERIES;

/// What is told of how a run ended.
#[derive(Clone, Copy)]
pub struct Status {
    /// 0 where the run did all that it was asked, else one of the codes of `codes`.
    pub code: u8,
    /// What the code says of the words, of the input or of the disk, else 0.
    pub place: u64,
}

/// The first block of a store's pages.
const FIRST_PAGE: u64 = 66;

/// The most bytes of input that a run takes, where its end names no other number.
const MOST_BYTES: u64 = 4_294_967_296;

/// The code and the place of an end.
pub fn status_of(end: End) -> Status
    ensures code { result.code ≡ code_of end }
    ensures place { result.place ≡ place_of end }
    ensures status { result ≡ status_of end }
{
    match end {
        End::Done => told(DONE, 0),
        End::WrongWords { word } => told(WRONG_WORDS, word),
        End::NoMemory => told(NO_MEMORY, 0),
        End::ReadFault => told(READ_FAULT, 0),
        End::SendFault => told(SEND_FAULT, 0),
        End::DiskFault => told(DISK_FAULT, 0),
        End::DamagedBlock { block } => told(DAMAGED, block),
        End::DamagedPage { page } => told(DAMAGED, block_of(page)),
        End::BadInput { at } => told(BAD_INPUT, at),
        End::InputTooLong => told(TOO_MUCH, MOST_BYTES),
        End::TooMuch { most } => told(TOO_MUCH, most),
        End::Missing { key } => told(MISSING, key),
        End::BadCoefficient { key } => told(BAD_COEFFICIENT, key),
        End::TooSmall { blocks } => told(TOO_SMALL, u64::from(blocks)),
        End::IsStore => told(IS_STORE, block_of(0)),
        End::UnknownSeries => told(REFUSED, u64::from(UNKNOWN_SERIES)),
        End::Refused { at, refusal } => told(REFUSED, refused_at(at, refusal)),
        End::UnknownSession { session } => told(UNKNOWN_SESSION, u64::from(session)),
        End::RefusedLine { at, refusal } => told(REFUSED_LINE, refused_at(at, refusal)),
        End::NoSeries { at } => told(NO_SERIES, u64::from(at)),
    }
}

/// The status of this code and place.
fn told(code: u8, place: u64) -> Status
    ensures { result ≡ status code place }
{
    Status { code, place }
}

/// The block of a page of the store.
fn block_of(page: u32) -> u64
    ensures { result ≡ block_of page }
{
    FIRST_PAGE + u64::from(page)
}

/// The place of a refusal: 256 times the offset of the line, and its number.
fn refused_at(at: u32, refusal: u8) -> u64
    ensures { result ≡ refused_at at refusal }
{
    256 * u64::from(at) + u64::from(refusal)
}
