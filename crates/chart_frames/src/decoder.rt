ghost use Rattle.std.specs.Prelude.{◌≡◌, ◌<◌, ◌≤◌, ◌+◌, ◌-◌, ◌^◌, ◌++◌, [], ℕ, List, length, drop, Option, None, Some, Result, Ok, Err};
ghost use Rattle.std.specs.Prelude.{OnOk, OnErr};
ghost use Rattle.chart_frames.specs.Format.{Breaks};
ghost use Rattle.chart_frames.specs.Fields.{frame_fields};
ghost use Rattle.chart_frames.specs.Frames.{Fits, spelling};
ghost use Rattle.chart_frames.specs.Stream.{Answers, IsOnly, IsPartial};
ghost use Rattle.chart_frames.specs.Pending.{held};
ghost use Rattle.chart_frames.specs.Places.{Reached};
ghost use Rattle.chart_frames.specs.declared.frame.Frame.{Frame};
ghost use Rattle.chart_frames.specs.declared.errors.FrameFault.TheVariants.{BadFrame};

use crate::errors::FrameFault;
use crate::fields::Stop;
use crate::frame::Frame;
use crate::item_stop::ItemStop;
use crate::place::{Place, frame_at};
use std::alloc::{AllocError, Global};
use std::marker::Model;

/// Frames out of a stream of bytes that comes in pieces. It counts the bytes that it has given as
/// frames, and holds the others: the stream so far is the spellings of the frames given, one behind
/// the other, and then the bytes held.
#[derive(Drop)]
pub struct Decoder {
    alloc: Global,
    // The bytes from `start` on are those that were fed and not given.
    bytes: Vec<u8>,
    start: usize,
    given: u64,
    place: Place,
}

impl Model for Decoder {
    ghost use Rattle.std.specs.Prelude.{◌+◌, ◌^◌, ◌<◌, ◌≤◌, length, drop};
    ghost use Rattle.chart_frames.specs.Pending.{Pending};

    ghost Value = { Pending };

    ghost use Rattle.chart_frames.specs.Places.{Reached};

    ghost view = { λ d. record { given = d.given; rest = drop d.start d.bytes.items } };

    ghost invariant = { λ d. record {
      start : d.start ≤ length d.bytes.items;
      counted : d.given + length (drop d.start d.bytes.items) < 2 ^ 64;
      reached : Reached (drop d.start d.bytes.items) d.place;
    } };
}

impl Decoder {
    /// A decoder at the start of a stream. It takes no memory.
    pub fn new(alloc: Global) -> Decoder
        ensures { result ≡ record { given = 0; rest = [] } }
    {
        Decoder {
            alloc,
            bytes: Vec::new(alloc),
            start: 0,
            given: 0,
            place: Place::Start,
        }
    }

    /// Takes the next piece of the stream. Want of memory changes nothing; it is also answered where
    /// the stream would pass 2^64 - 1 bytes, which can't be counted.
    pub fn feed(&mut self, piece: &[u8]) -> Result<(), AllocError>
        ensures given { self.new.given ≡ self.old.given }
        ensures ok { OnOk result (self.new.rest ≡ self.old.rest ++ piece.now) }
        ensures err { OnErr result (self.new ≡ self.old) }
    {
        let held = (self.bytes.len() - self.start) as u64;
        if piece.len() as u64 > u64::MAX - self.given - held {
            return Err(AllocError);
        }
        self.start = drop_given(&mut self.bytes, self.start);
        match self.bytes.extend_from_slice(piece) {
            Ok(()) => Ok(()),
            Err(_) => Err(AllocError),
        }
    }

    /// The next frame, which is taken from the stream. `None` where more bytes are needed. `BadFrame`
    /// comes as soon as the last byte of a field that breaks its rule is there, and again at each
    /// later call. Want of memory changes nothing, so a later call may succeed.
    pub fn next(&mut self) -> Result<Option<Frame>, FrameFault>
        // Which answer may come, and what is held then.
        ensures answers { Answers self.old result self.new }

        // Each of them comes exactly where its cause stands, unless memory runs out.
        ensures frame { (f : Frame) (x : List ℕ) → Fits f → self.old.rest ≡ spelling f ++ x → IsOnly result (Ok (Some f)) }
        ensures bad { (within : ℕ) → Breaks frame_fields self.old.rest within → IsOnly result (Err (BadFrame (self.old.given + within))) }
        ensures more { IsPartial self.old → IsOnly result (Ok None) }
    {
        let (_, rest) = self.bytes.split_at(self.start);
        let (answer, taken) = answer_of(self.alloc, &mut self.place, self.given, rest);
        self.start += taken;
        self.given += taken as u64;
        answer
    }

    /// How many bytes were fed and not given.
    pub fn pending(&self) -> u64
        ensures { result ≡ length self.now.rest }
    {
        (self.bytes.len() - self.start) as u64
    }
}

// The answer for the bytes that are held behind so many given ones, and how many of them it takes.
fn answer_of(
    alloc: Global,
    place: &mut Place,
    given: u64,
    bytes: &[u8],
) -> (Result<Option<Frame>, FrameFault>, usize)
    requires reached { Reached bytes.now place.old }
    requires counted { given + length bytes.now < 2 ^ 64 }
    ensures answers { Answers (held given bytes.now) result.0 (held (given + result.1) (drop result.1 bytes.now)) }
    ensures taken { result.1 ≤ length bytes.now }
    ensures reached { Reached (drop result.1 bytes.now) place.new }
{
    match frame_at(alloc, place, bytes) {
        Ok((frame, left)) => (Ok(Some(frame)), bytes.len() - left),
        Err(ItemStop::Stop(Stop::More)) => (Ok(None), 0),
        Err(ItemStop::Stop(Stop::Bad(left))) => {
            let at = given + (bytes.len() - left) as u64;
            (Err(FrameFault::BadFrame { at }), 0)
        }
        Err(ItemStop::NoMemory) => (Err(FrameFault::NoMemory), 0),
    }
}

// Drops the bytes before start, unless more bytes than these would move. Where the bytes start then.
fn drop_given(bytes: &mut Vec<u8>, start: usize) -> usize
    requires { start ≤ length bytes.old.items }
    ensures bounds { result ≤ length bytes.new.items }
    ensures rest { drop result bytes.new.items ≡ drop start bytes.old.items }
{
    let held = bytes.len() - start;
    if held > start {
        return start;
    }
    bytes.copy_within(start.., 0);
    bytes.truncate(held);
    0
}
