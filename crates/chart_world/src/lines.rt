//! The lines of a stream, one at a time.
ghost use Rattle.std.specs.Prelude.{true, false, ◌≡◌, ◌≢◌, ◌≤◌, ◌<◌, ◌+◌, ◌-◌, ◌^◌, [], None, IsTrue, IfSome, length, take, drop, List};
ghost use Rattle.std.specs.Prelude.{Option, ℕ, IfOk, OnOk, OnErr};
ghost use Rattle.std.specs.List.{position_or_len};
ghost use Rattle.block_disk.specs.Counts.{HasRisen};
ghost use Rattle.block_disk.specs.Streams.{left_after};
ghost use Rattle.chart_world.specs.Fronts.{StandsIn};
ghost use Rattle.chart_world.specs.Lines.{is_line_feed, text_of};
ghost use Rattle.chart_world.specs.Reading.{unread_input, unread_up_to, unread, told_lines, with_first, behind_first, input_length};
ghost use Rattle.chart_world.specs.Reading.{HasFeed, HasLine, HasLineAt, IsNone, NoLineIn, Took};

use crate::feed::{Feed, LONGEST};
use crate::line_answer::{LineAnswer, LineFault};
use crate::place::{Place, text_len};
use block_disk::Streams;
use std::alloc::{AllocError, Global};
use std::marker::Model;

/// The most bytes of the input, where no other limit is named.
const LIMIT: u64 = 4294967296;

/// A reader of lines. It takes pieces of a stream as it needs them.
#[derive(Drop)]
pub struct Lines {
    feed: Feed,
    place: Place,
    offset: u64,
    usable: bool,
}

impl Model for Lines {
    ghost use Rattle.std.specs.Prelude.{◌-◌, slice_range};
    ghost use Rattle.chart_world.specs.Reading.{Reading};

    ghost Value = { Reading };

    ghost use Rattle.chart_world.specs.Place.{placed, IsPlaced};

    ghost view = { λ l. record {
      given = l.feed.taken - (l.feed.end - l.feed.start);
      pending = slice_range l.feed.bytes.items l.feed.start l.feed.end;
      taken = l.feed.taken;
      line = placed l.place l.feed.bytes.items l.feed.spill.items;
      offset = l.offset;
      usable = l.usable;
      ended = l.feed.ended;
      limit = l.feed.limit;
    } };

    ghost invariant = { λ l. IsPlaced l.place l.feed.spill.items };
}

impl Lines {
    /// Gives the pending line that ends at this place.
    fn give_pending(&mut self, before: usize) -> LineAnswer
        requires usable { IsTrue self.old.usable }
        requires place { before ≡ position_or_len is_line_feed self.old.pending }
        requires within { before < length self.old.pending }
        requires early { self.old.given + before < self.old.limit }
        requires given { self.old.taken ≡ self.old.given + length self.old.pending }
        ensures line { result ≡ LineAnswer.Line → text_of (take before self.old.pending) ≡ Some self.new.line }
        ensures too_long { result ≡ LineAnswer.TooLong → text_of (take before self.old.pending) ≡ None }
        ensures no_line { result ≢ LineAnswer.Line → self.new.line ≡ [] }
        ensures not_end { result ≢ LineAnswer.End }
        ensures passed { self.new.given ≡ self.old.given + before + 1 }
        ensures pending { self.new.pending ≡ drop (before + 1) self.old.pending }
        ensures taken { self.new.taken ≡ self.old.taken }
        ensures offset { self.new.offset ≡ self.old.given }
        ensures usable { IsTrue self.new.usable }
        ensures ended { self.new.ended ≡ self.old.ended }
        ensures limit { self.new.limit ≡ self.old.limit }
    {
        let first = self.feed.start;
        self.offset = self.feed.given();
        let bytes = self.feed.bytes.as_slice();
        let length = text_len(&bytes[first..first + before]);
        self.feed.pass(before + 1);
        if before > LONGEST {
            self.place = Place::Nowhere;
            return LineAnswer::TooLong;
        }
        self.place = Place::Piece {
            first,
            end: first + length,
        };
        LineAnswer::Line
    }

    /// How many bytes stand before the next line feed, where the next line is pending.
    fn pending_line(&self) -> Option<usize>
        ensures here { IfSome result (λ before. HasLineAt before self.now) }
        ensures has { IfSome result (λ before. HasLine self.now) }
        ensures none { result ≡ None → HasLine self.now → ⊥ }
    {
        let before = self.feed.line_feed();
        if before < self.feed.len() && self.feed.given() + (before as u64) < self.feed.limit {
            return Some(before);
        }
        None
    }

    /// Takes all buffers that it will need. Its lines come from the first 2^32 bytes of the input.
    pub fn new(alloc: Global) -> Result<Lines, AllocError>
        ensures { IfOk result (λ lines. lines ≡ unread_input) }
    {
        Lines::up_to(alloc, LIMIT)
    }

    /// The same of lines that come from so many first bytes of the input.
    pub fn up_to(alloc: Global, limit: u64) -> Result<Lines, AllocError>
        requires { limit < 2 ^ 63 }
        ensures { IfOk result (λ lines. lines ≡ unread_up_to limit) }
    {
        Ok(Lines {
            feed: Feed::new(alloc, limit)?,
            place: Place::Nowhere,
            offset: 0,
            usable: true,
        })
    }

    /// Gives the next line. It takes pieces of `from` only where no whole line is pending.
    ///
    /// `from` is the same stream at each call. No earlier call answered a fault. Once a take has found
    /// the end of the input none follows: so what came before a read fault is whole lines.
    pub fn next<S: Streams>(&mut self, from: &mut S) -> Result<LineAnswer, LineFault>
        requires usable { IsTrue self.old.usable }
        requires ended { IsTrue self.old.ended → IsNone (S.left from.old) }
        // the answer is the first of the lines that were unread, and End where none was
        ensures line { result ≡ Ok LineAnswer.Line → told_lines (unread self.old (S.left from.old)) ≡ with_first (Some self.new.line)
            (told_lines (unread self.new (S.left from.new))) }
        ensures too_long { result ≡ Ok LineAnswer.TooLong
            → told_lines (unread self.old (S.left from.old)) ≡ with_first None (told_lines (unread self.new (S.left from.new))) }
        ensures end { result ≡ Ok LineAnswer.End → IfSome (told_lines (unread self.old (S.left from.old))) (λ lines. lines ≡ []) }
        // what stands behind it is unread
        ensures rest { OnOk result (unread self.new (S.left from.new) ≡ behind_first (unread self.old (S.left from.old))) }
        ensures given { OnOk result (self.new.taken ≡ self.new.given + length self.new.pending) }
        // each line passes a byte at least, so lines come to an end
        ensures passes { result ≡ Ok LineAnswer.Line → self.old.given < self.new.given }
        ensures passes_too_long { result ≡ Ok LineAnswer.TooLong → self.old.given < self.new.given }
        ensures passes_end { result ≡ Ok LineAnswer.End → self.new.given ≡ self.old.given }
        ensures within { OnOk result (self.new.given ≤ self.old.limit) }
        ensures offset { result ≡ Ok LineAnswer.Line → self.new.offset ≡ self.old.given }
        ensures offset_too_long { result ≡ Ok LineAnswer.TooLong → self.new.offset ≡ self.old.given }
        ensures offset_end { result ≡ Ok LineAnswer.End → self.new.offset ≡ self.old.offset }
        ensures offset_fault { OnErr result (self.new.offset ≡ self.old.offset) }
        ensures no_line { result ≢ Ok LineAnswer.Line → self.new.line ≡ [] }
        // at a fault each line that could come before it has come
        ensures read_fault { result ≡ Err LineFault.ReadFault → HasRisen (S.read_faults from.old) (S.read_faults from.new) }
        ensures quiet { result ≢ Err LineFault.ReadFault → S.read_faults from.new ≡ S.read_faults from.old }
        ensures read_before { result ≡ Err LineFault.ReadFault
            → NoLineIn (self.new.taken - self.old.given) (unread self.old (S.left from.old)) }
        ensures read_within { result ≡ Err LineFault.ReadFault → self.new.taken ≤ self.old.limit }
        ensures past { result ≡ Err LineFault.InputTooLong → self.old.limit < self.new.taken }
        ensures past_before { result ≡ Err LineFault.InputTooLong
            → NoLineIn (self.old.limit - self.old.given) (unread self.old (S.left from.old)) }
        ensures left_on_err { OnErr result (S.left from.new ≡ left_after (self.new.taken - self.old.given)
            (unread self.old (S.left from.old))) }
        // a line without its line feed is given only where a take has found the end, and no take follows that
        ensures feed { OnOk result (self.new.ended ≡ false → HasFeed (unread self.old (S.left from.old))) }
        ensures not_ended { result ≡ Err LineFault.ReadFault → self.old.ended ≡ false }
        ensures stands { (input : Option (List ℕ)) → StandsIn input self.old (S.left from.old)
            → OnOk result (StandsIn input self.new (S.left from.new)) }
        ensures usable { OnOk result (IsTrue self.new.usable) }
        ensures unusable { OnErr result (self.new.usable ≡ false) }
        ensures limit { self.new.limit ≡ self.old.limit }
        // no byte is lost, and no more are taken than the line needs
        ensures total { input_length self.new.taken (S.left from.new) ≡ input_length self.old.taken (S.left from.old) }
        ensures forward { self.old.taken ≤ self.new.taken }
        ensures waits { HasLine self.old → from.new ≡ from.old }
        // of the stream nothing changes but by takes
        ensures sent { S.sent from.new ≡ S.sent from.old }
        ensures send_faults { S.send_faults from.new ≡ S.send_faults from.old }
        ensures read_faults { S.read_faults from.old ≤ S.read_faults from.new }
        ensures pieces { S.pieces from.old ≤ S.pieces from.new }
        // where no line was pending, a piece was taken, or all of the input is read
        ensures took { (HasLine self.old → ⊥) → OnOk result
            (Took (S.pieces from.old) (S.pieces from.new) (unread self.new (S.left from.new))) }
        ensures beside { S.takes from.old from.new }
    {
        if let Some(before) = self.pending_line() {
            return Ok(self.give_pending(before));
        }
        let first = self.feed.given();
        self.place = Place::Nowhere;
        let length = match self.feed.gather(from) {
            Ok(Some(length)) => length,
            Ok(None) => return Ok(LineAnswer::End),
            Err(fault) => {
                self.usable = false;
                return Err(fault);
            }
        };
        self.offset = first;
        if length > LONGEST as u64 {
            return Ok(LineAnswer::TooLong);
        }
        let end = text_len(self.feed.spill.as_slice());
        self.place = Place::Spill { end };
        Ok(LineAnswer::Line)
    }

    /// Whether the next line is pending: then `next` takes nothing. A line counts only where its line
    /// feed is within the limit, and the rest behind the last line feed never does.
    pub fn ready(&self) -> bool
        ensures ready { result ≡ true → HasLine self.now }
        ensures unready { result ≡ false → HasLine self.now → ⊥ }
    {
        self.pending_line().is_some()
    }

    /// The line of the last answer, where that was `Line`; empty otherwise.
    pub fn line(&self) -> &[u8]
        ensures line { result.now ≡ self.now.line }
        ensures short { length result.now ≤ 8192 }
    {
        match self.place {
            Place::Nowhere => &[],
            Place::Piece { first, end } => {
                let bytes = self.feed.bytes.as_slice();
                &bytes[first..end]
            }
            Place::Spill { end } => {
                let spill = self.feed.spill.as_slice();
                &spill[..end]
            }
        }
    }

    /// The offset in the input of the first byte of the last line, whether or not it was too long;
    /// 0 before any.
    pub fn offset(&self) -> u64
        ensures { result ≡ self.now.offset }
    {
        self.offset
    }

    /// The number of bytes taken from the stream.
    pub fn taken(&self) -> u64
        ensures { result ≡ self.now.taken }
    {
        self.feed.taken
    }
}
