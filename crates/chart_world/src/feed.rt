//! The piece of input that was taken last, and the front of a line that began in an earlier one.
ghost use Rattle.std.specs.Prelude.{false, ◌≡◌, ◌≤◌, ◌<◌, ◌+◌, ◌-◌, ◌^◌, ◌++◌, IfSome, IsTrue, take, vec_len, vec_capacity, IfOk, OnOk};
ghost use Rattle.std.specs.Prelude.{OnErr, slice_range};
ghost use Rattle.std.specs.List.{position_or_len};
ghost use Rattle.block_disk.specs.Counts.{HasRisen, counted};
ghost use Rattle.block_disk.specs.Streams.{Given, left_after};
ghost use Rattle.chart_world.specs.Lines.{is_line_feed};

use block_disk::{Failed, Streams};
use std::alloc::{AllocError, Global};

/// The bytes of a piece.
const PIECE: usize = 1048576;

/// The most bytes of a line that is not too long.
pub(crate) const LONGEST: usize = 8192;

/// `bytes[start..end]` was taken and isn't passed yet. `spill` has the front of a line. `ended` says
/// that a take found the end of the input. Lines may come from `limit` bytes of it.
#[derive(Drop)]
pub(crate) struct Feed {
    pub(crate) bytes: Vec<u8>,
    pub(crate) start: usize,
    pub(crate) end: usize,
    pub(crate) taken: u64,
    pub(crate) spill: Vec<u8>,
    pub(crate) ended: bool,
    pub(crate) limit: u64,
    ghost sized: { vec_len bytes ≡ 1048576 },
    ghost ordered: { start ≤ end },
    ghost within: { end ≤ 1048576 },
    ghost counted: { end - start ≤ taken },
    ghost limited: { limit < 2 ^ 63 },
    ghost bounded: { taken ≤ limit + 1048576 },
    ghost short: { vec_len spill ≤ 8192 },
    ghost room: { 8192 ≤ vec_capacity spill },
    ghost passed: { IsTrue ended → start ≡ end },
    ghost found: { IsTrue ended → taken ≤ limit },
}

/// The bytes before the first line feed, or all where there is none.
fn line_feed_at(bytes: &[u8]) -> usize
    ensures { result ≡ position_or_len is_line_feed bytes.now }
{
    match memchr::memchr(b'\n', bytes) {
        Some(at) => at,
        None => bytes.len(),
    }
}

impl Feed {
    /// Nothing taken yet.
    pub(crate) fn new(alloc: Global, limit: u64) -> Result<Feed, AllocError>
        requires { limit < 2 ^ 63 }
        ensures { IfOk result (λ feed. (feed.start ≡ 0) × (feed.end ≡ 0) × (feed.taken ≡ 0) × (feed.ended ≡ false) × (feed.limit ≡ limit)) }
    {
        Ok(Feed {
            bytes: vec![in alloc; 0; PIECE]?,
            start: 0,
            end: 0,
            taken: 0,
            spill: Vec::with_capacity(alloc, LONGEST)?,
            ended: false,
            limit,
        })
    }

    /// How many bytes are pending.
    pub(crate) fn len(&self) -> usize
        ensures { result ≡ self.now.end - self.now.start }
    {
        self.end - self.start
    }

    /// How many bytes of the input were passed.
    pub(crate) fn given(&self) -> u64
        ensures { result ≡ self.now.taken - (self.now.end - self.now.start) }
    {
        self.taken - self.len() as u64
    }

    /// How many pending bytes stand before the first line feed: all, where there is none.
    pub(crate) fn line_feed(&self) -> usize
        ensures { result ≡ position_or_len is_line_feed (slice_range self.now.bytes.items self.now.start self.now.end) }
    {
        let bytes = self.bytes.as_slice();
        line_feed_at(&bytes[self.start..self.end])
    }

    /// Passes some pending bytes.
    pub(crate) fn pass(&mut self, count: usize)
        requires { count ≤ self.old.end - self.old.start }
        ensures start { self.new.start ≡ self.old.start + count }
        ensures end { self.new.end ≡ self.old.end }
        ensures bytes { self.new.bytes.items ≡ self.old.bytes.items }
        ensures taken { self.new.taken ≡ self.old.taken }
        ensures spill { self.new.spill.items ≡ self.old.spill.items }
        ensures ended { self.new.ended ≡ self.old.ended }
        ensures limit { self.new.limit ≡ self.old.limit }
    {
        self.start += count;
    }

    /// Passes some pending bytes onto the spill, as far as that has room.
    pub(crate) fn keep(&mut self, count: usize)
        requires { count ≤ self.old.end - self.old.start }
        ensures spill { self.new.spill.items ≡ take 8192
            (self.old.spill.items ++ take count (slice_range self.old.bytes.items self.old.start self.old.end)) }
        ensures start { self.new.start ≡ self.old.start + count }
        ensures end { self.new.end ≡ self.old.end }
        ensures bytes { self.new.bytes.items ≡ self.old.bytes.items }
        ensures taken { self.new.taken ≡ self.old.taken }
        ensures ended { self.new.ended ≡ self.old.ended }
        ensures limit { self.new.limit ≡ self.old.limit }
    {
        let kept = count.min(LONGEST - self.spill.len());
        let bytes = self.bytes.as_slice();
        self.spill
            .extend_from_slice(&bytes[self.start..self.start + kept])
            .unwrap();
        self.start += count;
    }

    /// Takes the next piece, once all is passed.
    pub(crate) fn refill<S: Streams>(&mut self, from: &mut S) -> Result<usize, Failed>
        requires passed { self.old.start ≡ self.old.end }
        requires within { self.old.taken ≤ self.old.limit }
        ensures given { IfOk result (λ count. IfSome (S.left from.old) (λ left. Given count left self.new.bytes.items)) }
        ensures left { IfOk result (λ count. S.left from.new ≡ left_after count (S.left from.old)) }
        ensures start { OnOk result (self.new.start ≡ 0) }
        ensures end { IfOk result (λ count. self.new.end ≡ count) }
        ensures taken { IfOk result (λ count. self.new.taken ≡ self.old.taken + count) }
        ensures ended { IfOk result (λ count. IsTrue self.new.ended → count ≡ 0) }
        ensures ended_nothing { IfOk result (λ count. count ≡ 0 → IsTrue self.new.ended) }
        ensures left_on_err { OnErr result (S.left from.new ≡ S.left from.old) }
        ensures passed_on_err { OnErr result (self.new.start ≡ self.new.end) }
        ensures taken_on_err { OnErr result (self.new.taken ≡ self.old.taken) }
        ensures spill { self.new.spill.items ≡ self.old.spill.items }
        ensures limit { self.new.limit ≡ self.old.limit }
        ensures cause { OnErr result (HasRisen (S.read_faults from.old) (S.read_faults from.new)) }
        ensures quiet { OnOk result (S.read_faults from.new ≡ S.read_faults from.old) }
        ensures sent { S.sent from.new ≡ S.sent from.old }
        ensures send_faults { S.send_faults from.new ≡ S.send_faults from.old }
        ensures read_faults { S.read_faults from.old ≤ S.read_faults from.new }
        ensures pieces { S.pieces from.old ≤ S.pieces from.new }
        ensures piece { IfOk result (λ count. 0 < count → S.pieces from.new ≡ counted (S.pieces from.old)) }
        ensures beside { S.takes from.old from.new }
    {
        let count = from.take(self.bytes.as_mut_slice())?;
        self.start = 0;
        self.end = count;
        self.taken += count as u64;
        self.ended = count == 0;
        Ok(count)
    }
}
