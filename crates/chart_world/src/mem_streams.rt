//! What a world in memory takes and sends.
ghost use Rattle.std.proofs.Common.{◌∙◌};
ghost use Rattle.std.specs.Prelude.{◌≡◌, ◌≤◌, ◌<◌, ◌+◌, ◌++◌, ◌∷◌, ◌⊎◌, ◌/◌, ◌↔◌, ℕ, [], Some, min, length, take, drop, IsErr, IfOk, OnOk};
ghost use Rattle.std.specs.Prelude.{OnErr, Contains, refl, if◌then◌else◌};
ghost use Rattle.std.specs.Bool.{OnTrue, OnFalse};
ghost use Rattle.block_disk.specs.Counts.{counted};
ghost use Rattle.block_disk.specs.MemDisk.{alone};
ghost use Rattle.chart_world.specs.Sends.{timed};
ghost use Rattle.chart_world.specs.SentOn.{SentOn, sent_none, sent_more, sent_then};
ghost use Rattle.chart_world.specs.Worlds.{bytes_left, bytes_sent, TakesOnly, SendsOnly};

use crate::count_one::count_one;
use crate::mem_world::MemWorld;
use crate::sent_log::Sent;
use block_disk::{Clocked, Failed, Streams};
use std::alloc::{AllocError, Global};

impl<D: Clocked> MemWorld<D> {
    /// A world of this disk and this input, of which nothing was taken, and with nothing sent.
    pub fn new(
        alloc: Global,
        disk: D,
        input: Vec<u8>,
        take_fails: Vec<u64>,
        send_fails: Vec<u64>,
    ) -> Result<MemWorld<D>, AllocError>
        ensures left { IfOk result (λ world. bytes_left world ≡ input.items) }
        ensures sent { IfOk result (λ world. bytes_sent world ≡ []) }
        ensures disk { IfOk result (λ world. world.disk ≡ disk) }
        ensures take_fails { IfOk result (λ world. world.take_fails.items ≡ take_fails.items) }
        ensures send_fails { IfOk result (λ world. world.send_fails.items ≡ send_fails.items) }
        ensures counts { IfOk result (λ world. (world.takes ≡ 0) × (world.sends ≡ 0) × (world.read_faults ≡ 0) × (world.send_faults ≡ 0)
            × (world.pieces ≡ 0)) }
    {
        Ok(MemWorld {
            disk,
            input,
            at: 0,
            sent: Vec::new(alloc),
            log: Vec::new(alloc),
            take_fails,
            send_fails,
            takes: 0,
            sends: 0,
            read_faults: 0,
            send_faults: 0,
            pieces: 0,
        })
    }

    /// The bytes sent so far.
    pub fn sent(&self) -> &[u8]
        ensures { result.now ≡ bytes_sent self.now }
    {
        self.sent.as_slice()
    }
}

impl<D: Clocked> MemWorld<D> {
    /// The disk.
    pub fn into_disk(self) -> D
        ensures { result ≡ self.disk }
    {
        self.disk
    }
}

impl<D: Clocked> Streams for MemWorld<D> {
    ghost left = { λ world. Some (bytes_left world) };

    ghost sent = { λ world. Some (bytes_sent world) };

    ghost read_faults = { λ world. world.read_faults };

    ghost send_faults = { λ world. world.send_faults };

    ghost pieces = { λ world. world.pieces };

    ghost takes = { λ old new. (new.disk ≡ old.disk) × (new.log.items ≡ old.log.items) };

    ghost sends = { λ count old new. (new.disk ≡ old.disk)
        × SentOn count (timed (D.view old.disk) old.log.items alone) (timed (D.view new.disk) new.log.items alone) };

    fn take(&mut self, buf: &mut [u8]) -> Result<usize, Failed>
        requires { 16384 ≤ length buf.old }
        // the takes that the list names fail, and no others
        ensures fails { IsErr result ↔ Contains self.old.take_fails.items self.old.takes }
        ensures counted { self.new.takes ≡ counted self.old.takes }
        ensures fault { OnErr result (self.new.read_faults ≡ counted self.old.read_faults) }
        ensures no_fault { OnOk result (self.new.read_faults ≡ self.old.read_faults) }
        // the buffer is filled as far as bytes are left
        ensures fills { IfOk result (λ count. count ≡ min (length buf.old) (length (bytes_left self.old))) }
        ensures front { IfOk result (λ count. take count buf.new ≡ take count (bytes_left self.old)) }
        ensures left { IfOk result (λ count. bytes_left self.new ≡ drop count (bytes_left self.old)) }
        ensures left_on_err { OnErr result (bytes_left self.new ≡ bytes_left self.old) }
        ensures piece { IfOk result (λ count. 0 < count → self.new.pieces ≡ counted self.old.pieces) }
        ensures no_piece { IfOk result (λ count. count ≡ 0 → self.new.pieces ≡ self.old.pieces) }
        ensures no_piece_on_err { OnErr result (self.new.pieces ≡ self.old.pieces) }
        // all else stays
        ensures others { TakesOnly self.old self.new }
    {
        let fails = self.take_fails.contains(&self.takes);
        count_one(&mut self.takes);
        if fails {
            count_one(&mut self.read_faults);
            return Err(Failed);
        }
        let count = move_front(self.input.as_slice(), self.at, buf);
        self.at += count;
        if count > 0 {
            count_one(&mut self.pieces);
        }
        Ok(count)
    }

    fn send(&mut self, piece: &[u8]) -> Result<(), Failed>
        // the sends that the list names fail with half of the piece sent; another only for want of memory
        ensures fails { Contains self.old.send_fails.items self.old.sends → IsErr result }
        ensures counted { self.new.sends ≡ counted self.old.sends }
        ensures fault { OnErr result (self.new.send_faults ≡ counted self.old.send_faults) }
        ensures no_fault { OnOk result (self.new.send_faults ≡ self.old.send_faults) }
        ensures whole { OnOk result (bytes_sent self.new ≡ bytes_sent self.old ++ piece.now) }
        ensures part { OnErr result ((bytes_sent self.new ≡ bytes_sent self.old)
            ⊎ (bytes_sent self.new ≡ bytes_sent self.old ++ take (length piece.now / 2) piece.now)) }
        // the send is a moment
        ensures moments { SentOn (length piece.now) (timed (D.view self.old.disk) self.old.log.items alone)
            (timed (D.view self.new.disk) self.new.log.items alone) }
        // all else stays
        ensures others { SendsOnly self.old self.new }
    {
        let fails = self.send_fails.contains(&self.sends);
        count_one(&mut self.sends);
        let part = if fails { piece.len() / 2 } else { piece.len() };
        let moment = self.disk.moment();
        let stored = store(&mut self.sent, &mut self.log, &piece[..part], moment);
        if fails || !stored {
            count_one(&mut self.send_faults);
            return Err(Failed);
        }
        Ok(())
    }

    ghost takes_none = { λ at. (refl, refl) };

    ghost takes_then = { λ old between new first second. (second.0 ∙ first.0, second.1 ∙ first.1) };

    ghost sends_none = { λ at. (refl, sent_none _) };

    ghost sends_more = { λ count more old new at_most same. (same.0, sent_more count more _ _ at_most same.1) };

    ghost sends_then = { λ first second old between new one two. (two.0 ∙ one.0, sent_then first second _ _ _ one.1 two.1) };
}

/// Adds bytes to those sent, and notes it. Where there is no memory all stays.
fn store(sent: &mut Vec<u8>, log: &mut Vec<Sent>, bytes: &[u8], at: u64) -> bool
    ensures sent { sent.new.items ≡ (if result then sent.old.items ++ bytes.now else sent.old.items) }
    ensures noted { OnTrue result ((count : ℕ) × (log.new.items ≡ log.old.items ++ record { at = at; count = count } ∷ [])
        × (count ≡ length sent.new.items)) }
    ensures log { OnFalse result (log.new.items ≡ log.old.items) }
{
    let before = sent.len();
    if sent.extend_from_slice(bytes).is_err() {
        return false;
    }
    let count = sent.len() as u64;
    if log.push(Sent { at, count }).is_err() {
        sent.truncate(before);
        return false;
    }
    true
}

/// Moves the bytes from a place on to the front of `buf`, as far as it goes, and answers how many.
fn move_front(bytes: &[u8], at: usize, buf: &mut [u8]) -> usize
    ensures count { result ≡ min (length buf.old) (length (drop at bytes.now)) }
    ensures front { take result buf.new ≡ take result (drop at bytes.now) }
{
    let at = at.min(bytes.len());
    let count = buf.len().min(bytes.len() - at);
    buf[..count].copy_from_slice(&bytes[at..at + count]);
    count
}
