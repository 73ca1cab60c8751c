//! A stream of input and a stream of output.
ghost use Rattle.std.specs.Prelude.{◌≡◌, ◌+◌, ◌≤◌, ◌<◌, ℕ, List, Option, length, IfOk, IfSome, OnOk, OnErr};
ghost use Rattle.block_disk.specs.Counts.{HasRisen, counted};
ghost use Rattle.block_disk.specs.Streams.{Given, PartSent, sent_after, left_after};

use crate::Failed;

/// Standard input and output, or what stands for them.
pub trait Streams: Drop {
    /// The bytes left to take, where the stream tells them.
    ghost left: { Self → Option (List ℕ) };

    /// The bytes sent so far, where the stream tells them.
    ghost sent: { Self → Option (List ℕ) };

    /// How often a take has failed. The count stays at its last value, 2^64 - 1.
    ghost read_faults: { Self → ℕ };

    /// How often a send has failed. The count stays at its last value, 2^64 - 1.
    ghost send_faults: { Self → ℕ };

    /// How many takes gave a byte. The count stays at its last value, 2^64 - 1.
    ghost pieces: { Self → ℕ };

    /// `takes old new`: what stands beside the streams may change so from old to new by takes.
    ghost takes: { Self → Self → Type 0 };

    /// `sends count old new`: it may change so by sends of at most count bytes in all.
    ghost sends: { ℕ → Self → Self → Type 0 };

    /// Moves the next bytes left to the front of `buf`, and answers how many: 0 exactly at the end
    /// of the input. The rest of `buf`, and all of it after `Failed`, may hold anything.
    fn take(&mut self, buf: &mut [u8]) -> Result<usize, Failed>
        requires { 16384 ≤ length buf.old }
        ensures fits { IfOk result (λ count. count ≤ length buf.old) }
        ensures given { IfOk result (λ count. IfSome (left self.old) (λ bytes. Given count bytes buf.new)) }
        ensures left { IfOk result (λ count. left self.new ≡ left_after count (left self.old)) }
        ensures left_on_err { OnErr result (left self.new ≡ left self.old) }
        // a fault has its cause in the count, and no count falls
        ensures cause { OnErr result (HasRisen (read_faults self.old) (read_faults self.new)) }
        ensures quiet { OnOk result (read_faults self.new ≡ read_faults self.old) }
        ensures read_faults { read_faults self.old ≤ read_faults self.new }
        // a take that gave a byte is counted, and no other
        ensures piece { IfOk result (λ count. 0 < count → pieces self.new ≡ counted (pieces self.old)) }
        ensures no_piece { IfOk result (λ count. count ≡ 0 → pieces self.new ≡ pieces self.old) }
        ensures no_piece_on_err { OnErr result (pieces self.new ≡ pieces self.old) }
        // the other stream stays
        ensures sent { sent self.new ≡ sent self.old }
        ensures send_faults { send_faults self.new ≡ send_faults self.old }
        ensures beside { takes self.old self.new };

    /// Sends all of `piece`, or after `Failed` a part of it from its front.
    fn send(&mut self, piece: &[u8]) -> Result<(), Failed>
        ensures whole { OnOk result (sent self.new ≡ sent_after piece.now (sent self.old)) }
        ensures part { OnErr result (PartSent piece.now (sent self.old) (sent self.new)) }
        ensures cause { OnErr result (HasRisen (send_faults self.old) (send_faults self.new)) }
        ensures quiet { OnOk result (send_faults self.new ≡ send_faults self.old) }
        ensures send_faults { send_faults self.old ≤ send_faults self.new }
        // the other stream stays
        ensures left { left self.new ≡ left self.old }
        ensures read_faults { read_faults self.new ≡ read_faults self.old }
        ensures pieces { pieces self.new ≡ pieces self.old }
        ensures beside { sends (length piece.now) self.old self.new };

    /// No take changes nothing, and takes after takes are takes.
    ghost takes_none: { (at : Self) → takes at at };

    ghost takes_then: { (old between new : Self) → takes old between → takes between new → takes old new };

    /// The same of sends, whose bytes add up; and what at most count bytes may change, more may.
    ghost sends_none: { (at : Self) → sends 0 at at };

    ghost sends_more: { (count more : ℕ) (old new : Self) → count ≤ more → sends count old new → sends more old new };

    ghost sends_then: { (first second : ℕ) (old between new : Self) → sends first old between → sends second between new
        → sends (first + second) old new };
}
