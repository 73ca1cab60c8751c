//! A disk and two streams on one clock.
ghost use Rattle.std.specs.Prelude.{◌≡◌, ◌≤◌, ◌+◌, ℕ, length, IfSome};
ghost use Rattle.block_disk.specs.View.{Now, sent_now, DiskKept, Passes};

use crate::{Disk, Streams};

/// The whole outside: a disk with streams beside it. Each moment has the images that a crash may
/// leave and the number of bytes sent by then.
pub trait World: Disk + Streams {
    /// What stands beside the disk are the streams.
    ghost beside_left: { (world : Self) → (Self.view world).beside.left ≡ Self.left world };

    ghost beside_sent: { (world : Self) → (Self.view world).beside.sent ≡ Self.sent world };

    ghost beside_read_faults: { (world : Self) → (Self.view world).beside.read_faults ≡ Self.read_faults world };

    ghost beside_send_faults: { (world : Self) → (Self.view world).beside.send_faults ≡ Self.send_faults world };

    ghost beside_pieces: { (world : Self) → (Self.view world).beside.pieces ≡ Self.pieces world };

    /// The bytes sent so far are counted.
    ghost counts_sent: { (world : Self) → IfSome (Self.sent world) (λ bytes. sent_now (Self.view world) ≡ length bytes) };

    /// A take leaves the disk and the number of bytes sent.
    ghost take_keeps: { (old new : Self) → Self.takes old new → DiskKept (Self.view old) (Self.view new) };

    ghost take_passes: { (old new : Self) → Self.takes old new
        → Passes (Self.view old) (Self.view new) (Now (Self.view old)) (λ count. count ≡ sent_now (Self.view old)) };

    /// A send leaves the disk, and the number of bytes sent rises on the way to what it is then.
    ghost send_keeps: { (most : ℕ) (old new : Self) → Self.sends most old new → DiskKept (Self.view old) (Self.view new) };

    ghost send_passes: { (most : ℕ) (old new : Self) → Self.sends most old new
        → Passes (Self.view old) (Self.view new) (Now (Self.view old)) (λ count. (sent_now (Self.view old) ≤ count)
        × (count ≤ sent_now (Self.view new))) };

    ghost send_counts: { (most : ℕ) (old new : Self) → Self.sends most old new
        → sent_now (Self.view new) ≤ sent_now (Self.view old) + most };
}
