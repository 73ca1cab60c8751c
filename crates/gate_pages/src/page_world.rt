//! Pages and two streams on one clock.
ghost use Rattle.std.specs.Prelude.{◌≡◌, ◌≤◌, ◌+◌, ℕ, length, IfSome};
ghost use Rattle.block_disk.specs.View.{Now, sent_now, DiskKept, Passes};
ghost use Rattle.gate_pages.specs.Pages.{GoesOn};

use crate::pages::Pages;
use block_disk::Streams;

/// Pages with streams beside them. Each moment has the pages that a crash may leave and the number
/// of bytes sent by then.
pub trait PageWorld: Pages + Streams {
    /// What stands beside the pages are the streams.
    ghost beside_left: { (world : Self) → (Self.view world).beside.left ≡ Self.left world };

    ghost beside_sent: { (world : Self) → (Self.view world).beside.sent ≡ Self.sent world };

    ghost beside_read_faults: { (world : Self) → (Self.view world).beside.read_faults ≡ Self.read_faults world };

    ghost beside_send_faults: { (world : Self) → (Self.view world).beside.send_faults ≡ Self.send_faults world };

    ghost beside_pieces: { (world : Self) → (Self.view world).beside.pieces ≡ Self.pieces world };

    /// The bytes sent so far are counted.
    ghost counts_sent: { (world : Self) → IfSome (Self.sent world) (λ bytes. sent_now (Self.view world) ≡ length bytes) };

    /// A take leaves the pages and the number of bytes sent.
    ghost take_keeps: { (old new : Self) → Self.takes old new → DiskKept (Self.view old) (Self.view new) };

    ghost take_told: { (old new : Self) → Self.takes old new → Self.told old → Self.told new };

    ghost take_was_told: { (old new : Self) → Self.takes old new → Self.told new → Self.told old };

    /// Pages that are sound after takes were sound before them.
    ghost take_was_fit: { (old new : Self) → Self.takes old new → (Self.view new).fit → (Self.view old).fit };

    ghost take_goes_on: { (old new : Self) → Self.takes old new → GoesOn (Self.under old) (Self.under new) };

    ghost take_passes: { (old new : Self) → Self.takes old new
        → Passes (Self.view old) (Self.view new) (Now (Self.view old)) (λ count. count ≡ sent_now (Self.view old)) };

    /// A send leaves the pages, and the number of bytes sent rises on the way to what it is then.
    ghost send_keeps: { (most : ℕ) (old new : Self) → Self.sends most old new → DiskKept (Self.view old) (Self.view new) };

    ghost send_told: { (most : ℕ) (old new : Self) → Self.sends most old new → Self.told old → Self.told new };

    ghost send_was_told: { (most : ℕ) (old new : Self) → Self.sends most old new → Self.told new → Self.told old };

    ghost send_was_fit: { (most : ℕ) (old new : Self) → Self.sends most old new → (Self.view new).fit → (Self.view old).fit };

    ghost send_goes_on: { (most : ℕ) (old new : Self) → Self.sends most old new → GoesOn (Self.under old) (Self.under new) };

    ghost send_passes: { (most : ℕ) (old new : Self) → Self.sends most old new
        → Passes (Self.view old) (Self.view new) (Now (Self.view old)) (λ count. (sent_now (Self.view old) ≤ count)
        × (count ≤ sent_now (Self.view new))) };

    ghost send_counts: { (most : ℕ) (old new : Self) → Self.sends most old new
        → sent_now (Self.view new) ≤ sent_now (Self.view old) + most };
}
