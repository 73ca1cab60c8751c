//! Fields of a page.
ghost use Rattle.std.specs.Prelude.{◌≡◌, ◌≤◌, ◌<◌, ◌+◌, ◌-◌, ◌^◌, ◌++◌, ◌↔◌, length, take, drop, replicate, IsTrue};
ghost use Rattle.block_disk.specs.Blocks.{block_size, IsBlock};
ghost use Rattle.page_space.specs.Layout.{word};

use byteorder::{BigEndian, ByteOrder};

/// Makes a page one that begins with these bytes and is zero behind them.
pub(crate) fn start(page: &mut [u8], front: &[u8])
    requires whole { IsBlock page.old }
    requires few { length front.now ≤ block_size }
    ensures { page.new ≡ front.now ++ replicate (block_size - length front.now) 0 }
{
    page.fill(0);
    page[..front.len()].copy_from_slice(front);
}

/// Puts a number in four bytes, the highest first.
#[tactic(auto, unfolding(crate::specs::Layout::word))]
pub(crate) fn put_word(page: &mut [u8], at: usize, n: u32)
    requires { at + 4 ≤ length page.old }
    ensures { page.new ≡ take at page.old ++ (word n ++ drop (at + 4) page.old) }
{
    BigEndian::write_u32(&mut page[at..], n);
}

/// The number in the first four bytes, and the bytes behind it.
#[tactic(auto, unfolding(crate::specs::Layout::word))]
pub(crate) fn word_at(bytes: &[u8]) -> (u32, &[u8])
    requires { 4 ≤ length bytes.now }
    ensures parts { bytes.now ≡ word result.0 ++ result.1.now }
    ensures small { result.0 < 2 ^ 32 }
    ensures rest { length result.1.now + 4 ≡ length bytes.now }
{
    (BigEndian::read_u32(bytes), &bytes[4..])
}

/// Whether all bytes are zero.
pub(crate) fn all_zero(bytes: &[u8]) -> bool
    ensures { IsTrue result ↔ (bytes.now ≡ replicate (length bytes.now) 0) }
{
    for byte in bytes {
        if *byte != 0 {
            return false;
        }
    }
    true
}
