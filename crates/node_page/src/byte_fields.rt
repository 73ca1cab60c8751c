//! Bytes in a row, read and set. The pages of the catalog use them too.
ghost use Rattle.std.specs.Prelude.{◌≡◌, ◌≤◌, ◌<◌, ◌+◌, ◌↔◌, ℕ, length, slice_index, IsTrue};
ghost use Rattle.node_page.specs.Fields.{with_bytes};

/// Whether all bytes are 0.
pub fn are_zero(bytes: &[u8]) -> bool
    ensures { IsTrue result ↔ ((k : ℕ) → k < length bytes.now → slice_index bytes.now k ≡ 0) }
{
    let mut greatest = 0;
    for byte in bytes {
        greatest = greatest.max(*byte);
    }
    greatest == 0
}

/// Puts bytes in the place of those from an offset on.
pub fn put(bytes: &mut [u8], offset: usize, from: &[u8])
    requires within { offset + length from.now ≤ length bytes.old }
    ensures { bytes.new ≡ with_bytes bytes.old offset from.now }
{
    bytes[offset..offset + from.len()].copy_from_slice(from);
}
