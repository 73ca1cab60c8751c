//! The rules of the fields, each as a test.
ghost use Rattle.std.specs.Prelude.{◌≡◌, ◌<◌, ◌≤◌, ◌+◌, ◌*◌, ◌↔◌, ◌⊎◌, ◌^◌, ℕ, pos, IsTrue, length, slice_index};
ghost use Rattle.block_disk.specs.Blocks.{block_size, IsBlock};
ghost use Rattle.whole_number.specs.Range.{IsTime};
ghost use Rattle.node_page.specs.Fields.{level_at, signed_at, coef_at};
ghost use Rattle.node_page.specs.Layout.{IsLevel, IsReserved, AreFlags, IsAgreed, AreDifferences, AreEightSmall, AreFourInRange};
ghost use Rattle.node_page.specs.Layout.{IsFullOrFlat, IsChild, AreChildren, has_child, has_value};

use crate::byte_fields::are_zero;
use crate::fields::{child_of, difference_at, is_set};
use crate::layout::{CHILDREN, DIFFERENCES, END, FLAGS, GREATEST_DIFFERENCE, MOST_LEVELS};

/// Whether the page level is in range.
#[tactic(auto, unfolding(crate::specs::Fields::level_at))]
pub(crate) fn has_level(page: &[u8]) -> bool
    requires whole { IsBlock page.now }
    ensures { IsTrue result ↔ IsLevel page.now }
{
    1 <= page[1] && page[1] <= MOST_LEVELS
}

/// Whether the bytes of no field are 0.
pub(crate) fn is_reserved(page: &[u8]) -> bool
    requires whole { IsBlock page.now }
    ensures { IsTrue result ↔ IsReserved page.now }
{
    are_zero(&page[2..FLAGS]) && are_zero(&page[END..])
}

/// Whether a half of a node has a stored value.
#[tactic(auto, unfolding(crate::specs::Fields::coef_at))]
fn is_stored(page: &[u8], node: u8) -> bool
    requires whole { IsBlock page.now }
    requires node { node < 127 }
    ensures { result ≡ has_value (coef_at page.now node) }
{
    is_set(page, 2 * node) | is_set(page, 2 * node + 1)
}

/// Whether all bytes are 255.
fn are_full(bytes: &[u8]) -> bool
    ensures { IsTrue result → (k : ℕ) → k < length bytes.now → slice_index bytes.now k ≡ 255 }
{
    let mut least = 255;
    for byte in bytes {
        least = least.min(*byte);
    }
    least == 255
}

/// Whether all flags of the nodes are set, and the two behind them aren't. Most pages are so.
fn are_all_set(page: &[u8]) -> bool
    requires whole { IsBlock page.now }
    ensures flags { IsTrue result → AreFlags page.now }
    ensures full { IsTrue result → (n : ℕ) → n < 127 → IsFullOrFlat page.now n }
{
    are_full(&page[FLAGS..FLAGS + 31]) && page[FLAGS + 31] == 63
}

/// Whether the flags of the two nodes below a node agree with its own.
fn is_agreed(page: &[u8], node: u8) -> bool
    requires whole { IsBlock page.now }
    requires node { node < 63 }
    ensures { IsTrue result ↔ IsAgreed page.now node }
{
    let left = is_stored(page, 2 * node + 1);
    let right = is_stored(page, 2 * node + 2);
    left == is_set(page, 2 * node) && right == is_set(page, 2 * node + 1)
}

/// Whether no bit of a byte is set, or all are.
fn is_none_or_full(byte: u8) -> bool
    ensures { IsTrue result → (byte ≡ 0) ⊎ (byte ≡ 255) }
{
    byte == 0 || byte == 255
}

/// Whether the flags of the four nodes of a byte, and all in the bytes of those below them, are set, or none is.
fn are_four_alike(page: &[u8], byte: u8) -> bool
    requires whole { IsBlock page.now }
    requires byte { byte < 16 }
    ensures { IsTrue result → (n : ℕ) → 4 * byte ≤ n → n < 4 * byte + 4 → IsAgreed page.now n }
{
    let flags = page[FLAGS + usize::from(byte)];
    let below = FLAGS + 2 * usize::from(byte);
    if !is_none_or_full(flags) || page[below] != flags || page[below + 1] != flags {
        return false;
    }
    page[below + 2] == flags
}

/// Whether the flags below each of four nodes agree with its own.
fn are_four_agreed(page: &[u8], byte: u8) -> bool
    requires whole { IsBlock page.now }
    requires byte { byte < 16 }
    ensures { IsTrue result ↔ ((n : ℕ) → 4 * byte ≤ n → n < 4 * byte + 4 → n < 63 → IsAgreed page.now n) }
{
    if are_four_alike(page, byte) {
        return true;
    }
    for node in 4 * byte..(4 * byte + 4).min(63) {
        if !is_agreed(page, node) {
            return false;
        }
    }
    true
}

/// Whether the flags of each node agree with its parent's flag for it.
pub(crate) fn are_flags(page: &[u8]) -> bool
    requires whole { IsBlock page.now }
    ensures { IsTrue result ↔ AreFlags page.now }
{
    if are_all_set(page) {
        return true;
    }
    if !is_stored(page, 0) || is_set(page, 254) || is_set(page, 255) {
        return false;
    }
    for byte in 0..16 {
        if !are_four_agreed(page, byte) {
            return false;
        }
    }
    true
}

/// Whether none of eight differences is above 2 * 10^18 in size.
fn are_eight_small(page: &[u8], first: usize) -> bool
    requires whole { IsBlock page.now }
    requires first { first ≤ 246 }
    ensures { IsTrue result ↔ AreEightSmall page.now first }
{
    let mut greatest = 0;
    for k in 0..8 {
        greatest = greatest.max(difference_at(page, DIFFERENCES + 8 * (first + k)).unsigned_abs());
    }
    greatest <= GREATEST_DIFFERENCE
}

/// Whether a node has two flags or no difference.
#[tactic(auto, unfolding(crate::specs::Fields::coef_at))]
fn is_full_or_flat(page: &[u8], node: u8) -> bool
    requires whole { IsBlock page.now }
    requires node { node < 127 }
    ensures { IsTrue result ↔ IsFullOrFlat page.now node }
{
    let at = DIFFERENCES + 16 * usize::from(node);
    let is_full = is_set(page, 2 * node) && is_set(page, 2 * node + 1);
    is_full || difference_at(page, at) == 0 && difference_at(page, at + 8) == 0
}

/// Whether each node of those whose flags stand in one byte has two flags or no difference.
fn are_four_full_or_flat(page: &[u8], byte: u8) -> bool
    requires whole { IsBlock page.now }
    requires byte { byte < 32 }
    ensures { IsTrue result ↔ ((n : ℕ) → 4 * byte ≤ n → n < 4 * byte + 4 → n < 127 → IsFullOrFlat page.now n) }
{
    for node in 4 * byte..(4 * byte + 4).min(127) {
        if !is_full_or_flat(page, node) {
            return false;
        }
    }
    true
}

/// Whether the eight differences of a byte's four nodes are 0. Behind the last node stand the first children.
fn are_eight_zero(page: &[u8], byte: u8) -> bool
    requires whole { IsBlock page.now }
    requires byte { byte < 32 }
    ensures { IsTrue result → (place : ℕ) → 8 * byte ≤ place → place < 8 * byte + 8 → signed_at page.now (40 + 8 * place) ≡ pos 0 }
{
    let first = 8 * usize::from(byte);
    for k in 0..8 {
        if difference_at(page, DIFFERENCES + 8 * (first + k)) != 0 {
            return false;
        }
    }
    true
}

/// Whether the differences of the four nodes of a byte are in range. Where all flags are set, or none is and no difference
/// is there, the nodes aren't looked at one by one. With those of the last byte the two differences before them are looked at.
fn are_four_in_range(page: &[u8], byte: u8) -> bool
    requires whole { IsBlock page.now }
    requires byte { byte < 32 }
    ensures range { IsTrue result → AreFourInRange page.now byte }
    ensures all { AreDifferences page.now → IsTrue result }
{
    let flags = page[FLAGS + usize::from(byte)];
    if flags == 0 && are_eight_zero(page, byte) {
        return true;
    }
    let first = 8 * usize::from(byte);
    if !are_eight_small(page, first.min(246)) {
        return false;
    }
    flags == 255 || are_four_full_or_flat(page, byte)
}

/// The difference at an offset with 2^56 more, mod 2^64: below 2^57 just where it is from -2^56 on and below 2^56.
fn raised_at(page: &[u8], offset: usize) -> u64
    requires whole { IsBlock page.now }
    requires within { offset + 8 ≤ block_size }
    ensures { result < 2 ^ 57 → IsTime (signed_at page.now offset) }
{
    difference_at(page, offset)
        .cast_unsigned()
        .wrapping_add(1 << 56)
}

/// Whether all differences are from -2^56 on and below 2^56. In most pages they are.
fn are_all_narrow(page: &[u8]) -> bool
    requires whole { IsBlock page.now }
    ensures { IsTrue result → (place : ℕ) → place < 254 → IsTime (signed_at page.now (40 + 8 * place)) }
{
    let mut all = 0;
    for place in 0..254 {
        all |= raised_at(page, DIFFERENCES + 8 * place);
    }
    all < 1 << 57
}

/// Whether all flags of the nodes are set, and no difference is large.
fn are_plain(page: &[u8]) -> bool
    requires whole { IsBlock page.now }
    ensures { IsTrue result → AreDifferences page.now }
{
    are_all_set(page) && are_all_narrow(page)
}

/// Whether the differences of all nodes are in range.
pub(crate) fn are_differences(page: &[u8]) -> bool
    requires whole { IsBlock page.now }
    ensures { IsTrue result ↔ AreDifferences page.now }
{
    if are_plain(page) {
        return true;
    }
    for byte in 0..32 {
        if !are_four_in_range(page, byte) {
            return false;
        }
    }
    true
}

/// Whether the range of a child has a stored value: by its flag, which its parent node has.
#[tactic(auto, using(crate::proofs::Differences::flag_of_child))]
fn has_child(page: &[u8], child: u8) -> bool
    requires whole { IsBlock page.now }
    requires child { child < 128 }
    ensures { result ≡ has_child page.now child }
{
    is_set(page, 126 + child)
}

/// Whether a child of a page above level 1 is there exactly where it has to be.
fn is_child(page: &[u8], child: u8) -> bool
    requires whole { IsBlock page.now }
    requires child { child < 128 }
    requires above { 1 < level_at page.now }
    ensures { IsTrue result ↔ IsChild page.now child }
{
    (child_of(page, child) != 0) == has_child(page, child)
}

/// Whether all flags in the bytes of those above eight children, and the children's numbers, are 0.
fn are_eight_blank(page: &[u8], group: u8) -> bool
    requires whole { IsBlock page.now }
    requires group { group < 16 }
    ensures { IsTrue result → (c : ℕ) → 8 * group ≤ c → c < 8 * group + 8 → IsChild page.now c }
{
    let flags = FLAGS + 15 + usize::from(group);
    let at = CHILDREN + 32 * usize::from(group);
    if page[flags] != 0 || page[flags + 1] != 0 {
        return false;
    }
    are_zero(&page[at..at + 32])
}

/// Whether eight children of a page above level 1 are there exactly where they have to be.
fn are_eight_children(page: &[u8], group: u8) -> bool
    requires whole { IsBlock page.now }
    requires group { group < 16 }
    requires above { 1 < level_at page.now }
    ensures { IsTrue result ↔ ((c : ℕ) → 8 * group ≤ c → c < 8 * group + 8 → IsChild page.now c) }
{
    if are_eight_blank(page, group) {
        return true;
    }
    for child in 8 * group..8 * group + 8 {
        if !is_child(page, child) {
            return false;
        }
    }
    true
}

/// Whether all children are there exactly where they have to be: none on page level 1.
#[tactic(auto, unfolding(crate::specs::Fields::level_at))]
pub(crate) fn are_children(page: &[u8]) -> bool
    requires whole { IsBlock page.now }
    requires level { IsLevel page.now }
    ensures { IsTrue result ↔ AreChildren page.now }
{
    if page[1] == 1 {
        return are_zero(&page[CHILDREN..END]);
    }
    for group in 0..16 {
        if !are_eight_children(page, group) {
            return false;
        }
    }
    true
}
