//! The fields of a page, set.
ghost use Rattle.std.specs.Prelude.{◌≡◌, ◌≢◌, ◌≤◌, ◌<◌, ◌+◌, ◌*◌, ◌⊎◌, ◌==◌, ℕ, slice_index};
ghost use Rattle.std.specs.Int.{bit_at};
ghost use Rattle.block_disk.specs.Blocks.{block_size, IsBlock};
ghost use Rattle.node_page.specs.Fields.{signed_at, flag_at, level_at, coef_at, child_at};
ghost use Rattle.node_page.specs.Layout.{IsKind};

use crate::byte_fields::put;
use crate::layout::{CHILDREN, DIFFERENCES, FLAGS, KIND};
use om3_coeff::Coef;

/// Makes a page of 4,096 bytes a tree page of this page level. All other bytes stay.
#[tactic(auto, unfolding(crate::specs::Fields::level_at))]
pub fn set_level(bytes: &mut [u8], level: u8)
    requires whole { IsBlock bytes.old }
    ensures whole { IsBlock bytes.new }
    ensures kind { IsKind bytes.new }
    ensures level { level_at bytes.new ≡ level }
    ensures coefs { (n : ℕ) → n < 127 → coef_at bytes.new n ≡ coef_at bytes.old n }
    ensures children { (c : ℕ) → c < 128 → child_at bytes.new c ≡ child_at bytes.old c }
    ensures rest { (k : ℕ) → 2 ≤ k → slice_index bytes.new k ≡ slice_index bytes.old k }
{
    bytes[0] = KIND;
    bytes[1] = level;
}

/// A byte with a bit set or cleared.
fn with_bit(byte: u8, bit: u8, on: bool) -> u8
    requires { bit < 8 }
    ensures bit { (bit_at result bit == 1) ≡ on }
    ensures others { (i : ℕ) → i < 8 → i ≢ bit → bit_at result i ≡ bit_at byte i }
{
    let mask = 1 << bit;
    if on {
        return byte | mask;
    }
    byte & !mask
}

/// Sets a flag.
fn set_flag(bytes: &mut [u8], flag: u8, on: bool)
    requires whole { IsBlock bytes.old }
    ensures whole { IsBlock bytes.new }
    ensures flag { flag_at bytes.new flag ≡ on }
    ensures others { (b : ℕ) → b < 256 → b ≢ flag → flag_at bytes.new b ≡ flag_at bytes.old b }
    ensures rest { (k : ℕ) → (k < 8) ⊎ (40 ≤ k) → slice_index bytes.new k ≡ slice_index bytes.old k }
{
    let at = FLAGS + usize::from(flag / 8);
    bytes[at] = with_bit(bytes[at], flag % 8, on);
}

/// Sets the signed number at an offset.
fn set_difference(bytes: &mut [u8], offset: usize, difference: i64)
    requires whole { IsBlock bytes.old }
    requires within { offset + 8 ≤ block_size }
    ensures whole { IsBlock bytes.new }
    ensures set { signed_at bytes.new offset ≡ difference }
    ensures rest { (k : ℕ) → (k < offset) ⊎ (offset + 8 ≤ k) → slice_index bytes.new k ≡ slice_index bytes.old k }
{
    put(bytes, offset, &difference.cast_unsigned().to_be_bytes());
}

/// Sets the coefficient of a node, 0 to 126, in a page of 4,096 bytes. Nothing else changes.
pub fn set_coef(bytes: &mut [u8], node: u8, coef: Coef)
    requires whole { IsBlock bytes.old }
    requires node { node < 127 }
    ensures whole { IsBlock bytes.new }
    ensures coef { coef_at bytes.new node ≡ coef }
    ensures others { (n : ℕ) → n < 127 → n ≢ node → coef_at bytes.new n ≡ coef_at bytes.old n }
    ensures children { (c : ℕ) → c < 128 → child_at bytes.new c ≡ child_at bytes.old c }
    ensures spare { (b : ℕ) → 254 ≤ b → b < 256 → flag_at bytes.new b ≡ flag_at bytes.old b }
    ensures rest { (k : ℕ) → (k < 8) ⊎ (2072 ≤ k) → slice_index bytes.new k ≡ slice_index bytes.old k }
{
    let at = DIFFERENCES + 16 * usize::from(node);
    set_flag(bytes, 2 * node, coef.left);
    set_flag(bytes, 2 * node + 1, coef.right);
    set_difference(bytes, at, coef.dmin);
    set_difference(bytes, at + 8, coef.dmax);
}

/// Sets the page of a child, 0 to 127, in a page of 4,096 bytes. All bytes but its four stay.
pub fn set_child(bytes: &mut [u8], child: u8, page: u32)
    requires whole { IsBlock bytes.old }
    requires child { child < 128 }
    ensures whole { IsBlock bytes.new }
    ensures child { child_at bytes.new child ≡ page }
    ensures others { (c : ℕ) → c ≢ child → child_at bytes.new c ≡ child_at bytes.old c }
    ensures coefs { (n : ℕ) → n < 127 → coef_at bytes.new n ≡ coef_at bytes.old n }
    ensures rest { (k : ℕ) → (k < 2072 + 4 * child) ⊎ (2076 + 4 * child ≤ k) → slice_index bytes.new k ≡ slice_index bytes.old k }
{
    put(
        bytes,
        CHILDREN + 4 * usize::from(child),
        &page.to_be_bytes(),
    );
}
