//! The fields of a page, read.
ghost use Rattle.std.specs.Prelude.{◌≡◌, ◌≤◌, ◌<◌, ◌+◌};
ghost use Rattle.block_disk.specs.Blocks.{block_size, IsBlock};
ghost use Rattle.node_page.specs.Fields.{signed_at, flag_at, coef_at as coef_of_page, child_at as child_of_page};

use crate::layout::{CHILDREN, DIFFERENCES, FLAGS};
use byteorder::{BigEndian, ByteOrder};
use om3_coeff::Coef;

/// A flag.
#[tactic(auto, unfolding(crate::specs::Fields::flag_at))]
pub(crate) fn is_set(page: &[u8], flag: u8) -> bool
    requires whole { IsBlock page.now }
    ensures { result ≡ flag_at page.now flag }
{
    let byte = page[FLAGS + usize::from(flag / 8)];
    byte >> (flag % 8) & 1 == 1
}

/// The signed number at an offset.
#[tactic(auto, unfolding(crate::specs::Fields::signed_at))]
pub(crate) fn difference_at(page: &[u8], offset: usize) -> i64
    requires whole { IsBlock page.now }
    requires within { offset + 8 ≤ block_size }
    ensures { result ≡ signed_at page.now offset }
{
    BigEndian::read_i64(&page[offset..])
}

/// The coefficient of a node.
#[tactic(auto, unfolding(crate::specs::Fields::coef_at))]
pub(crate) fn coef_of(page: &[u8], node: u8) -> Coef
    requires whole { IsBlock page.now }
    requires node { node < 127 }
    ensures { result ≡ coef_of_page page.now node }
{
    let at = DIFFERENCES + 16 * usize::from(node);
    Coef {
        left: is_set(page, 2 * node),
        right: is_set(page, 2 * node + 1),
        dmin: difference_at(page, at),
        dmax: difference_at(page, at + 8),
    }
}

/// The page of a child, 0 to 127, in a page of 4,096 bytes, which need not keep the layout. It is 0 where
/// there is none.
#[tactic(auto, unfolding(crate::specs::Fields::child_at))]
pub fn child_of(page: &[u8], child: u8) -> u32
    requires whole { IsBlock page.now }
    requires child { child < 128 }
    ensures { result ≡ child_of_page page.now child }
{
    BigEndian::read_u32(&page[CHILDREN + 4 * usize::from(child)..])
}
