//! A page of the chain, written and read.
ghost use Rattle.std.specs.Prelude.{◌≡◌, ◌<◌, ◌^◌, ◌↔◌, ℕ, IfSome, IfNone, IsTrue};
ghost use Rattle.block_disk.specs.Blocks.{IsBlock};
ghost use Rattle.page_space.specs.Layout.{freed_page, IsNext, Links};

use crate::fields::{all_zero, put_word, start, word_at};
use crate::layout::{FIRST, FREED, NEXT};
use crate::superblock::Superblock;

/// Makes a page a page of the chain that names this next one.
pub(crate) fn write_freed(page: &mut [u8], next: u32)
    requires { IsBlock page.old }
    ensures { page.new ≡ freed_page next }
{
    start(page, &FREED);
    put_word(page, NEXT, next);
}

/// The page that a page of the chain names, where its other bytes are as they should be.
fn named_by(page: &[u8]) -> Option<u32>
    requires { IsBlock page.now }
    ensures named { IfSome result (λ next. page.now ≡ freed_page next) }
    ensures small { IfSome result (λ next. next < 2 ^ 32) }
    ensures none { IfNone result ((next : ℕ) → page.now ≡ freed_page next → ⊥) }
{
    let Some(rest) = page.strip_prefix(&FREED) else {
        return None;
    };
    let (next, rest) = word_at(rest);
    if !all_zero(rest) {
        return None;
    }
    Some(next)
}

/// The page behind the head of the chain, 0 for none, where the head keeps its layout.
pub(crate) fn next_of(page: &[u8], superblock: &Superblock) -> Option<u32>
    requires { IsBlock page.now }
    ensures next { IfSome result (λ next. Links superblock.now next page.now) }
    ensures none { IfNone result ((next : ℕ) → Links superblock.now next page.now → ⊥) }
{
    let _fresh = superblock.fresh;
    let next = named_by(page)?;
    if !superblock.may_link(next) {
        return None;
    }
    Some(next)
}

impl Superblock {
    /// Whether the head of the chain may name this page: none exactly where the head is the last one.
    fn may_link(&self, next: u32) -> bool
        ensures { IsTrue result ↔ IsNext self.now next }
    {
        if self.chain == 1 {
            return next == 0;
        }
        next >= FIRST && next < self.fresh
    }
}
