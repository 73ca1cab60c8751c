//! The streams that stand beside the pages of a space.
ghost use Rattle.page_space.specs.Shown as shown;

use crate::space::Space;
use block_disk::{Failed, Streams};
use gate_pages::PageWorld;

impl<P: PageWorld> Streams for Space<P> {
    ghost left = { λ space. P.left space.pages };

    ghost sent = { λ space. P.sent space.pages };

    ghost read_faults = { λ space. P.read_faults space.pages };

    ghost send_faults = { λ space. P.send_faults space.pages };

    ghost pieces = { λ space. P.pieces space.pages };

    /// The numbers of page 0 and the cache stay.
    ghost takes = { λ old new. shown.Keeps (P.takes old.pages new.pages) old new };

    ghost sends = { λ count old new. shown.Keeps (P.sends count old.pages new.pages) old new };

    fn take(&mut self, buf: &mut [u8]) -> Result<usize, Failed> {
        self.pages.take(buf)
    }

    fn send(&mut self, piece: &[u8]) -> Result<(), Failed> {
        self.pages.send(piece)
    }

    ghost takes_none = { λ at. shown.keeps_none at (P.takes_none at.pages) };

    ghost takes_then = { λ old between new. shown.keeps_then old between new (P.takes_then old.pages between.pages new.pages) };

    ghost sends_none = { λ at. shown.keeps_none at (P.sends_none at.pages) };

    ghost sends_more = { λ count more old new within. shown.keeps_so old new (P.sends_more count more old.pages new.pages within) };

    ghost sends_then = { λ first second old between new. shown.keeps_then old between new
        (P.sends_then first second old.pages between.pages new.pages) };
}
