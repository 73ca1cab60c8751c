//! The streams that stand beside the pages of a store.
ghost use Rattle.series_store.specs.Shown as shown;

use crate::store::Store;
use block_disk::{Failed, Streams};
use gate_pages::PageWorld;

impl<P: PageWorld> Streams for Store<P> {
    ghost left = { λ store. P.left (shown.pages store) };

    ghost sent = { λ store. P.sent (shown.pages store) };

    ghost read_faults = { λ store. P.read_faults (shown.pages store) };

    ghost send_faults = { λ store. P.send_faults (shown.pages store) };

    ghost pieces = { λ store. P.pieces (shown.pages store) };

    /// The numbers, the catalog and the selection stay.
    ghost takes = { λ old new. shown.Keeps (P.takes (shown.pages old) (shown.pages new)) old new };

    ghost sends = { λ count old new. shown.Keeps (P.sends count (shown.pages old) (shown.pages new)) old new };

    fn take(&mut self, buf: &mut [u8]) -> Result<usize, Failed> {
        self.space.take(buf)
    }

    fn send(&mut self, piece: &[u8]) -> Result<(), Failed> {
        self.space.send(piece)
    }

    ghost takes_none = { λ at. shown.keeps_none at (P.takes_none (shown.pages at)) };

    ghost takes_then = { λ old between new. shown.keeps_then old between new
        (P.takes_then (shown.pages old) (shown.pages between) (shown.pages new)) };

    ghost sends_none = { λ at. shown.keeps_none at (P.sends_none (shown.pages at)) };

    ghost sends_more = { λ count more old new within. shown.keeps_so old new
        (P.sends_more count more (shown.pages old) (shown.pages new) within) };

    ghost sends_then = { λ first second old between new. shown.keeps_then old between new
        (P.sends_then first second (shown.pages old) (shown.pages between) (shown.pages new)) };
}
