//! The streams that stand beside the pages of a service.
ghost use Rattle.chart_service.specs.Shown as shown;

use crate::service::Service;
use block_disk::{Failed, Streams};
use gate_pages::PageWorld;

impl<P: PageWorld> Streams for Service<P> {
    ghost left = { λ service. P.left (shown.pages service) };

    ghost sent = { λ service. P.sent (shown.pages service) };

    ghost read_faults = { λ service. P.read_faults (shown.pages service) };

    ghost send_faults = { λ service. P.send_faults (shown.pages service) };

    ghost pieces = { λ service. P.pieces (shown.pages service) };

    /// What the store has beside its pages stays, and so do the sessions.
    ghost takes = { λ old new. shown.Keeps (P.takes (shown.pages old) (shown.pages new)) old new };

    ghost sends = { λ count old new. shown.Keeps (P.sends count (shown.pages old) (shown.pages new)) old new };

    fn take(&mut self, buf: &mut [u8]) -> Result<usize, Failed> {
        self.store.take(buf)
    }

    fn send(&mut self, piece: &[u8]) -> Result<(), Failed> {
        self.store.send(piece)
    }

    ghost takes_none = { λ at. shown.keeps_none at (P.takes_none (shown.pages at)) };

    ghost takes_then = { λ old between new. shown.keeps_then old between new
        (P.takes_then (shown.pages old) (shown.pages between) (shown.pages new)) };

    ghost sends_none = { λ at. shown.keeps_none at (P.sends_none (shown.pages at)) };

    ghost sends_more = { λ count more old new within. shown.keeps_so old new
        (P.sends_more count more (shown.pages old) (shown.pages new) within) };

    ghost sends_then = { λ first second old between new. shown.keeps_then old between new
        (P.sends_then first second (shown.pages old) (shown.pages between) (shown.pages new)) };
}
