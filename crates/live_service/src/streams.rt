//! The streams that stand beside the pages of a service.
ghost use Rattle.chart_service.specs.Shown as shown;

use crate::stepper::ServiceStepper;
use block_disk::{Failed, Streams};
use gate_pages::PageWorld;

impl<P: PageWorld> Streams for ServiceStepper<P> {
    ghost left = { λ it. P.left (shown.pages it.service) };

    ghost sent = { λ it. P.sent (shown.pages it.service) };

    ghost read_faults = { λ it. P.read_faults (shown.pages it.service) };

    ghost send_faults = { λ it. P.send_faults (shown.pages it.service) };

    ghost pieces = { λ it. P.pieces (shown.pages it.service) };

    /// What the service has beside its pages stays.
    ghost takes = { λ old new. shown.Keeps (P.takes (shown.pages old.service) (shown.pages new.service)) old.service new.service };

    ghost sends = { λ count old new. shown.Keeps (P.sends count (shown.pages old.service) (shown.pages new.service)) old.service
        new.service };

    fn take(&mut self, buf: &mut [u8]) -> Result<usize, Failed> {
        self.service.take(buf)
    }

    fn send(&mut self, piece: &[u8]) -> Result<(), Failed> {
        self.service.send(piece)
    }

    ghost takes_none = { λ at. shown.keeps_none at.service (P.takes_none (shown.pages at.service)) };

    ghost takes_then = { λ old between new. shown.keeps_then old.service between.service new.service
        (P.takes_then (shown.pages old.service) (shown.pages between.service) (shown.pages new.service)) };

    ghost sends_none = { λ at. shown.keeps_none at.service (P.sends_none (shown.pages at.service)) };

    ghost sends_more = { λ count more old new within. shown.keeps_so old.service new.service
        (P.sends_more count more (shown.pages old.service) (shown.pages new.service) within) };

    ghost sends_then = { λ first second old between new. shown.keeps_then old.service between.service new.service
        (P.sends_then first second (shown.pages old.service) (shown.pages between.service) (shown.pages new.service)) };
}
