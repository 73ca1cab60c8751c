//! The streams that stand beside what answers the lines.
ghost use Rattle.live_view.specs.Live as live;

use crate::live::Live;
use crate::stepper::Stepper;
use block_disk::{Failed, Streams};

impl<S: Stepper> Streams for Live<S> {
    ghost left = { λ it. S.left it.stepper };

    ghost sent = { λ it. S.sent it.stepper };

    ghost read_faults = { λ it. S.read_faults it.stepper };

    ghost send_faults = { λ it. S.send_faults it.stepper };

    ghost pieces = { λ it. S.pieces it.stepper };

    /// The followed sessions and the pending pushes stay.
    ghost takes = { λ old new. live.Keeps (S.takes old.stepper new.stepper) old new };

    ghost sends = { λ count old new. live.Keeps (S.sends count old.stepper new.stepper) old new };

    fn take(&mut self, buf: &mut [u8]) -> Result<usize, Failed> {
        self.stepper.take(buf)
    }

    fn send(&mut self, piece: &[u8]) -> Result<(), Failed> {
        self.stepper.send(piece)
    }

    ghost takes_none = { λ at. live.keeps_none at (S.takes_none at.stepper) };

    ghost takes_then = { λ old between new. live.keeps_then old between new (S.takes_then old.stepper between.stepper new.stepper) };

    ghost sends_none = { λ at. live.keeps_none at (S.sends_none at.stepper) };

    ghost sends_more = { λ count more old new within. live.keeps_so old new (S.sends_more count more old.stepper new.stepper within) };

    ghost sends_then = { λ first second old between new. live.keeps_then old between new
        (S.sends_then first second old.stepper between.stepper new.stepper) };
}
