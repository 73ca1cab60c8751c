//! Pages on the disk of a world, with its streams beside them.
ghost use Rattle.std.proofs.Common.{◌∙◌, subst};
ghost use Rattle.std.specs.Prelude.{◌≡◌, refl, IsTrue};
ghost use Rattle.gate_pages.specs.GateLaws.{kept_pages, kept_told, kept_was_told, passes_pages, goes_by};

use crate::gate_pages::GatePages;
use crate::page_world::PageWorld;
use block_disk::{Failed, Streams, World};

impl<D: World> Streams for GatePages<D> {
    ghost left = { λ pages. D.left pages.disk };

    ghost sent = { λ pages. D.sent pages.disk };

    ghost read_faults = { λ pages. D.read_faults pages.disk };

    ghost send_faults = { λ pages. D.send_faults pages.disk };

    ghost pieces = { λ pages. D.pieces pages.disk };

    ghost takes = { λ old new. D.takes old.disk new.disk × ((new.count ≡ old.count) × (new.sound ≡ old.sound)) };

    ghost sends = { λ count old new. D.sends count old.disk new.disk × ((new.count ≡ old.count) × (new.sound ≡ old.sound)) };

    fn take(&mut self, buf: &mut [u8]) -> Result<usize, Failed> {
        self.disk.take(buf)
    }

    fn send(&mut self, piece: &[u8]) -> Result<(), Failed> {
        self.disk.send(piece)
    }

    ghost takes_none = { λ at. (D.takes_none at.disk, (refl, refl)) };

    ghost takes_then = { λ old between new first second. (
      D.takes_then old.disk between.disk new.disk first.0 second.0,
      (second.1.0 ∙ first.1.0, second.1.1 ∙ first.1.1),
    ) };

    ghost sends_none = { λ at. (D.sends_none at.disk, (refl, refl)) };

    ghost sends_more = { λ count more old new within sent. (D.sends_more count more old.disk new.disk within sent.0, sent.1) };

    ghost sends_then = { λ first second old between new one two. (
      D.sends_then first second old.disk between.disk new.disk one.0 two.0,
      (two.1.0 ∙ one.1.0, two.1.1 ∙ one.1.1),
    ) };
}

impl<D: World> PageWorld for GatePages<D> {
    ghost beside_left = { λ world. D.beside_left world.disk };

    ghost beside_sent = { λ world. D.beside_sent world.disk };

    ghost beside_read_faults = { λ world. D.beside_read_faults world.disk };

    ghost beside_send_faults = { λ world. D.beside_send_faults world.disk };

    ghost beside_pieces = { λ world. D.beside_pieces world.disk };

    ghost counts_sent = { λ world. D.counts_sent world.disk };

    ghost take_keeps = { λ old new taken. kept_pages old.count new.count old.sound new.sound (D.view old.disk)
        (D.view new.disk) taken.1.0 taken.1.1 (D.take_keeps old.disk new.disk taken.0) };

    ghost take_told = { λ old new taken told. kept_told (D.view old.disk) (D.view new.disk) (D.take_keeps old.disk new.disk taken.0) told };

    ghost take_was_told = { λ old new taken told. kept_was_told (D.view old.disk) (D.view new.disk) _
        (D.take_keeps old.disk new.disk taken.0) (D.take_passes old.disk new.disk taken.0) told };

    ghost take_was_fit = { λ old new taken fit. subst IsTrue taken.1.1 fit };

    ghost take_goes_on = { λ old new taken. goes_by (D.view old.disk) (D.view new.disk) _ _ (D.take_passes old.disk new.disk taken.0) };

    ghost take_passes = { λ old new taken. passes_pages old.count new.count old.sound new.sound (D.view old.disk)
        (D.view new.disk) _ taken.1.0 (D.take_passes old.disk new.disk taken.0) };

    ghost send_keeps = { λ most old new sent. kept_pages old.count new.count old.sound new.sound (D.view old.disk)
        (D.view new.disk) sent.1.0 sent.1.1 (D.send_keeps most old.disk new.disk sent.0) };

    ghost send_told = { λ most old new sent told. kept_told (D.view old.disk) (D.view new.disk)
        (D.send_keeps most old.disk new.disk sent.0) told };

    ghost send_was_told = { λ most old new sent told. kept_was_told (D.view old.disk) (D.view new.disk) _
        (D.send_keeps most old.disk new.disk sent.0) (D.send_passes most old.disk new.disk sent.0) told };

    ghost send_was_fit = { λ most old new sent fit. subst IsTrue sent.1.1 fit };

    ghost send_goes_on = { λ most old new sent. goes_by (D.view old.disk) (D.view new.disk) _ _
        (D.send_passes most old.disk new.disk sent.0) };

    ghost send_passes = { λ most old new sent. passes_pages old.count new.count old.sound new.sound (D.view old.disk)
        (D.view new.disk) _ sent.1.0 (D.send_passes most old.disk new.disk sent.0) };

    ghost send_counts = { λ most old new sent. D.send_counts most old.disk new.disk sent.0 };
}
