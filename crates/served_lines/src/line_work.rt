//! The work of a service on the lines of its streams.
ghost use Rattle.std.specs.Prelude.{◌^◌};
ghost use Rattle.chart_service.specs.Faulting.{answer_fault};
ghost use Rattle.chart_service.specs.Shown as shown;
ghost use Rattle.served_lines.specs.Going.{Goes, Harms, IsCause, side_of};
ghost use Rattle.served_lines.specs.Shown.{FitIn, StandsIn, StopsIn};
ghost use Rattle.served_lines.specs.Turning.{Does, Lasting, Leaves, Rests, Stand};
ghost use Rattle.served_lines.specs.WorkLaws.{besides, cause_later, fit_kept, goes_further, goes_nowhere, goes_streams, lasts_on, no_less};
ghost use Rattle.served_lines.specs.WorkLaws.{now_rests, same_total, stands_kept};

use crate::keeping::{answer_other, keep, refuse_long};
use crate::settling::settle;
use crate::turns::Turns;
use chart_service::{AnswerEnd, Reply, ServeEnd, Service, edit_in};
use gate_pages::PageWorld;
use line_runs::LineWork;
use series_book::Edit;

impl<P: PageWorld, S, F, R: Reply<S, F>> LineWork<Service<P>, AnswerEnd<F>>
    for Turns<'_, R, S, Vec<Edit>> {
    ghost State = { Stand S };

    ghost view = { λ service. shown.view service };

    ghost limit = { 2 ^ 32 };

    ghost fit = { λ turns service at. FitIn turns service };

    ghost stands = { λ stand turns service. StandsIn P.sent stand turns service };

    ghost lasting = { λ stand. Lasting stand };

    ghost rests = { λ stand image. Rests stand image };

    ghost does = { Does R.makes };

    ghost stops = { λ stand it end turns service before. StopsIn P.sent R.makes stand it end turns service before };

    ghost leaves = { Leaves R.makes };

    ghost goes = { λ old new. Goes (side_of P.Streams old) (side_of P.Streams new) };

    ghost cause = { λ end old new. IsCause end (side_of P.Streams old) (side_of P.Streams new) };

    ghost harms = { Harms };

    ghost fault = { answer_fault };

    fn line(&mut self, from: &mut Service<P>, at: u64, line: &[u8]) -> Result<(), AnswerEnd<F>> {
        if line.is_empty() {
            return Ok(());
        }
        match edit_in(self.alloc, line) {
            Ok(Some(edit)) => keep(self, from, edit),
            Ok(None) => answer_other(self, from, line),
            Err(_) => Err(AnswerEnd::Serve(ServeEnd::NoMemory)),
        }
    }

    fn long_line(&mut self, from: &mut Service<P>, at: u64) -> Result<(), AnswerEnd<F>> {
        refuse_long(self, from)
    }

    fn pause(&mut self, from: &mut Service<P>) -> Result<(), AnswerEnd<F>> {
        settle(self, from)
    }

    fn finish(&mut self, from: &mut Service<P>) -> Result<(), AnswerEnd<F>> {
        Ok(())
    }

    ghost fit_later = { λ work at first later less fit. fit };

    ghost fit_taken = { λ work old new at takes fit. fit_kept (shown.view old) (shown.view new) work.edits.items
        (P.take_keeps (shown.pages old) (shown.pages new) takes.store_is.pages_are) fit };

    ghost stands_taken = { λ stand work old new takes sent stands. stands_kept stand work.kept.ghost_name work.kept.now work.edits.items
        (shown.IsTold old) (shown.IsTold new) (shown.view old) (shown.view new) (shown.sessions old) (shown.sessions new)
        (P.sent (shown.pages old)) (P.sent (shown.pages new)) (P.take_told (shown.pages old) (shown.pages new) takes.store_is.pages_are)
        (P.take_keeps (shown.pages old) (shown.pages new) takes.store_is.pages_are) takes.sessions sent stands };

    ghost lasting_on = { λ stand it text behind did lasting. lasts_on R.makes stand it text behind did lasting };

    ghost take_keeps = { λ old new takes. P.take_keeps (shown.pages old) (shown.pages new) takes.store_is.pages_are };

    ghost take_passes = { λ old new takes. P.take_passes (shown.pages old) (shown.pages new) takes.store_is.pages_are };

    ghost take_goes = { λ old new takes sent reads sends pieces. goes_streams _ _
        (P.take_keeps (shown.pages old) (shown.pages new) takes.store_is.pages_are)
        (P.take_told (shown.pages old) (shown.pages new) takes.store_is.pages_are)
        (P.take_was_told (shown.pages old) (shown.pages new) takes.store_is.pages_are)
        (P.take_goes_on (shown.pages old) (shown.pages new) takes.store_is.pages_are) (same_total takes.store_is.superblock) reads
        (no_less sends) };

    ghost now_rests = { λ stand work from at fit stands lasting. now_rests stand work.kept.ghost_name work.kept.now work.edits.items
        (shown.IsTold from) (shown.view from) (shown.sessions from) (P.sent (shown.pages from))
        (P.rests (shown.pages from) fit.sound) stands };

    ghost goes_none = { λ at. goes_nowhere _ };

    ghost goes_then = { λ old between new. goes_further _ _ _ };

    ghost cause_later = { λ end old between new quiet goes. cause_later _ _ _
        (besides (P.beside_read_faults (shown.pages old)) (P.beside_send_faults (shown.pages old)))
        (besides (P.beside_read_faults (shown.pages between)) (P.beside_send_faults (shown.pages between))) quiet end };

    ghost counts_sent = { λ at. P.counts_sent (shown.pages at) };

    ghost beside_read_faults = { λ at. P.beside_read_faults (shown.pages at) };

    ghost beside_send_faults = { λ at. P.beside_send_faults (shown.pages at) };
}
