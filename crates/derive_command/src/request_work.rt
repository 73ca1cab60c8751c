//! The work of `derive`: each line is a request.
ghost use Rattle.std.specs.Prelude.{◌≢◌, ◌^◌, ⊤};
ghost use Rattle.run_ends.specs.Faults.{end_fault};
ghost use Rattle.run_ends.specs.declared.ending.End.TheVariants.{InputTooLong};
ghost use Rattle.series_store.specs.Shown as shown;
ghost use Rattle.store_commands.specs.Sides.{side_of};
ghost use Rattle.derive_command.specs.Doing.{Goes, IsCause};
ghost use Rattle.derive_command.specs.WorkLaws.{besides, cause_later, goes_further, goes_nowhere, goes_takes, no_less, same_series};
ghost use Rattle.derive_command.specs.WorkLaws.{same_total, stands_kept};
ghost use Rattle.derive_command.specs.Working.{Known, LineDoes, LineStopsSo, StandsSo};

use crate::answering::answer_line;
use gate_pages::PageWorld;
use line_runs::LineWork;
use run_ends::End;
use series_store::Store;
use std::alloc::Global;

/// Sends the picture that each line asks for.
#[derive(Drop)]
pub(crate) struct RequestWork {
    pub(crate) alloc: Global,
}

impl<P: PageWorld> LineWork<Store<P>, End> for RequestWork {
    ghost State = { Known };

    ghost view = { λ store. shown.view store };

    ghost limit = { 2 ^ 32 };

    ghost fit = { λ work store at. shown.IsSound store };

    ghost stands = { λ known work store. StandsSo (shown.IsTold store) (shown.image store) (shown.catalog store) known };

    // what a crash leaves is said by `goes`, whatever the pages are
    ghost lasting = { λ known. ⊥ };

    ghost rests = { λ known image. ⊤ };

    ghost does = { LineDoes };

    ghost stops = { λ known it end work store before. LineStopsSo known it (side_of P.Streams store) before
        (P.sent (shown.pages store)) end };

    ghost leaves = { λ known it from image sent. ⊤ };

    ghost goes = { λ old new. Goes (side_of P.Streams old) (side_of P.Streams new) };

    ghost cause = { λ end old new. IsCause end (side_of P.Streams old) (side_of P.Streams new) × (end ≢ InputTooLong) };

    ghost harms = { λ end. ⊥ };

    ghost fault = { end_fault };

    fn line(&mut self, from: &mut Store<P>, at: u64, line: &[u8]) -> Result<(), End> {
        answer_line(self.alloc, from, at as u32, line)
    }

    fn long_line(&mut self, from: &mut Store<P>, at: u64) -> Result<(), End> {
        Err(End::BadInput { at })
    }

    fn pause(&mut self, from: &mut Store<P>) -> Result<(), End> {
        Ok(())
    }

    fn finish(&mut self, from: &mut Store<P>) -> Result<(), End> {
        Ok(())
    }

    ghost fit_later = { λ work at first later less sound. sound };

    ghost fit_taken = { λ work old new at takes. (P.take_keeps (shown.pages old) (shown.pages new) takes.pages_are).fit };

    ghost stands_taken = { λ known work old new takes sent stands. stands_kept (shown.view old) (shown.view new) (shown.catalog old)
        (shown.catalog new) known (same_series takes.catalog) (P.take_told (shown.pages old) (shown.pages new) takes.pages_are)
        (P.take_keeps (shown.pages old) (shown.pages new) takes.pages_are) stands };

    ghost lasting_on = { λ known it text behind did lasting. lasting };

    ghost take_keeps = { λ old new takes. P.take_keeps (shown.pages old) (shown.pages new) takes.pages_are };

    ghost take_passes = { λ old new takes. P.take_passes (shown.pages old) (shown.pages new) takes.pages_are };

    ghost take_goes = { λ old new takes sent reads sends pieces. goes_takes _ _
        (P.take_keeps (shown.pages old) (shown.pages new) takes.pages_are)
        (P.take_passes (shown.pages old) (shown.pages new) takes.pages_are)
        (P.take_told (shown.pages old) (shown.pages new) takes.pages_are)
        (P.take_was_told (shown.pages old) (shown.pages new) takes.pages_are)
        (P.take_goes_on (shown.pages old) (shown.pages new) takes.pages_are) (same_total takes.superblock) reads (no_less sends) };

    ghost now_rests = { λ known work from at fit stands lasting image left. tt };

    ghost goes_none = { λ at. goes_nowhere _ };

    ghost goes_then = { λ old between new. goes_further _ _ _ };

    ghost cause_later = { λ end old between new quiet goes cause. (
      cause_later _ _ _ (besides (P.beside_read_faults (shown.pages old)) (P.beside_send_faults (shown.pages old)))
          (besides (P.beside_read_faults (shown.pages between)) (P.beside_send_faults (shown.pages between))) quiet end goes cause.0,
      cause.1,
    ) };

    ghost counts_sent = { λ at. P.counts_sent (shown.pages at) };

    ghost beside_read_faults = { λ at. P.beside_read_faults (shown.pages at) };

    ghost beside_send_faults = { λ at. P.beside_send_faults (shown.pages at) };
}
