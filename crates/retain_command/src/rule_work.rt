//! The work of `retain`: each line is a rule.
ghost use Rattle.std.specs.Prelude.{◌≡◌, ◌≢◌, ◌^◌, true};
ghost use Rattle.run_ends.specs.Faults.{end_fault};
ghost use Rattle.run_ends.specs.declared.ending.End.TheVariants.{InputTooLong};
ghost use Rattle.series_store.specs.Shown as shown;
ghost use Rattle.stored_book.specs.Standing.{StandsForBook};
ghost use Rattle.store_commands.specs.Sides.{side_of};
ghost use Rattle.retain_command.specs.Doing.{Goes, IsCause};
ghost use Rattle.retain_command.specs.Shown.{IsBadOn};
ghost use Rattle.retain_command.specs.Working.{GivenFails, Harms, Held, IsHeldIfKnown, LineDoes, LineLeaves, LineStopped};
ghost use Rattle.retain_command.specs.WorkLaws.{besides, cause_later, known_on, goes_further, goes_nowhere, goes_streams, no_less};
ghost use Rattle.retain_command.specs.WorkLaws.{now_stands, same_total, stands_kept};

use crate::answering::answer_line;
use gate_pages::PageWorld;
use line_runs::LineWork;
use run_ends::End;
use series_store::Store;
use std::alloc::Global;

/// Sweeps the rule of each line and answers it.
#[derive(Drop)]
pub(crate) struct RuleWork {
    pub(crate) alloc: Global,
}

impl<P: PageWorld> LineWork<Store<P>, End> for RuleWork {
    ghost State = { Held };

    ghost view = { λ store. shown.view store };

    ghost limit = { 2 ^ 32 };

    ghost fit = { λ work store at. shown.IsSound store };

    ghost stands = { λ held work store. IsHeldIfKnown (shown.IsTold store) (shown.view store) held };

    ghost lasting = { λ held. held.known ≡ true };

    ghost rests = { λ held image. StandsForBook image held.total held.book };

    ghost does = { LineDoes };

    ghost stops = { λ held it end work store before. (held.known ≡ true
        → LineStopped held it (shown.view store) before (P.sent (shown.pages store)) end)
        × GivenFails it (IsBadOn store) (shown.catalog store) before (P.sent (shown.pages store)) end };

    ghost leaves = { LineLeaves };

    ghost goes = { λ old new. Goes (side_of P.Streams old) (side_of P.Streams new) };

    ghost cause = { λ end old new. IsCause end (side_of P.Streams old) (side_of P.Streams new) × (end ≢ InputTooLong) };

    ghost harms = { Harms };

    ghost fault = { end_fault };

    fn line(&mut self, from: &mut Store<P>, at: u64, line: &[u8]) -> Result<(), End> {
        answer_line(self.alloc, from, at as u32, line)
    }

    fn long_line(&mut self, from: &mut Store<P>, at: u64) -> Result<(), End> {
        Err(End::BadInput { at })
    }

    fn pause(&mut self, from: &mut Store<P>) -> Result<(), End> {
        Ok(())
    }

    fn finish(&mut self, from: &mut Store<P>) -> Result<(), End> {
        Ok(())
    }

    ghost fit_later = { λ work at first later less sound. sound };

    ghost fit_taken = { λ work old new at takes. (P.take_keeps (shown.pages old) (shown.pages new) takes.pages_are).fit };

    ghost stands_taken = { λ held work old new takes sent stands. stands_kept (shown.IsTold old) (shown.IsTold new) held (shown.view old)
        (shown.view new) (P.take_told (shown.pages old) (shown.pages new) takes.pages_are)
        (P.take_keeps (shown.pages old) (shown.pages new) takes.pages_are) stands };

    ghost lasting_on = { λ held it text behind did known. known_on held it text behind did known };

    ghost take_keeps = { λ old new takes. P.take_keeps (shown.pages old) (shown.pages new) takes.pages_are };

    ghost take_passes = { λ old new takes. P.take_passes (shown.pages old) (shown.pages new) takes.pages_are };

    ghost take_goes = { λ old new takes sent reads sends pieces. goes_streams _ _
        (P.take_keeps (shown.pages old) (shown.pages new) takes.pages_are) (P.take_told (shown.pages old) (shown.pages new) takes.pages_are)
        (P.take_was_told (shown.pages old) (shown.pages new) takes.pages_are)
        (P.take_goes_on (shown.pages old) (shown.pages new) takes.pages_are) (same_total takes.superblock) reads (no_less sends) };

    ghost now_rests = { λ held work from at fit stands known. now_stands held (shown.view from) (P.rests (shown.pages from) fit)
        (stands known).1 };

    ghost goes_none = { λ at. goes_nowhere _ };

    ghost goes_then = { λ old between new. goes_further _ _ _ };

    ghost cause_later = { λ end old between new quiet goes cause. (
      cause_later _ _ _ (besides (P.beside_read_faults (shown.pages old)) (P.beside_send_faults (shown.pages old)))
          (besides (P.beside_read_faults (shown.pages between)) (P.beside_send_faults (shown.pages between))) quiet end goes cause.0,
      cause.1,
    ) };

    ghost counts_sent = { λ at. P.counts_sent (shown.pages at) };

    ghost beside_read_faults = { λ at. P.beside_read_faults (shown.pages at) };

    ghost beside_send_faults = { λ at. P.beside_send_faults (shown.pages at) };
}
