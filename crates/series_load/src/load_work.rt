//! The lines of a load, as a work.
ghost use Rattle.std.specs.Prelude.{◌≤◌, ◌≢◌, ◌^◌};
ghost use Rattle.run_ends.specs.Faults.{end_fault};
ghost use Rattle.series_load.specs.Loading.{Harms, Lasts, Loading, LoadingDoes, LoadingLeaves, LoadingStops, RestsSo, StandsFor};
ghost use Rattle.series_load.specs.LoadingLaws.{cause_later, fewer, lasts_on, now_rests, stands_taken};
ghost use Rattle.series_load.specs.Shown as loads;
ghost use Rattle.run_ends.specs.declared.ending.End.TheVariants.{InputTooLong, UnknownSeries};
ghost use Rattle.series_load.specs.SideLaws.{goes_further, goes_nowhere, goes_take, same_count, same_total};
ghost use Rattle.series_load.specs.Sides.{Goes};
ghost use Rattle.series_store.specs.Shown as shown;

use crate::loader::Loader;
use gate_pages::PageWorld;
use line_runs::LineWork;
use run_ends::End;
use series_store::Store;

impl<P: PageWorld> LineWork<Store<P>, End> for Loader {
    ghost State = { Loading };

    ghost view = { λ store. shown.view store };

    ghost limit = { 2 ^ 32 };

    ghost fit = { λ loader store at. shown.IsSound store × (loader.points ≤ at) × loads.KeepsEdits loader };

    ghost stands = { λ loading loader store. StandsFor (shown.IsTold store) (shown.view store) loader loading };

    ghost lasting = { Lasts };

    ghost rests = { RestsSo };

    ghost does = { LoadingDoes };

    ghost stops = { λ loading it end loader store before. LoadingStops loading it (shown.view store) end };

    ghost leaves = { LoadingLeaves };

    ghost goes = { λ old new. Goes (loads.side_of P.Streams old) (loads.side_of P.Streams new) };

    ghost cause = { λ end old new. loads.EndsFor P.Streams end old new × (end ≢ UnknownSeries) × (end ≢ InputTooLong) };

    ghost harms = { Harms };

    ghost fault = { end_fault };

    fn line(&mut self, from: &mut Store<P>, at: u64, line: &[u8]) -> Result<(), End> {
        self.take_line(from, at as u32, line)
    }

    fn long_line(&mut self, from: &mut Store<P>, at: u64) -> Result<(), End> {
        Err(self.stop(from, at as u32))
    }

    fn pause(&mut self, from: &mut Store<P>) -> Result<(), End> {
        self.commit(from)
    }

    fn finish(&mut self, from: &mut Store<P>) -> Result<(), End> {
        self.end(from)
    }

    ghost fit_later = { λ loader at first later less fit. (fit.0, fewer loader.points first later less fit.1, fit.2) };

    ghost fit_taken = { λ loader old new at takes fit. (
      (P.take_keeps (shown.pages old) (shown.pages new) takes.pages_are).fit fit.0,
      fit.1,
      fit.2,
    ) };

    ghost stands_taken = { λ loading loader old new takes sent. stands_taken (shown.IsTold old) (shown.IsTold new) (shown.view old)
        (shown.view new) loader loading (P.take_told (shown.pages old) (shown.pages new) takes.pages_are)
        (P.take_keeps (shown.pages old) (shown.pages new) takes.pages_are)
        (P.take_passes (shown.pages old) (shown.pages new) takes.pages_are) };

    ghost lasting_on = { λ loading it text behind did lasts. lasts_on loading it text behind did lasts };

    ghost take_keeps = { λ old new takes. P.take_keeps (shown.pages old) (shown.pages new) takes.pages_are };

    ghost take_passes = { λ old new takes. P.take_passes (shown.pages old) (shown.pages new) takes.pages_are };

    ghost take_goes = { λ old new takes sent reads sends pieces. goes_take _ _
        (P.take_keeps (shown.pages old) (shown.pages new) takes.pages_are) (P.take_told (shown.pages old) (shown.pages new) takes.pages_are)
        (P.take_was_told (shown.pages old) (shown.pages new) takes.pages_are)
        (P.take_goes_on (shown.pages old) (shown.pages new) takes.pages_are) (same_total takes.superblock)
        (same_count takes.catalog) sent reads sends pieces };

    ghost now_rests = { λ loading loader from at fit stands lasts. now_rests (shown.IsTold from) (shown.view from) loader loading
        (P.rests (shown.pages from) fit.0) stands };

    ghost goes_none = { λ at. goes_nowhere _ };

    ghost goes_then = { λ old between new. goes_further _ _ _ };

    ghost cause_later = { λ end old between new quiet goes cause. (
      cause_later _ _ _ _ _ _ _ _ _ (P.beside_read_faults (shown.pages old))
          (P.beside_read_faults (shown.pages between)) quiet goes.total_is end cause.0,
      cause.1,
      cause.2,
    ) };

    ghost counts_sent = { λ at. P.counts_sent (shown.pages at) };

    ghost beside_read_faults = { λ at. P.beside_read_faults (shown.pages at) };

    ghost beside_send_faults = { λ at. P.beside_send_faults (shown.pages at) };
}
