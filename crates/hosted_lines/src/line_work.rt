//! The work of a host on the lines of its streams.
ghost use Rattle.std.specs.Prelude.{⊤};
ghost use Rattle.chart_service.specs.Shown as shown;
ghost use Rattle.live_service.specs.Shown as its;
ghost use Rattle.live_view.specs.Live as follows;
ghost use Rattle.run_ends.specs.Faults.{end_fault};
ghost use Rattle.hosted_lines.specs.Doing.{Goes, held_by, side_of};
ghost use Rattle.hosted_lines.specs.GoesLaws.{goes_further, goes_nowhere, goes_streams};
ghost use Rattle.hosted_lines.specs.Input.{most_bytes};
ghost use Rattle.hosted_lines.specs.Shown.{pages};
ghost use Rattle.hosted_lines.specs.Standing.{DoesFrom, LastsFrom, LeavesFrom, RestsFrom, Stand, Stands, StopsFrom};
ghost use Rattle.hosted_lines.specs.WorkLaws.{besides, causes_later, fit_kept, held_kept, lasts_on, no_less, now_rests, stands_kept};
ghost use Rattle.hosted_lines.specs.Working.{CausesEnd, IsFit};

use crate::host_turns::HostTurns;
use crate::keeping::{answer_alone, refuse_long};
use crate::settling::settle;
use chart_service::edit_in;
use gate_pages::PageWorld;
use host_lines::host_line;
use line_runs::LineWork;
use live_service::ServiceStepper;
use live_view::Live;
use run_ends::End;

/// The most edits that are done together.
const MOST_EDITS: usize = 64;

impl<P: PageWorld> LineWork<Live<ServiceStepper<P>>, End> for HostTurns {
    ghost State = { Stand };

    ghost view = { λ live. its.view live };

    ghost limit = { most_bytes };

    ghost fit = { λ turns live at. IsFit (its.view live) (follows.pending live) turns.edits.items };

    ghost stands = { λ stand turns live. Stands stand turns.edits.items (shown.IsTold (its.service live)) (its.view live) (held_by live)
        (P.sent (pages live)) };

    ghost lasting = { LastsFrom };

    ghost rests = { RestsFrom };

    ghost does = { DoesFrom };

    ghost stops = { λ stand it end turns live before. StopsFrom stand it (shown.IsTold (its.service live)) (its.view live).size
        (its.view live).image before (P.sent (pages live)) (its.view live).reads (its.view live).syncs end };

    ghost leaves = { LeavesFrom };

    ghost goes = { λ old new. Goes (side_of P.Streams old) (side_of P.Streams new) };

    ghost cause = { λ end old new. CausesEnd end (side_of P.Streams old) (side_of P.Streams new) };

    /// Pushes may be pending then.
    ghost harms = { λ end. ⊤ };

    ghost fault = { end_fault };

    fn line(
        &mut self,
        from: &mut Live<ServiceStepper<P>>,
        at: u64,
        line: &[u8],
    ) -> Result<(), End> {
        if line.is_empty() {
            return Ok(());
        }
        match edit_in(self.alloc, line) {
            Ok(Some(edit)) => {
                if self.edits.push(edit).is_err() {
                    return Err(End::NoMemory);
                }
                if self.edits.len() < MOST_EDITS {
                    return Ok(());
                }
                settle(self, from)
            }
            Ok(None) => match host_line(self.alloc, line) {
                Ok(asked) => answer_alone(self, from, line, &asked),
                Err(_) => Err(End::NoMemory),
            },
            Err(_) => Err(End::NoMemory),
        }
    }

    fn long_line(&mut self, from: &mut Live<ServiceStepper<P>>, at: u64) -> Result<(), End> {
        refuse_long(self, from)
    }

    fn pause(&mut self, from: &mut Live<ServiceStepper<P>>) -> Result<(), End> {
        settle(self, from)
    }

    fn finish(&mut self, from: &mut Live<ServiceStepper<P>>) -> Result<(), End> {
        Ok(())
    }

    ghost fit_later = { λ work at first later less fit. fit };

    ghost fit_taken = { λ work old new at takes fit. fit_kept (its.view old) (its.view new) (follows.pending old)
        (follows.pending new) work.edits.items (P.take_keeps (pages old) (pages new) takes.changed.store_is.pages_are) takes.pending_same
        fit };

    ghost stands_taken = { λ stand work old new takes sent stands. stands_kept stand work.edits.items (shown.IsTold (its.service old))
        (shown.IsTold (its.service new)) (its.view old) (its.view new) (held_by old) (held_by new) (P.sent (pages old)) (P.sent (pages new))
        (P.take_told (pages old) (pages new) takes.changed.store_is.pages_are)
        (P.take_keeps (pages old) (pages new) takes.changed.store_is.pages_are)
        (held_kept takes.changed.sessions takes.followed_same takes.pending_same) sent stands };

    ghost lasting_on = { λ stand it text behind did lasting. lasts_on stand it text behind did lasting };

    ghost take_keeps = { λ old new takes. P.take_keeps (pages old) (pages new) takes.changed.store_is.pages_are };

    ghost take_passes = { λ old new takes. P.take_passes (pages old) (pages new) takes.changed.store_is.pages_are };

    ghost take_goes = { λ old new takes sent reads sends pieces. goes_streams _ _
        (P.take_keeps (pages old) (pages new) takes.changed.store_is.pages_are)
        (P.take_told (pages old) (pages new) takes.changed.store_is.pages_are)
        (P.take_was_told (pages old) (pages new) takes.changed.store_is.pages_are)
        (P.take_goes_on (pages old) (pages new) takes.changed.store_is.pages_are) reads (no_less sends) };

    ghost now_rests = { λ stand work from at fit stands lasting. now_rests stand work.edits.items (shown.IsTold (its.service from))
        (its.view from) (held_by from) (P.sent (pages from)) (P.rests (pages from) fit.sound) stands };

    ghost goes_none = { λ at. goes_nowhere _ };

    ghost goes_then = { λ old between new. goes_further _ _ _ };

    ghost cause_later = { λ end old between new quiet goes. causes_later _ _ _
        (besides (P.beside_read_faults (pages old)) (P.beside_send_faults (pages old)))
        (besides (P.beside_read_faults (pages between)) (P.beside_send_faults (pages between))) quiet end goes };

    ghost counts_sent = { λ at. P.counts_sent (pages at) };

    ghost beside_read_faults = { λ at. P.beside_read_faults (pages at) };

    ghost beside_send_faults = { λ at. P.beside_send_faults (pages at) };
}
