ghost use Rattle.std.specs.Prelude.{◌≡◌, ◌≤◌, ◌≢◌, ◌^◌, pos, max, length, All, IfOk, IfErr, IfSome, OnOk};
ghost use Rattle.block_disk.specs.Counts.{HasRisen};
ghost use Rattle.chart_grid.specs.Limits.{IsSide};
ghost use Rattle.chart_grid.specs.Projection.{ShowsWindow, HasCanvas};
ghost use Rattle.chart_world.specs.Faults.{CountsFault, fault_in};
ghost use Rattle.chart_world.specs.Reading.{IsReadUp};
ghost use Rattle.plain_chart.specs.Samples.{IsSlot};
ghost use Rattle.draw_command.specs.Alone.{StaysAlone};
ghost use Rattle.chart_program.specs.Faulting.{plot_fault};
ghost use Rattle.chart_program.specs.Plotted.{IsPlot, SendsPlot, EndsPlot};
ghost use Rattle.chart_program.specs.declared.plot.PlotEnd.TheVariants.{Input};

use crate::input::{InputEnd, MOST_SLOTS, read_slots};
use block_disk::World;
use chart_grid::{Axis, Grid};
use pbm_writer::pbm;
use row_chart::{chart_of_rows, range_of_rows, rows_of_slots};
use std::alloc::Global;
use thiserror::Error;

/// Why a plot wasn't sent whole.
#[derive(Clone, Copy, Debug, Error)]
pub enum PlotEnd {
    /// The slots weren't read to the end, or there was no memory. Nothing was sent.
    #[error("{0}")]
    Input(InputEnd),
    /// A send failed. The first bytes of the picture were sent.
    #[error("the picture could not be sent")]
    SendFault,
}

impl From<InputEnd> for PlotEnd {
    ghost from_gives = { λ end e. e ≡ Input end };

    fn from(end: InputEnd) -> PlotEnd {
        PlotEnd::Input(end)
    }
}

/// Reads the slots of the input and sends their chart, `w` columns wide and `h` rows high.
pub fn plot<S: World>(alloc: Global, w: u16, h: u16, streams: &mut S) -> Result<(), PlotEnd>
    requires wide { IsSide w }
    requires high { IsSide h }
    ensures done { OnOk result (IfSome (S.left streams.old) (λ input. SendsPlot w h input (S.sent streams.old) (S.sent streams.new))) }
    ensures within { OnOk result (IfSome (S.left streams.old) (λ input. length input ≤ 2 ^ 32)) }
    ensures whole { OnOk result (IsReadUp (S.left streams.old) (S.left streams.new)) }
    ensures ends { IfErr result (λ end. IfSome (S.left streams.old)
        (λ input. EndsPlot w h input (S.left streams.new) (S.sent streams.old) (S.sent streams.new) end)) }
    ensures unsent { IfErr result (λ end. end ≢ PlotEnd.SendFault → S.sent streams.new ≡ S.sent streams.old) }
    ensures read { result ≡ Err (PlotEnd.Input InputEnd.ReadFault) → HasRisen (S.read_faults streams.old) (S.read_faults streams.new) }
    ensures send { result ≡ Err PlotEnd.SendFault → HasRisen (S.send_faults streams.old) (S.send_faults streams.new) }
    ensures faults { CountsFault (fault_in plot_fault result) (S.view streams.old) (S.view streams.new) }
    ensures disk { StaysAlone (S.view streams.old) (S.view streams.new) }
{
    let slots = read_slots(alloc, streams)?;
    let bytes = picture_of(alloc, w, h, slots.as_slice())?;
    if streams.send(bytes.as_slice()).is_err() {
        return Err(PlotEnd::SendFault);
    }
    Ok(())
}

/// The picture of the chart of the slots.
#[tactic(auto, unfolding(whole_number::specs::SlotTimes::ends_in_time))]
fn picture_of(alloc: Global, w: u16, h: u16, slots: &[Option<i64>]) -> Result<Vec<u8>, InputEnd>
    requires wide { IsSide w }
    requires high { IsSide h }
    requires values { All IsSlot slots.now }
    requires few { length slots.now ≤ MOST_SLOTS }
    ensures plot { IfOk result (λ bytes. IsPlot w h slots.now bytes.items) }
    ensures memory { IfErr result (λ end. end ≡ InputEnd.NoMemory) }
{
    let grid = grid_of(w, h, slots.len());
    let axis = Axis {
        start: 0,
        step: 1,
        slots: slots.len() as u64,
    };
    let rows = rows_of_slots(alloc, grid, axis, slots)?;
    let range = range_of_rows(&rows);
    let bitmap = chart_of_rows(alloc, grid, &rows, range)?;
    Ok(pbm(alloc, &bitmap)?)
}

/// The grid of a plot of so many slots: from 0 to their number, and to 1 where there is none.
fn grid_of(w: u16, h: u16, slots: usize) -> Grid
    requires wide { IsSide w }
    requires high { IsSide h }
    requires few { slots ≤ MOST_SLOTS }
    ensures window { ShowsWindow result (pos 0) (pos (max slots 1)) }
    ensures canvas { HasCanvas result w h }
{
    Grid::new(0, slots.max(1) as i128, u64::from(w), u64::from(h)).unwrap()
}
