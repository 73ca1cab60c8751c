//! The covers of a view, sent one after the other.

ghost use Rattle.std.specs.Prelude.{◌≡◌, ◌≢◌, ◌≤◌, ◌<◌, IfErr, IfSome, OnOk};
ghost use Rattle.block_disk.specs.Counts.{HasRisen};
ghost use Rattle.block_disk.specs.View.{View};
ghost use Rattle.chart_frames.specs.declared.frame.Frame.TheVariants.{View as AView};
ghost use Rattle.chart_frames.specs.Frames.{Fits, FitsView};
ghost use Rattle.draw_command.specs.Alone.{StaysAlone};
ghost use Rattle.draw_command.specs.Draws.{CoversFrame, CoversStop};

use crate::draw_end::DrawEnd;
use crate::picture::send_picture;
use block_disk::World;
use chart_client::Client;
use chart_frames::{Frame, ViewFrame};
use progressive_view::Progress;
use std::alloc::Global;

/// Sends the covers of a frame, where they are asked for: only a view has some.
pub(crate) fn send_covers<S: World>(
    alloc: Global,
    every: Option<u32>,
    client: &Client,
    frame: &Frame,
    streams: &mut S,
) -> Result<(), DrawEnd>
    requires some { IfSome every (λ n. 0 < n) }
    requires fits { Fits frame.now }
    ensures done { OnOk result (CoversFrame every frame.now client.now (S.sent streams.old) (S.sent streams.new)) }
    ensures stops { IfErr result (CoversStop every frame.now client.now (S.sent streams.old) (S.sent streams.new)) }
    ensures send { result ≡ Err DrawEnd.SendFault → HasRisen (S.send_faults streams.old) (S.send_faults streams.new) }
    ensures quiet_sends { result ≢ Err DrawEnd.SendFault → S.send_faults streams.new ≡ S.send_faults streams.old }
    ensures send_faults { S.send_faults streams.old ≤ S.send_faults streams.new }
    ensures left { S.left streams.new ≡ S.left streams.old }
    ensures read_faults { S.read_faults streams.new ≡ S.read_faults streams.old }
    ensures disk { StaysAlone (S.view streams.old) (S.view streams.new) }
{
    let Some(every) = every else {
        return Ok(());
    };
    let Frame::View(view) = frame else {
        return Ok(());
    };
    send_view_covers(alloc, every, client, view, streams)
}

/// Sends the covers of a view after 0, every, 2 * every, .. coefficients, each number below that of all.
fn send_view_covers<S: World>(
    alloc: Global,
    every: u32,
    client: &Client,
    view: &ViewFrame,
    streams: &mut S,
) -> Result<(), DrawEnd>
    requires some { 0 < every }
    requires fits { FitsView view.now }
    ensures done { OnOk result (CoversFrame (Some every) (AView view.now) client.now (S.sent streams.old) (S.sent streams.new)) }
    ensures stops { IfErr result (CoversStop (Some every) (AView view.now) client.now (S.sent streams.old) (S.sent streams.new)) }
    ensures send { result ≡ Err DrawEnd.SendFault → HasRisen (S.send_faults streams.old) (S.send_faults streams.new) }
    ensures quiet_sends { result ≢ Err DrawEnd.SendFault → S.send_faults streams.new ≡ S.send_faults streams.old }
    ensures send_faults { S.send_faults streams.old ≤ S.send_faults streams.new }
    ensures left { S.left streams.new ≡ S.left streams.old }
    ensures read_faults { S.read_faults streams.new ≡ S.read_faults streams.old }
    ensures disk { StaysAlone (S.view streams.old) (S.view streams.new) }
{
    let mut progress = Progress::begin(alloc, client, view)?;
    'covers: while progress.taken() < view.count {
        let cover = progress.cover()?;
        send_picture(alloc, &cover, streams)?;
        progress.advance_by(every);
    }
    Ok(())
}
