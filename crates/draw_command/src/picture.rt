//! A drawing, sent as a picture.

ghost use Rattle.std.specs.Prelude.{◌≡◌, ◌≢◌, ◌≤◌, IfErr, OnOk};
ghost use Rattle.block_disk.specs.Counts.{HasRisen};
ghost use Rattle.block_disk.specs.Streams.{sent_after};
ghost use Rattle.pbm_writer.specs.Picture.{picture};
ghost use Rattle.draw_command.specs.Alone.{StaysAlone};
ghost use Rattle.draw_command.specs.Draws.{PictureStops};

use crate::draw_end::DrawEnd;
use block_disk::World;
use line_raster::Bitmap;
use pbm_writer::pbm;
use std::alloc::Global;

/// Sends the picture of a drawing.
pub(crate) fn send_picture<S: World>(
    alloc: Global,
    drawing: &Bitmap,
    streams: &mut S,
) -> Result<(), DrawEnd>
    ensures done { OnOk result (S.sent streams.new ≡ sent_after (picture drawing.now) (S.sent streams.old)) }
    ensures stops { IfErr result (PictureStops drawing.now (S.sent streams.old) (S.sent streams.new)) }
    ensures send { result ≡ Err DrawEnd.SendFault → HasRisen (S.send_faults streams.old) (S.send_faults streams.new) }
    ensures quiet_sends { result ≢ Err DrawEnd.SendFault → S.send_faults streams.new ≡ S.send_faults streams.old }
    ensures send_faults { S.send_faults streams.old ≤ S.send_faults streams.new }
    ensures left { S.left streams.new ≡ S.left streams.old }
    ensures read_faults { S.read_faults streams.new ≡ S.read_faults streams.old }
    ensures disk { StaysAlone (S.view streams.old) (S.view streams.new) }
{
    let bytes = pbm(alloc, drawing)?;
    if streams.send(bytes.as_slice()).is_err() {
        return Err(DrawEnd::SendFault);
    }
    Ok(())
}
