ghost use Rattle.std.specs.Prelude.{◌≡◌, ◌≢◌, ◌≤◌, ◌<◌, ◌^◌, [], length, None, Some, IfErr, IfOk, IfSome, OnErr, OnOk};
ghost use Rattle.block_disk.specs.Counts.{HasRisen};
ghost use Rattle.block_disk.specs.Streams.{Given, left_after};
ghost use Rattle.chart_frames.specs.Frames.{Fits};
ghost use Rattle.chart_frames.specs.Pending.{held};
ghost use Rattle.chart_frames.specs.Stream.{IsPartial};
ghost use Rattle.draw_command.specs.declared.draw_end.DrawEnd.TheVariants as draw_end;
ghost use Rattle.draw_command.specs.Alone.{StaysAlone};
ghost use Rattle.draw_command.specs.Draws.{DrawsMore, DrawsAll, EndsDraw, DrawsFrame, FrameStops, FramesStop, PieceStops, PieceDone};
ghost use Rattle.draw_command.specs.Draws.{IsNumbered};

use crate::covers::send_covers;
use crate::draw_end::DrawEnd;
use crate::picture::send_picture;
use block_disk::World;
use chart_client::Client;
use chart_client::laws::frames_have_one_answer;
use chart_frames::laws::{length_is_told, more_bytes_mend_nothing, spellings_are_good};
use chart_frames::{Decoder, Frame};
use std::alloc::Global;

/// The bytes of one take.
const PIECE: usize = 16_384;

/// The most bytes of input that a run takes.
const MOST_BYTES: u64 = 4_294_967_296;

/// Draws the frames of the input, as they come, and sends the picture of each View and Rows frame.
pub fn draw<S: World>(alloc: Global, streams: &mut S) -> Result<(), DrawEnd>
    ensures done { OnOk result (IfSome (S.left streams.old) (λ input. DrawsAll None input (S.sent streams.old) (S.sent streams.new))) }
    ensures within { OnOk result (IfSome (S.left streams.old) (λ input. length input ≤ 2 ^ 32)) }
    ensures whole { OnOk result (IfSome (S.left streams.old) (λ input. S.left streams.new ≡ Some [])) }
    ensures ends { IfErr result (λ end. IfSome (S.left streams.old)
        (λ input. EndsDraw None input (S.left streams.new) (S.sent streams.old) (S.sent streams.new) end)) }
    ensures read { result ≡ Err DrawEnd.ReadFault → HasRisen (S.read_faults streams.old) (S.read_faults streams.new) }
    ensures quiet_reads { result ≢ Err DrawEnd.ReadFault → S.read_faults streams.new ≡ S.read_faults streams.old }
    ensures numbered { IfErr result IsNumbered }
    ensures send { result ≡ Err DrawEnd.SendFault → HasRisen (S.send_faults streams.old) (S.send_faults streams.new) }
    ensures quiet_sends { result ≢ Err DrawEnd.SendFault → S.send_faults streams.new ≡ S.send_faults streams.old }
    ensures disk { StaysAlone (S.view streams.old) (S.view streams.new) }
{
    draw_input(alloc, None, streams)
}

/// The same, but before a View's picture its covers are sent, after 0, `every`, 2 * `every`, ..
/// coefficients, each number below that of all that the frame sends.
pub fn cover<S: World>(alloc: Global, every: u32, streams: &mut S) -> Result<(), DrawEnd>
    requires some { 0 < every }
    ensures done { OnOk result (IfSome (S.left streams.old)
        (λ input. DrawsAll (Some every) input (S.sent streams.old) (S.sent streams.new))) }
    ensures within { OnOk result (IfSome (S.left streams.old) (λ input. length input ≤ 2 ^ 32)) }
    ensures whole { OnOk result (IfSome (S.left streams.old) (λ input. S.left streams.new ≡ Some [])) }
    ensures ends { IfErr result (λ end. IfSome (S.left streams.old)
        (λ input. EndsDraw (Some every) input (S.left streams.new) (S.sent streams.old) (S.sent streams.new) end)) }
    ensures read { result ≡ Err DrawEnd.ReadFault → HasRisen (S.read_faults streams.old) (S.read_faults streams.new) }
    ensures quiet_reads { result ≢ Err DrawEnd.ReadFault → S.read_faults streams.new ≡ S.read_faults streams.old }
    ensures numbered { IfErr result IsNumbered }
    ensures send { result ≡ Err DrawEnd.SendFault → HasRisen (S.send_faults streams.old) (S.send_faults streams.new) }
    ensures quiet_sends { result ≢ Err DrawEnd.SendFault → S.send_faults streams.new ≡ S.send_faults streams.old }
    ensures disk { StaysAlone (S.view streams.old) (S.view streams.new) }
{
    draw_input(alloc, Some(every), streams)
}

/// Draws the frames of the input, as they come, with covers where they are asked for.
#[tactic(auto, using(crate::proofs::DiskKept::stays_none))]
fn draw_input<S: World>(alloc: Global, every: Option<u32>, streams: &mut S) -> Result<(), DrawEnd>
    requires some { IfSome every (λ n. 0 < n) }
    ensures done { OnOk result (IfSome (S.left streams.old) (λ input. DrawsAll every input (S.sent streams.old) (S.sent streams.new))) }
    ensures within { OnOk result (IfSome (S.left streams.old) (λ input. length input ≤ 2 ^ 32)) }
    ensures whole { OnOk result (IfSome (S.left streams.old) (λ input. S.left streams.new ≡ Some [])) }
    ensures ends { IfErr result (λ end. IfSome (S.left streams.old)
        (λ input. EndsDraw every input (S.left streams.new) (S.sent streams.old) (S.sent streams.new) end)) }
    ensures read { result ≡ Err DrawEnd.ReadFault → HasRisen (S.read_faults streams.old) (S.read_faults streams.new) }
    ensures quiet_reads { result ≢ Err DrawEnd.ReadFault → S.read_faults streams.new ≡ S.read_faults streams.old }
    ensures numbered { IfErr result IsNumbered }
    ensures send { result ≡ Err DrawEnd.SendFault → HasRisen (S.send_faults streams.old) (S.send_faults streams.new) }
    ensures quiet_sends { result ≢ Err DrawEnd.SendFault → S.send_faults streams.new ≡ S.send_faults streams.old }
    ensures disk { StaysAlone (S.view streams.old) (S.view streams.new) }
{
    let mut client = Client::new(alloc)?;
    let mut buffer = vec![in alloc; 0; PIECE]?;
    let mut decoder = Decoder::new(alloc);
    draw_pieces(
        alloc,
        every,
        &mut decoder,
        &mut client,
        buffer.as_mut_slice(),
        streams,
    )
}

/// Takes the input in pieces, and draws the frames that end within each.
fn draw_pieces<S: World>(
    alloc: Global,
    every: Option<u32>,
    decoder: &mut Decoder,
    client: &mut Client,
    buffer: &mut [u8],
    streams: &mut S,
) -> Result<(), DrawEnd>
    requires some { IfSome every (λ n. 0 < n) }
    requires start { decoder.old ≡ held 0 [] }
    requires client { client.old ≡ [] }
    requires sized { length buffer.old ≡ 16384 }
    ensures done { OnOk result (IfSome (S.left streams.old) (λ input. DrawsAll every input (S.sent streams.old) (S.sent streams.new))) }
    ensures within { OnOk result (IfSome (S.left streams.old) (λ input. length input ≤ 2 ^ 32)) }
    ensures whole { OnOk result (IfSome (S.left streams.old) (λ input. S.left streams.new ≡ Some [])) }
    ensures ends { IfErr result (λ end. IfSome (S.left streams.old)
        (λ input. EndsDraw every input (S.left streams.new) (S.sent streams.old) (S.sent streams.new) end)) }
    ensures read { result ≡ Err DrawEnd.ReadFault → HasRisen (S.read_faults streams.old) (S.read_faults streams.new) }
    ensures quiet_reads { result ≢ Err DrawEnd.ReadFault → S.read_faults streams.new ≡ S.read_faults streams.old }
    ensures numbered { IfErr result IsNumbered }
    ensures send { result ≡ Err DrawEnd.SendFault → HasRisen (S.send_faults streams.old) (S.send_faults streams.new) }
    ensures quiet_sends { result ≢ Err DrawEnd.SendFault → S.send_faults streams.new ≡ S.send_faults streams.old }
    ensures disk { StaysAlone (S.view streams.old) (S.view streams.new) }
{
    more_bytes_mend_nothing();
    spellings_are_good();
    let mut taken: u64 = 0;
    'pieces: loop {
        let count = take_piece(buffer, streams)?;
        if count == 0 {
            return ended(decoder, taken);
        }
        let room = MOST_BYTES - taken;
        let fits = room.min(count as u64);
        draw_piece(
            alloc,
            every,
            decoder,
            client,
            &buffer[..fits as usize],
            streams,
        )?;
        taken += fits;
        if count as u64 > room {
            return Err(DrawEnd::InputTooLong);
        }
    }
}

/// Takes the next piece of the input.
fn take_piece<S: World>(buffer: &mut [u8], streams: &mut S) -> Result<usize, DrawEnd>
    requires sized { length buffer.old ≡ 16384 }
    ensures sized { length buffer.new ≡ 16384 }
    ensures fits { IfOk result (λ count. count ≤ length buffer.old) }
    ensures given { IfOk result (λ count. IfSome (S.left streams.old) (λ bytes. Given count bytes buffer.new)) }
    ensures left { IfOk result (λ count. S.left streams.new ≡ left_after count (S.left streams.old)) }
    ensures fault { IfErr result (λ end. end ≡ draw_end.ReadFault) }
    ensures left_on_err { OnErr result (S.left streams.new ≡ S.left streams.old) }
    ensures cause { OnErr result (HasRisen (S.read_faults streams.old) (S.read_faults streams.new)) }
    ensures quiet_reads { result ≢ Err DrawEnd.ReadFault → S.read_faults streams.new ≡ S.read_faults streams.old }
    ensures read_faults { S.read_faults streams.old ≤ S.read_faults streams.new }
    ensures sent { S.sent streams.new ≡ S.sent streams.old }
    ensures send_faults { S.send_faults streams.new ≡ S.send_faults streams.old }
    ensures beside { S.takes streams.old streams.new }
{
    match streams.take(buffer) {
        Ok(count) => Ok(count),
        Err(_) => Err(DrawEnd::ReadFault),
    }
}

/// What stands behind the last take: nothing, or the front of a frame.
fn ended(decoder: &Decoder, taken: u64) -> Result<(), DrawEnd>
    ensures done { OnOk result (decoder.now.rest ≡ []) }
    ensures cut { IfErr result (λ end. (end ≡ draw_end.BadFrame taken) × (0 < length decoder.now.rest)) }
{
    if decoder.pending() > 0 {
        return Err(DrawEnd::BadFrame { at: taken });
    }
    Ok(())
}

/// Draws the frames that end within a piece of the input.
#[tactic(auto, using(crate::proofs::DiskKept::stays_none))]
fn draw_piece<S: World>(
    alloc: Global,
    every: Option<u32>,
    decoder: &mut Decoder,
    client: &mut Client,
    piece: &[u8],
    streams: &mut S,
) -> Result<(), DrawEnd>
    requires some { IfSome every (λ n. 0 < n) }
    ensures done { OnOk result (PieceDone every piece.now decoder.old decoder.new client.old client.new (S.sent streams.old)
        (S.sent streams.new)) }
    ensures stops { IfErr result (PieceStops every piece.now decoder.old client.old (S.sent streams.old) (S.sent streams.new)) }
    ensures numbered { IfErr result IsNumbered }
    ensures send { result ≡ Err DrawEnd.SendFault → HasRisen (S.send_faults streams.old) (S.send_faults streams.new) }
    ensures quiet_sends { result ≢ Err DrawEnd.SendFault → S.send_faults streams.new ≡ S.send_faults streams.old }
    ensures send_faults { S.send_faults streams.old ≤ S.send_faults streams.new }
    ensures left { S.left streams.new ≡ S.left streams.old }
    ensures read_faults { S.read_faults streams.new ≡ S.read_faults streams.old }
    ensures disk { StaysAlone (S.view streams.old) (S.view streams.new) }
{
    decoder.feed(piece)?;
    draw_frames(alloc, every, decoder, client, streams)
}

/// Draws the frames that stand whole in what the decoder holds.
fn draw_frames<S: World>(
    alloc: Global,
    every: Option<u32>,
    decoder: &mut Decoder,
    client: &mut Client,
    streams: &mut S,
) -> Result<(), DrawEnd>
    requires some { IfSome every (λ n. 0 < n) }
    ensures done { OnOk result (DrawsMore every decoder.old decoder.new client.old client.new (S.sent streams.old) (S.sent streams.new)) }
    ensures all { OnOk result (IsPartial decoder.new) }
    ensures stops { IfErr result (FramesStop every decoder.old client.old (S.sent streams.old) (S.sent streams.new)) }
    ensures numbered { IfErr result IsNumbered }
    ensures send { result ≡ Err DrawEnd.SendFault → HasRisen (S.send_faults streams.old) (S.send_faults streams.new) }
    ensures quiet_sends { result ≢ Err DrawEnd.SendFault → S.send_faults streams.new ≡ S.send_faults streams.old }
    ensures send_faults { S.send_faults streams.old ≤ S.send_faults streams.new }
    ensures left { S.left streams.new ≡ S.left streams.old }
    ensures read_faults { S.read_faults streams.new ≡ S.read_faults streams.old }
    ensures disk { StaysAlone (S.view streams.old) (S.view streams.new) }
{
    length_is_told();
    'frames: loop {
        match decoder.next()? {
            Some(frame) => draw_frame(alloc, every, client, &frame, streams)?,
            None => return Ok(()),
        }
    }
}

/// Draws a frame, and sends its covers where they are asked for, and its picture where it has one.
fn draw_frame<S: World>(
    alloc: Global,
    every: Option<u32>,
    client: &mut Client,
    frame: &Frame,
    streams: &mut S,
) -> Result<(), DrawEnd>
    requires some { IfSome every (λ n. 0 < n) }
    requires fits { Fits frame.now }
    ensures done { OnOk result (DrawsFrame every frame.now client.old client.new (S.sent streams.old) (S.sent streams.new)) }
    ensures stops { IfErr result (FrameStops every frame.now client.old (S.sent streams.old) (S.sent streams.new)) }
    ensures numbered { IfErr result IsNumbered }
    ensures send { result ≡ Err DrawEnd.SendFault → HasRisen (S.send_faults streams.old) (S.send_faults streams.new) }
    ensures quiet_sends { result ≢ Err DrawEnd.SendFault → S.send_faults streams.new ≡ S.send_faults streams.old }
    ensures send_faults { S.send_faults streams.old ≤ S.send_faults streams.new }
    ensures left { S.left streams.new ≡ S.left streams.old }
    ensures read_faults { S.read_faults streams.new ≡ S.read_faults streams.old }
    ensures disk { StaysAlone (S.view streams.old) (S.view streams.new) }
{
    frames_have_one_answer();
    send_covers(alloc, every, client, frame, streams)?;
    let Some(drawing) = client.accept(frame)? else {
        return Ok(());
    };
    send_picture(alloc, &drawing, streams)
}
