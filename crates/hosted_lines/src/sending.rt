//! Frames are sent one after the other.
ghost use Rattle.std.specs.Prelude.{◌≡◌, ◌≤◌, All, Err, length, IfErr, OnOk};
ghost use Rattle.block_disk.specs.Counts.{HasRisen};
ghost use Rattle.block_disk.specs.Streams.{sent_after};
ghost use Rattle.chart_frames.specs.Frames.{Fits};
ghost use Rattle.chart_service.specs.Shown as shown;
ghost use Rattle.chart_world.specs.Faults.{CountsFault, fault_in};
ghost use Rattle.live_service.specs.Shown as its;
ghost use Rattle.live_view.specs.Live as follows;
ghost use Rattle.run_ends.specs.Faults.{end_fault};
ghost use Rattle.hosted_lines.specs.Hosting.{FramesStop};
ghost use Rattle.hosted_lines.specs.Lives.{spelled};
ghost use Rattle.hosted_lines.specs.Shown.{pages};

use crate::answering::send_frame;
use chart_frames::Frame;
use gate_pages::PageWorld;
use live_service::ServiceStepper;
use live_view::Live;
use run_ends::End;
use std::alloc::Global;

/// Sends the spellings of frames, one after the other.
pub(crate) fn send_frames<P: PageWorld>(
    alloc: Global,
    live: &mut Live<ServiceStepper<P>>,
    frames: &[Frame],
) -> Result<(), End>
    requires { All Fits frames.now }
    ensures whole { OnOk result (P.sent (pages live.new) ≡ sent_after (spelled frames.now) (P.sent (pages live.old))) }
    ensures stops { IfErr result (FramesStop frames.now (P.sent (pages live.old)) (P.sent (pages live.new))) }
    ensures cause { result ≡ Err End.SendFault → HasRisen (P.send_faults (pages live.old)) (P.send_faults (pages live.new)) }
    ensures faults { CountsFault (fault_in end_fault result) (its.view live.old) (its.view live.new) }
    ensures send_faults { P.send_faults (pages live.old) ≤ P.send_faults (pages live.new) }
    ensures left { P.left (pages live.new) ≡ P.left (pages live.old) }
    ensures pieces { P.pieces (pages live.new) ≡ P.pieces (pages live.old) }
    ensures read_faults { P.read_faults (pages live.new) ≡ P.read_faults (pages live.old) }
    ensures beside { follows.Keeps (shown.Keeps (P.sends (length (spelled frames.now)) (pages live.old) (pages live.new))
        (its.service live.old) (its.service live.new)) live.old live.new }
{
    match frames.split_first() {
        Some((frame, later)) => match send_frame(alloc, live, frame) {
            Ok(()) => send_frames(alloc, live, later),
            Err(end) => Err(end),
        },
        None => Ok(()),
    }
}
