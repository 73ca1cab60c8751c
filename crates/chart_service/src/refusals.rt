ghost use Rattle.std.specs.Prelude.{◌≡◌};
ghost use Rattle.chart_frames.specs.Frames.{Fits};
ghost use Rattle.chart_service.specs.Replies.{refused};

use chart_frames::Frame;
use series_book::Refusal;

/// The frame of a refusal: its number, and the two numbers that it carries.
pub fn refused(refusal: Refusal) -> Frame
    ensures frame { result ≡ refused refusal }
    ensures fits { Fits result }
{
    let (a, b) = refusal.pair();
    Frame::Refused {
        number: refusal.number(),
        a,
        b,
    }
}
