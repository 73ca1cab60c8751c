//! What makes the bytes of replies.
ghost use Rattle.std.specs.Prelude.{ℕ, List, Result, Ok, Err, IfOk, IfErr};
ghost use Rattle.chart_frames.specs.declared.frame.Frame.{Frame};
ghost use Rattle.chart_frames.specs.Frames.{Fits};

use chart_frames::Frame;

/// What makes the bytes that are sent for a frame. What it keeps from one reply to the next is an `S`, and
/// an `F` says why it made none.
pub trait Reply<S, F> {
    /// What making the bytes of a frame may answer, and what it may leave.
    ghost makes: { S → Frame → Result (List ℕ) F → S → Type 0 };

    /// Makes the bytes of a frame.
    fn make(&self, frame: &Frame, kept: &mut S) -> Result<Vec<u8>, F>
        requires { Fits frame.now }
        ensures bytes { IfOk result (λ bytes. makes kept.old frame.now (Ok bytes.items) kept.new) }
        ensures fails { IfErr result (λ error. makes kept.old frame.now (Err error) kept.new) };
}
