//! What follows from the definitions. The functions do nothing: their contracts are the laws.

ghost use Rattle.std.specs.Prelude.{◌≡◌, ◌≢◌, ◌⊎◌, ℕ, List, [], Option, None, Some};
ghost use Rattle.line_raster.specs.Canvas.{Canvas};
ghost use Rattle.chart_frames.specs.declared.frame.Frame.{Frame};
ghost use Rattle.chart_frames.specs.declared.frame.Frame.TheVariants.{Closed};
ghost use Rattle.chart_client.specs.declared.holding.Holding.{Holding};
ghost use Rattle.chart_client.specs.Holdings.{holding_of};
ghost use Rattle.chart_client.specs.Accepting.{Accepts, AcceptsAll, Rejects, HasNumber, named_in, viewed};
ghost use Rattle.chart_client.specs.declared.errors.ClientError.{ClientError};
ghost use Rattle.chart_client.specs.declared.errors.ClientError.TheVariants.{NoMemory};
ghost use Rattle.chart_client.specs.Laws.{OpenedSessionsHoldNothing, ViewedSessionsHoldTheirKeys, AcceptedFramesGoOn};

/// A frame that a client accepts changes what it holds of no session but the one that the frame names.
/// An opening leaves an empty list of the stated size, a closing none, and a view the list that is
/// renewed by all keys that it wants.
pub fn frames_change_one_session()
    ensures others { (frame : Frame) (drawing : Option Canvas) (old new : List Holding) (number : ℕ) →
        Accepts frame drawing old new → named_in frame ≢ Some number → holding_of number new ≡ holding_of number old }
    ensures opened { OpenedSessionsHoldNothing }
    ensures closed { (number : ℕ) (drawing : Option Canvas) (old new : List Holding) →
        Accepts (Closed number) drawing old new → holding_of number new ≡ None }
    ensures viewed { ViewedSessionsHoldTheirKeys }
{}

/// A frame is accepted, or there is one cause for which it isn't, unless memory runs out. A key that an
/// error names has a number.
pub fn frames_have_one_answer()
    ensures accepted { (frame : Frame) (drawing : Option Canvas) (old new : List Holding) (e : ClientError) →
        Accepts frame drawing old new → Rejects frame e old → e ≡ NoMemory }
    ensures rejected { (frame : Frame) (old : List Holding) (d e : ClientError) →
        Rejects frame d old → Rejects frame e old → (d ≡ NoMemory) ⊎ ((e ≡ NoMemory) ⊎ (d ≡ e)) }
    ensures numbered { (frame : Frame) (old : List Holding) (e : ClientError) → Rejects frame e old → HasNumber e }
{}

/// Frames that are accepted one after the other, and one that is accepted after them, are all accepted.
pub fn frames_follow_one_another()
    ensures none { (old : List Holding) → AcceptsAll [] [] old old }
    ensures next { AcceptedFramesGoOn }
{}
