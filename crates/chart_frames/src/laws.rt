//! What holds of all frames and of all bytes. Each law is the contract of a function that does nothing.
ghost use Rattle.std.specs.Prelude.{◌≡◌, ◌+◌, ◌<◌, ◌≤◌, ◌++◌, ℕ, List, length};
ghost use Rattle.chart_frames.specs.declared.frame.Frame.{Frame};
ghost use Rattle.chart_frames.specs.Format.{Breaks, number_in};
ghost use Rattle.chart_frames.specs.Fields.{frame_fields};
ghost use Rattle.chart_frames.specs.Frames.{Fits, spelling};

/// Two frames whose spellings begin the same bytes are one frame. So no two frames are spelled alike,
/// no spelling begins another one, and a frame is known from its first byte to its last, whatever
/// follows it.
pub fn one_frame_a_spelling()
    ensures { (f g : Frame) (x y : List ℕ) → Fits f → Fits g → spelling f ++ x ≡ spelling g ++ y → (f ≡ g) × (x ≡ y) }
{}

/// A frame's spelling is as long as its length field says, and four bytes for that field.
pub fn length_is_told()
    ensures { (f : Frame) (x : List ℕ) → Fits f → length (spelling f) ≡ 4 + number_in 4 (spelling f ++ x) }
{}

/// No field of a frame whose fields meet their rules breaks its rule, whatever follows the frame.
pub fn spellings_are_good()
    ensures { (f : Frame) (x : List ℕ) (at : ℕ) → Fits f → Breaks frame_fields (spelling f ++ x) at → ⊥ }
{}

/// Where a complete field breaks its rule, bytes that come later mend nothing, and no field before it
/// comes to break its own.
pub fn more_bytes_mend_nothing()
    ensures stays { (bytes more : List ℕ) (at : ℕ) → Breaks frame_fields bytes at → Breaks frame_fields (bytes ++ more) at }
    ensures first { (bytes more : List ℕ) (at other : ℕ) → Breaks frame_fields bytes at → Breaks frame_fields (bytes ++ more) other
        → at ≡ other }
{}

/// A frame has at most 4,194,304 bytes behind its length field. Where that field tells more, it breaks
/// its rule, so no reader waits for the rest.
pub fn frames_are_limited()
    ensures most { (f : Frame) → Fits f → length (spelling f) ≤ 4 + 4194304 }
    ensures longer { (bytes : List ℕ) → 4 ≤ length bytes → 4194304 < number_in 4 bytes → Breaks frame_fields bytes 0 }
{}
