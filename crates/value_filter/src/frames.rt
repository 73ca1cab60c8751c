ghost use Rattle.std.specs.Prelude.{◌≡◌, ◌+◌, ◌<◌, nat_lt, List, [], ◌∷◌, OnOk, IsTrue, false};
ghost use Rattle.value_filter.specs.declared.frames.Frame.{Frame as FrameOf};
ghost use Rattle.value_filter.specs.declared.steps.TheConstants.{OPEN_AT_ONCE};
ghost use Rattle.value_filter.specs.Reading.{opened};

use crate::steps::OPEN_AT_ONCE;
use std::alloc::{AllocError, Global};
use std::marker::Model;

/// What is open before the next operand.
#[derive(Clone, Copy, PartialEq, Eq)]
pub(crate) enum Frame {
    /// The left side of an `or`.
    Disjunct,
    /// The left side of an `and`.
    Conjunct,
    /// A `not`.
    Negation,
    /// A `(`.
    Parenthesis,
}

impl Frame {
    /// Whether the frame is one of those of which only so many are open at once.
    fn is_counted(self) -> bool
        ensures counted { IsTrue result → (frames : List FrameOf) → opened (self ∷ frames) ≡ opened frames + 1 }
        ensures free { result ≡ false → (frames : List FrameOf) → opened (self ∷ frames) ≡ opened frames }
    {
        match self {
            Frame::Disjunct | Frame::Conjunct => false,
            Frame::Negation | Frame::Parenthesis => true,
        }
    }
}

/// The open frames. They are seen as their list, the innermost first.
#[derive(Drop)]
pub(crate) struct Frames {
    outermost_first: Vec<Frame>,
    room: usize,
}

impl Model for Frames {
    ghost use Rattle.std.specs.Prelude.{◌≡◌, ◌+◌, List, reverse};
    ghost use Rattle.value_filter.specs.declared.frames.Frame.{Frame as FrameOf};
    ghost use Rattle.value_filter.specs.declared.steps.TheConstants.{OPEN_AT_ONCE};
    ghost use Rattle.value_filter.specs.Reading.{opened};

    ghost Value = { List FrameOf };

    ghost view = { λ frames. reverse frames.outermost_first.items };

    ghost invariant = { λ frames. opened (reverse frames.outermost_first.items) + frames.room ≡ OPEN_AT_ONCE };
}

impl Frames {
    /// No frame is open.
    pub(crate) fn new(alloc: Global) -> Frames
        ensures { result ≡ [] }
    {
        Frames {
            outermost_first: Vec::new(alloc),
            room: OPEN_AT_ONCE,
        }
    }

    /// Whether a `not` or `(` more may be open.
    pub(crate) fn has_room(&self) -> bool
        ensures { result ≡ nat_lt (opened self.now) OPEN_AT_ONCE }
    {
        self.room > 0
    }

    /// Opens the left side of an `or` or `and`.
    pub(crate) fn push_side(&mut self, side: Frame) -> Result<(), AllocError>
        requires { opened (side ∷ self.old) ≡ opened self.old }
        ensures { OnOk result (self.new ≡ side ∷ self.old) }
    {
        self.outermost_first.push(side)?;
        Ok(())
    }

    /// Opens a `not` or `(`.
    pub(crate) fn push_open(&mut self, frame: Frame) -> Result<(), AllocError>
        requires counted { opened (frame ∷ self.old) ≡ opened self.old + 1 }
        requires room { opened self.old < OPEN_AT_ONCE }
        ensures { OnOk result (self.new ≡ frame ∷ self.old) }
    {
        self.outermost_first.push(frame)?;
        self.room -= 1;
        Ok(())
    }

    /// Closes the innermost frame if it is this one, and tells whether it was.
    pub(crate) fn close(&mut self, frame: Frame) -> bool
        ensures closed { IsTrue result → self.old ≡ frame ∷ self.new }
        ensures kept { result ≡ false → self.new ≡ self.old }
        ensures another { result ≡ false → (frames : List FrameOf) → self.old ≡ frame ∷ frames → ⊥ }
    {
        if self.outermost_first.last() != Some(&frame) {
            return false;
        }
        self.outermost_first.pop();
        if frame.is_counted() {
            self.room += 1;
        }
        true
    }

    /// Whether no frame is open.
    pub(crate) fn is_empty(&self) -> bool
        ensures empty { IsTrue result → self.now ≡ [] }
        ensures some { result ≡ false → self.now ≡ [] → ⊥ }
    {
        self.outermost_first.is_empty()
    }
}
