//! What is done on what answers the lines.
ghost use Rattle.std.specs.Prelude.{◌≡◌};

use crate::stepper::Stepper;

/// What is done on what answers the lines of a `Live`, beside these: a look at it, or edits. It leaves the sessions.
pub trait StepperWork<S: Stepper> {
    /// What it answers.
    type Answer;

    /// It may be done.
    ghost may: { Self → S → Type 0 };

    /// `does work stepper answer work' stepper'`: what it answers, and what it leaves.
    ghost does: { Self → S → Self.Answer → Self → S → Type 0 };

    /// Does the work.
    fn work(&mut self, stepper: &mut S) -> Self::Answer
        requires { may self.old stepper.old }
        ensures does { does self.old stepper.old result self.new stepper.new }
        ensures same_sessions { S.sessions stepper.new ≡ S.sessions stepper.old };
}
