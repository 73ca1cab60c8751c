//! What follows from the definitions. The functions do nothing: their contracts are the laws.
ghost use Rattle.host_sweeps.specs.Laws.{ClearsAreEdits, LastStepsSweep, StepsComeTogether, StepsGoOn, SweepsAreAccepted, SweepsAreDrawn};
ghost use Rattle.host_sweeps.specs.Laws.{SweepsAreOne, SweepsKeepFollowing};

use retention::laws::steps_go_on;

/// A step has one answer: the frame, and what the service holds behind it, are determined by what it holds before.
pub fn sweeps_are_one()
    ensures { SweepsAreOne }
{}

/// A client that holds the list of each open session as the service keeps it goes on doing so at the frame of a step, and
/// draws nothing of it. Nothing but want of memory can come in its way.
pub fn clients_pass_sweeps()
    ensures draws { SweepsAreDrawn }
    ensures accepts { SweepsAreAccepted }
{}

/// The followed sessions can follow behind a step, so that no push behind it is a refusal.
pub fn sweeps_keep_following()
    ensures { SweepsKeepFollowing }
{}

/// Steps put together are the sweep: behind a step the rule makes the later clears of the same list, two steps make as many
/// first clears of it together, and one behind which none is left leaves the book that the sweep leaves.
pub fn sweeps_go_on()
    ensures rest { StepsGoOn }
    ensures together { StepsComeTogether }
    ensures last { LastStepsSweep }
{
    steps_go_on();
}

/// Some first clears of a step are some first edits of a group of these clears: so what a crash leaves of a step is what one
/// leaves of a group.
pub fn clears_are_edits()
    ensures { ClearsAreEdits }
{}
