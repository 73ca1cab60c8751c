//! What is done of each line, at a pause, and at the end.
ghost use Rattle.std.specs.Prelude.{◌≡◌, ◌+◌, ◌≤◌, ◌<◌, ℕ, List, Option, Some, None, length, IfErr, IfSome, OnOk};
ghost use Rattle.block_disk.specs.View.{Image, View, Now, Passes, DiskKept, sent_now};
ghost use Rattle.chart_world.specs.Faults.{Fault, CountsFault, fault_in};
ghost use Rattle.line_runs.specs.Given.{Given, Line, Pause, End};
ghost use Rattle.line_runs.specs.Shown.{DoesOn, LeavesOn};

use block_disk::Streams;

/// A work that is done line by line, over an `S` with the streams. `E` says why it stopped.
pub trait LineWork<S: Streams, E> {
    /// What the work and what it is done on mean.
    ghost State: { Type 0 };

    /// What a crash may leave, moment by moment, and what was sent by then.
    ghost view: { S → View };

    /// Lines come from so many first bytes of the input.
    ghost limit: { ℕ };

    /// A line may be given that begins at this offset.
    ghost fit: { Self → S → ℕ → Type 0 };

    /// They stand for a state.
    ghost stands: { State → Self → S → Type 0 };

    /// A state of which it is told what a crash leaves.
    ghost lasting: { State → Type 0 };

    /// What a crash leaves between lines.
    ghost rests: { State → Image → Type 0 };

    /// `does state it text behind`: what is sent for a line, at a pause or at the end, and the state behind it. A work may
    /// keep lines back in its state, and do them at a later one, or at a pause.
    ghost does: { State → Given → List ℕ → State → Type 0 };

    /// `stops state it end work now before`: it stopped the work so, which left this and had sent `before` by its begin.
    ghost stops: { State → Given → E → Self → S → Option (List ℕ) → Type 0 };

    /// `leaves state it from image sent`: what a crash leaves within it, where it began after so many bytes sent.
    ghost leaves: { State → Given → ℕ → Image → ℕ → Type 0 };

    /// What calls move, whatever the state is.
    ghost goes: { S → S → Type 0 };

    /// The cause of an end, whatever the state is.
    ghost cause: { E → S → S → Type 0 };

    /// An end after which no line may be given.
    ghost harms: { E → Type 0 };

    /// The failed call that an end tells.
    ghost fault: { E → Option Fault };

    /// Does a line of at most 8,192 bytes, or keeps it back.
    fn line(&mut self, from: &mut S, at: u64, line: &[u8]) -> Result<(), E>
        requires fit { fit self.old from.old at }
        requires early { at < limit }
        requires short { length line.now ≤ 8192 }
        ensures does { (state : State) → stands state self.old from.old
            → OnOk result (DoesOn S.sent stands does state (Line at (Some line.now)) self.new from.old from.new) }
        ensures stops { (state : State) → stands state self.old from.old
            → IfErr result (λ end. stops state (Line at (Some line.now)) end self.new from.new (S.sent from.old)) }
        ensures leaves { (state : State) → stands state self.old from.old → lasting state
            → LeavesOn view leaves state (Line at (Some line.now)) from.old from.new }
        ensures fit { OnOk result (fit self.new from.new (at + 1)) }
        ensures fit_on_err { IfErr result (λ end. (harms end → ⊥) → fit self.new from.new (at + 1)) }
        ensures goes { goes from.old from.new }
        ensures cause { IfErr result (λ end. cause end from.old from.new) }
        ensures faults { CountsFault (fault_in fault result) (view from.old) (view from.new) }
        ensures left { S.left from.new ≡ S.left from.old }
        ensures pieces { S.pieces from.old ≤ S.pieces from.new };

    /// Does a line of more bytes, which are passed over.
    fn long_line(&mut self, from: &mut S, at: u64) -> Result<(), E>
        requires fit { fit self.old from.old at }
        requires early { at < limit }
        ensures does { (state : State) → stands state self.old from.old
            → OnOk result (DoesOn S.sent stands does state (Line at None) self.new from.old from.new) }
        ensures stops { (state : State) → stands state self.old from.old
            → IfErr result (λ end. stops state (Line at None) end self.new from.new (S.sent from.old)) }
        ensures leaves { (state : State) → stands state self.old from.old → lasting state
            → LeavesOn view leaves state (Line at None) from.old from.new }
        ensures fit { OnOk result (fit self.new from.new (at + 1)) }
        ensures fit_on_err { IfErr result (λ end. (harms end → ⊥) → fit self.new from.new (at + 1)) }
        ensures goes { goes from.old from.new }
        ensures cause { IfErr result (λ end. cause end from.old from.new) }
        ensures faults { CountsFault (fault_in fault result) (view from.old) (view from.new) }
        ensures left { S.left from.new ≡ S.left from.old }
        ensures pieces { S.pieces from.old ≤ S.pieces from.new };

    /// Does what was kept back: no line stands ready, and a take may wait for the next one. The work is paused before each
    /// take, before it is ended and before a fault of the input.
    fn pause(&mut self, from: &mut S) -> Result<(), E>
        requires fit { fit self.old from.old limit }
        ensures does { (state : State) → stands state self.old from.old
            → OnOk result (DoesOn S.sent stands does state Pause self.new from.old from.new) }
        ensures stops { (state : State) → stands state self.old from.old
            → IfErr result (λ end. stops state Pause end self.new from.new (S.sent from.old)) }
        ensures leaves { (state : State) → stands state self.old from.old → lasting state
            → LeavesOn view leaves state Pause from.old from.new }
        ensures fit { (at : ℕ) → fit self.old from.old at → OnOk result (fit self.new from.new at) }
        ensures fit_on_err { IfErr result (λ end. (harms end → ⊥) → fit self.new from.new limit) }
        ensures goes { goes from.old from.new }
        ensures cause { IfErr result (λ end. cause end from.old from.new) }
        ensures faults { CountsFault (fault_in fault result) (view from.old) (view from.new) }
        ensures left { S.left from.new ≡ S.left from.old }
        ensures pieces { S.pieces from.old ≤ S.pieces from.new };

    /// Ends the work behind the last line and a pause.
    fn finish(&mut self, from: &mut S) -> Result<(), E>
        requires fit { fit self.old from.old limit }
        ensures does { (state : State) → stands state self.old from.old
            → OnOk result (DoesOn S.sent stands does state End self.new from.old from.new) }
        ensures stops { (state : State) → stands state self.old from.old
            → IfErr result (λ end. stops state End end self.new from.new (S.sent from.old)) }
        ensures leaves { (state : State) → stands state self.old from.old → lasting state
            → LeavesOn view leaves state End from.old from.new }
        ensures fit { OnOk result (fit self.new from.new limit) }
        ensures fit_on_err { IfErr result (λ end. (harms end → ⊥) → fit self.new from.new limit) }
        ensures goes { goes from.old from.new }
        ensures cause { IfErr result (λ end. cause end from.old from.new) }
        ensures faults { CountsFault (fault_in fault result) (view from.old) (view from.new) }
        ensures left { S.left from.new ≡ S.left from.old }
        ensures pieces { S.pieces from.old ≤ S.pieces from.new };

    /// Where a line may be given, a later one may be.
    ghost fit_later: { (work : Self) (at : S) (first later : ℕ) → first ≤ later → fit work at first → fit work at later };

    /// A take leaves the state and what a crash leaves.
    ghost fit_taken: { (work : Self) (old new : S) (at : ℕ) → S.takes old new → fit work old at → fit work new at };

    ghost stands_taken: { (state : State) (work : Self) (old new : S) → S.takes old new → S.sent new ≡ S.sent old → stands state work old
        → stands state work new };

    /// It stays one of which that is told.
    ghost lasting_on: { (state : State) (it : Given) (text : List ℕ) (behind : State) → does state it text behind → lasting state
        → lasting behind };

    ghost take_keeps: { (old new : S) → S.takes old new → DiskKept (view old) (view new) };

    ghost take_passes: { (old new : S) → S.takes old new
        → Passes (view old) (view new) (Now (view old)) (λ count. count ≡ sent_now (view old)) };

    ghost take_goes: { (old new : S) → S.takes old new → S.sent new ≡ S.sent old → S.read_faults old ≤ S.read_faults new
        → S.send_faults new ≡ S.send_faults old → S.pieces old ≤ S.pieces new → goes old new };

    /// Between lines a crash leaves what rests.
    ghost now_rests: { (state : State) (work : Self) (from : S) (at : ℕ) → fit work from at → stands state work from → lasting state
        → (image : Image) → Now (view from) image → rests state image };

    ghost goes_none: { (at : S) → goes at at };

    ghost goes_then: { (old between new : S) → goes old between → goes between new → goes old new };

    ghost cause_later: { (end : E) (old between new : S) → CountsFault None (view old) (view between) → goes old between
        → cause end between new → cause end old new };

    /// The streams are those beside what a crash leaves.
    ghost counts_sent: { (at : S) → IfSome (S.sent at) (λ bytes. sent_now (view at) ≡ length bytes) };

    ghost beside_read_faults: { (at : S) → (view at).beside.read_faults ≡ S.read_faults at };

    ghost beside_send_faults: { (at : S) → (view at).beside.send_faults ≡ S.send_faults at };
}
