//! Two trees.
ghost use Rattle.std.specs.Prelude.{◌≡◌, ℕ, ℤ, Bool, List, Option};
ghost use Rattle.om3_coeff.specs.declared.errors.NodeError.{NodeError};
ghost use Rattle.om3_coeff.specs.View.{Agrees, HasCause};
ghost use Rattle.derived_chart.specs.Sums.{one_of};

use om3_coeff::Nodes;

/// Two trees, of which one is asked at a time.
pub trait TwoTrees: Nodes {
    /// They are those of these two lists of slots.
    ghost are: { Self → List (Option ℤ) → List (Option ℤ) → Type 0 };

    /// Whether the second one is asked.
    ghost asks_second: { Self → Bool };

    /// How many slots the one or the other has.
    ghost count: { Bool → Self → ℕ };

    /// What asks and turns change.
    ghost goes: { Self → Self → Type 0 };

    /// The causes of an error: what asks between these two may answer.
    ghost causes: { Self → Self → NodeError → Type 0 };

    /// From now on the second tree is asked, or the first one.
    fn turn(&mut self, second: bool)
        requires { (Self.view self.old).fit }
        ensures fit { (Self.view self.new).fit }
        ensures turned { asks_second self.new ≡ second }
        ensures quiet { (Self.view self.new).faults ≡ (Self.view self.old).faults }
        ensures reads { (Self.view self.new).reads ≡ (Self.view self.old).reads }
        ensures goes { goes self.old self.new };

    /// No step changes nothing, and steps after steps are steps.
    ghost goes_nowhere: { (at : Self) → goes at at };

    ghost goes_on: { (old between new : Self) → goes old between → goes between new → goes old new };

    /// Asks are steps, and leave which tree is asked.
    ghost asks_go: { (old new : Self) → Self.keeps old new → goes old new };

    ghost asks_stay: { (old new : Self) → Self.keeps old new → asks_second new ≡ asks_second old };

    /// The trees stay what they are.
    ghost still_are: { (old new : Self) (xs ys : List (Option ℤ)) → goes old new → are old xs ys → are new xs ys };

    ghost still_count: { (side : Bool) (old new : Self) → goes old new → count side new ≡ count side old };

    /// The one that is asked agrees with its list.
    ghost agrees: { (at : Self) (xs ys : List (Option ℤ)) → are at xs ys → Agrees (Self.view at) (one_of (asks_second at) xs ys) };

    ghost counts: { (at : Self) → (Self.view at).slots ≡ count (asks_second at) at };

    /// An error of an ask has its cause, and steps before it that count no fault leave that.
    ghost asks_cause: { (old new : Self) (error : NodeError) → Self.keeps old new → HasCause (Self.view old) (Self.view new) error
        → causes old new error };

    ghost causes_behind: { (old between new : Self) (error : NodeError) → goes old between
        → (Self.view between).faults ≡ (Self.view old).faults → causes between new error → causes old new error };
}
