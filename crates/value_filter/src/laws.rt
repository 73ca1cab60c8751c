//! What follows from the definitions. The functions do nothing: their contracts are the laws.

ghost use Rattle.std.specs.Prelude.{◌≡◌, ℕ, ℤ, ◌≤ℤ◌, true, false, not, List};
ghost use Rattle.value_filter.specs.declared.atoms.Comparison.{Comparison};
ghost use Rattle.value_filter.specs.declared.box_answers.BoxAnswer.{BoxAnswer};
ghost use Rattle.value_filter.specs.declared.box_answers.BoxAnswer.TheVariants.{All, Nothing};
ghost use Rattle.value_filter.specs.declared.tokens.Token.{Token};
ghost use Rattle.value_filter.specs.Expressions.{Expression, holds_at, compares, opposite};
ghost use Rattle.value_filter.specs.Boxes.{Interval, IsWithin, IsAnswer};
ghost use Rattle.value_filter.specs.Grammar.{AreFilter, IsFilter, LeavesAt};
ghost use Rattle.value_filter.specs.Spacing.{IsSpaced};

/// A filter of which a box's answer is All holds at every whole time and value of the box, and one of
/// which it is Nothing holds at none.
pub fn answers_hold_everywhere()
    ensures all { (f : Expression) (times values : Interval) → IsAnswer f times values All →
        (t v : ℤ) → IsWithin times t → IsWithin values v → holds_at f t v ≡ true }
    ensures nothing { (f : Expression) (times values : Interval) → IsAnswer f times values Nothing →
        (t v : ℤ) → IsWithin times t → IsWithin values v → holds_at f t v ≡ false }
{}

/// A filter has one answer on a box.
pub fn a_box_has_one_answer()
    ensures { (f : Expression) (times values : Interval) (a b : BoxAnswer) →
        times.0 ≤ℤ times.1 → values.0 ≤ℤ values.1 →
        IsAnswer f times values a → IsAnswer f times values b → a ≡ b }
{}

/// The opposite of a comparison holds exactly where it doesn't.
pub fn opposites_exclude_each_other()
    ensures { (comparison : Comparison) (x number : ℤ) →
        compares (opposite comparison) x number ≡ not (compares comparison x number) }
{}

/// A text spells one filter at the most, or leaves the grammar at one offset.
pub fn a_text_is_read_in_one_way()
    ensures filter { (text : List ℕ) (f g : Expression) → IsFilter text f → IsFilter text g → f ≡ g }
    ensures leaves { (text : List ℕ) (a b : ℕ) → LeavesAt text a → LeavesAt text b → a ≡ b }
    ensures either { (text : List ℕ) (f : Expression) (at : ℕ) → IsFilter text f → LeavesAt text at → ⊥ }
{}

/// A text spells a filter exactly where it is the filter's tokens with any number of spaces between
/// them and at both ends: at least one between two tokens that are words or numbers.
pub fn spaces_change_nothing()
    ensures spaced { (tokens : List Token) (text : List ℕ) (f : Expression) →
        IsSpaced tokens text → AreFilter tokens f → IsFilter text f }
    ensures only { (text : List ℕ) (f : Expression) → IsFilter text f →
        (tokens : List Token) × IsSpaced tokens text × AreFilter tokens f }
{}
