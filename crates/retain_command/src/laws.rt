//! What follows from the definitions. The function does nothing: its contract is the law.
ghost use Rattle.std.specs.Prelude.{◌≡◌, ℕ, List};
ghost use Rattle.retention.specs.declared.rule.Rule.{Rule};
ghost use Rattle.retain_command.specs.Rules.{Spells};

/// A line spells one rule at most.
pub fn lines_spell_one_rule()
    ensures { (line : List ℕ) (first second : Rule) → Spells first line → Spells second line → first ≡ second }
{}
