//! What follows from the definitions. The function does nothing: its contract is the laws.
ghost use Rattle.std.specs.Prelude.{◌≡◌, ◌↔◌, ℕ, ℤ, List};
ghost use Rattle.retention.specs.declared.rule.Rule.{Rule};
ghost use Rattle.derive_command.specs.declared.request.Request.{Request};
ghost use Rattle.host_lines.specs.declared.asked.HostLine.TheVariants.{List as ListLine, Values, Sum, Sweep};
ghost use Rattle.host_lines.specs.Grammar.{host_line};
ghost use Rattle.host_lines.specs.Spelling.{SpellsList, SpellsSum, SpellsSweep, SpellsValues};

/// A line asks for the list, for values, for a sum or for a step of a sweep exactly where it spells so.
pub fn lines_spell_host_lines()
    ensures list { (line : List ℕ) → (host_line line ≡ ListLine) ↔ SpellsList line }
    ensures values { (line name : List ℕ) (t0 t1 : ℤ) → (host_line line ≡ Values name t0 t1) ↔ SpellsValues name t0 t1 line }
    ensures sum { (line : List ℕ) (n : ℕ) (request : Request) → (host_line line ≡ Sum n request) ↔ SpellsSum n request line }
    ensures sweep { (line : List ℕ) (rule : Rule) → (host_line line ≡ Sweep rule) ↔ SpellsSweep rule line }
{}
