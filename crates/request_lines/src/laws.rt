//! Which lines are requests. The function does nothing: its contract is the laws.

ghost use Rattle.std.specs.Prelude.{◌≡◌, ◌↔◌, ℕ, List};
ghost use Rattle.request_lines.specs.Requests.{IsRequest};
ghost use Rattle.request_lines.specs.Spelling.{Spells};
ghost use Rattle.request_lines.specs.declared.requests.Request.{Request};

/// A line has a request, token by token, exactly where it spells it, and it spells at most one.
pub fn lines_spell_requests()
    ensures spelt { (line : List ℕ) (request : Request) → IsRequest line request ↔ Spells request line }
    ensures one { (line : List ℕ) (first second : Request) → Spells first line → Spells second line → first ≡ second }
{}
