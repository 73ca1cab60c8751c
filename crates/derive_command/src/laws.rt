//! What follows from the definitions. The functions do nothing: their contracts are the laws.
ghost use Rattle.std.specs.Prelude.{◌≡◌, ◌⊎◌, ℕ, List};
ghost use Rattle.series_book.specs.declared.one_series.Series.{Series};
ghost use Rattle.derive_command.specs.Answers.{HaveSteps, IsAnswer, IsRefused};
ghost use Rattle.derive_command.specs.Requests.{Spells};
ghost use Rattle.derive_command.specs.declared.derive_refusal.DeriveRefusal.{DeriveRefusal};
ghost use Rattle.derive_command.specs.declared.request.Request.{Request};

use derived_chart::laws::kept_sums_are_the_samples;
use series_pair::laws::charts_are_one;

/// A line spells one request at most.
pub fn lines_spell_one_request()
    ensures { (line : List ℕ) (first second : Request) → Spells first line → Spells second line → first ≡ second }
{}

/// A request has one answer at most, or is refused, for one reason.
pub fn requests_have_one_answer()
    ensures answer { (book : List Series) (request : Request) (one other : List ℕ) → IsAnswer book request one → IsAnswer book request other
        → one ≡ other }
    ensures refusal { (book : List Series) (request : Request) (one other : DeriveRefusal) → IsRefused book request one
        → IsRefused book request other → one ≡ other }
    ensures apart { (book : List Series) (request : Request) (text : List ℕ) (why : DeriveRefusal) → IsAnswer book request text
        → IsRefused book request why → ⊥ }
{
    charts_are_one();
}

/// A request that isn't refused has an answer, over any book whose series have a step.
pub fn requests_have_an_answer()
    ensures { (book : List Series) (request : Request) → HaveSteps book → ((why : DeriveRefusal) × IsRefused book request why)
        ⊎ ((text : List ℕ) × IsAnswer book request text) }
{
    kept_sums_are_the_samples();
}
