//! A line is read as a rule.
ghost use Rattle.std.specs.Prelude.{◌≡◌, ◌<◌, ◌∷◌, [], ℕ, ℤ, List, None, Some, Err, codes, IsTrue, IfOk};
ghost use Rattle.series_book.specs.Names.{is_name};
ghost use Rattle.whole_number.specs.Spelling.{SpellsInteger, SpellsNatural};
ghost use Rattle.request_lines.specs.Tokens.{tokens};
ghost use Rattle.retention.specs.declared.rule.Rule.{Rule as RuleSaid};
ghost use Rattle.retain_command.specs.Rules.{Spells, SpellsWords};

use crate::rule_error::RuleError;
use request_lines::tokens::cut;
use retention::Rule;
use series_book::{Name, NameError};
use std::alloc::Global;
use whole_number::{integer, natural};

/// The rule that a line spells: `before NAME T`, `last NAME COUNT` or `free PAGES`. `NoRule` comes exactly
/// where it spells none.
pub fn rule_of(alloc: Global, line: &[u8]) -> Result<Rule, RuleError>
    ensures spelt { IfOk result (λ rule. Spells rule line.now) }
    ensures none { result ≡ Err RuleError.NoRule → (rule : RuleSaid) → Spells rule line.now → ⊥ }
{
    let Some((word, rest)) = cut(line) else {
        return Err(RuleError::NoRule);
    };
    if word == b"before".as_slice() {
        return before(alloc, rest);
    }
    if word == b"last".as_slice() {
        return last(alloc, rest);
    }
    if word == b"free".as_slice() {
        return free(rest);
    }
    Err(RuleError::NoRule)
}

/// The name and the last token, where there are these two.
fn named(alloc: Global, bytes: &[u8]) -> Result<(Name, &[u8]), RuleError>
    ensures two { IfOk result (λ parts. tokens bytes.now ≡ parts.0 ∷ parts.1.now ∷ []) }
    ensures name { IfOk result (λ parts. IsTrue (is_name parts.0)) }
    ensures none { result ≡ Err RuleError.NoRule → (name number : List ℕ) → tokens bytes.now ≡ name ∷ number ∷ [] → IsTrue (is_name name)
        → ⊥ }
{
    let Some((name, number)) = cut(bytes) else {
        return Err(RuleError::NoRule);
    };
    if cut(number).is_some() {
        return Err(RuleError::NoRule);
    }
    match Name::new(alloc, name) {
        Ok(name) => Ok((name, number)),
        Err(NameError::NotAName) => Err(RuleError::NoRule),
        Err(NameError::NoMemory) => Err(RuleError::NoMemory),
    }
}

/// The rule of the tokens behind `before`.
fn before(alloc: Global, bytes: &[u8]) -> Result<Rule, RuleError>
    ensures spelt { IfOk result (λ rule. SpellsWords rule (codes "before" ∷ tokens bytes.now)) }
    ensures none { result ≡ Err RuleError.NoRule → (name number : List ℕ) (time : ℤ) → tokens bytes.now ≡ name ∷ number ∷ []
        → IsTrue (is_name name) → SpellsInteger number time → ⊥ }
{
    match named(alloc, bytes) {
        Ok((name, number)) => match integer(number) {
            Some(time) => Ok(Rule::Before { name, time }),
            None => Err(RuleError::NoRule),
        },
        Err(error) => Err(error),
    }
}

/// The rule of the tokens behind `last`.
fn last(alloc: Global, bytes: &[u8]) -> Result<Rule, RuleError>
    ensures spelt { IfOk result (λ rule. SpellsWords rule (codes "last" ∷ tokens bytes.now)) }
    ensures none { result ≡ Err RuleError.NoRule → (name number : List ℕ) (count : ℕ) → tokens bytes.now ≡ name ∷ number ∷ []
        → IsTrue (is_name name) → SpellsNatural number count → ⊥ }
{
    match named(alloc, bytes) {
        Ok((name, number)) => match natural(number) {
            Some(count) => Ok(Rule::Last { name, count }),
            None => Err(RuleError::NoRule),
        },
        Err(error) => Err(error),
    }
}

/// The rule of the token behind `free`.
fn free(bytes: &[u8]) -> Result<Rule, RuleError>
    ensures spelt { IfOk result (λ rule. SpellsWords rule (codes "free" ∷ tokens bytes.now)) }
    ensures none { result ≡ Err RuleError.NoRule → (number : List ℕ) (pages : ℕ) → tokens bytes.now ≡ number ∷ []
        → SpellsNatural number pages → ⊥ }
{
    if cut(bytes).is_some() {
        return Err(RuleError::NoRule);
    }
    match natural(bytes) {
        Some(pages) => Ok(Rule::Free { pages }),
        None => Err(RuleError::NoRule),
    }
}
