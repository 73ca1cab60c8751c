ghost use Rattle.std.specs.Prelude.{◌≡◌, ◌↔◌, [], ◌∷◌, ℤ, IsTrue, IfSome, IfNone, Some};
ghost use Rattle.whole_number.specs.Range.{IsValue};
ghost use Rattle.chart_program.specs.Slots.{IsEntry, SpellsSlot};

use whole_number::integer;
use whole_number::limits::GREATEST_VALUE;

/// What a line of the input says.
#[derive(Clone, Copy)]
pub enum Entry {
    /// Nothing: the line is empty.
    Nothing,
    /// A slot, which holds a value or is missing.
    Slot(Option<i64>),
    /// The line isn't in the grammar.
    Bad,
}

/// Reads a line: a whole number of at most 10^18 in size, or `-` for a missing slot.
pub fn entry_of(line: &[u8]) -> Entry
    ensures { IsEntry line.now result }
{
    if line.is_empty() {
        return Entry::Nothing;
    }
    if is_missing(line) {
        return Entry::Slot(None);
    }
    match value_of(line) {
        Some(value) => Entry::Slot(Some(value)),
        None => Entry::Bad,
    }
}

/// The whole number of at most 10^18 in size that the line spells.
fn value_of(line: &[u8]) -> Option<i64>
    ensures found { IfSome result (λ v. SpellsSlot (Some line.now) (Some v)) }
    ensures none { IfNone result ((v : ℤ) → SpellsSlot (Some line.now) (Some v) → ⊥) }
{
    let number = integer(line)?;
    if !is_value(number) {
        return None;
    }
    Some(number as i64)
}

/// Whether a series may hold the number.
fn is_value(number: i128) -> bool
    ensures { IsTrue result ↔ IsValue number }
{
    number.unsigned_abs() <= u128::from(GREATEST_VALUE)
}

/// Whether the line is that of a missing slot.
fn is_missing(line: &[u8]) -> bool
    ensures { IsTrue result ↔ (line.now ≡ 45 ∷ []) }
{
    line.len() == 1 && line[0] == b'-'
}
