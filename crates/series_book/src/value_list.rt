ghost use Rattle.std.specs.Prelude.{◌≡◌, false, All, IfOk};
ghost use Rattle.std.specs.List.{list_any};
ghost use Rattle.series_book.specs.Edits.{is_too_large};

use std::alloc::AllocError;
use std::marker::Model;

/// The values that an edit brings: each is a whole number or missing. They are seen as the list of
/// the values. They may be larger than what a slot holds, and an edit refuses those that are.
#[derive(Drop)]
pub struct Values {
    items: Vec<Option<i128>>,
}

impl Model for Values {
    ghost use Rattle.std.specs.Prelude.{List, Option, ℤ};

    ghost Value = { List (Option ℤ) };

    ghost view = { λ values. values.items.items };
}

impl Values {
    /// These values.
    pub fn from_vec(items: Vec<Option<i128>>) -> Values
        ensures { result ≡ items.items }
    {
        Values { items }
    }

    /// The values as a slice.
    pub fn as_slice(&self) -> &[Option<i128>]
        ensures { result.now ≡ self.now }
    {
        &self.items
    }

    /// The values as slots.
    pub fn to_slots(&self) -> Result<Vec<Option<i64>>, AllocError>
        requires { list_any is_too_large self.now ≡ false }
        ensures slots { IfOk result (λ slots. slots.items ≡ self.now) }
        ensures in_range { IfOk result (λ slots. All (λ value. is_too_large value ≡ false) slots.items) }
    {
        let alloc = *self.items.allocator();
        let mut slots = Vec::with_capacity(alloc, self.items.len())?;
        for value in &self.items {
            slots.push(narrowed(*value))?;
        }
        Ok(slots)
    }
}

/// A value that a slot can hold.
fn narrowed(value: Option<i128>) -> Option<i64>
    requires { is_too_large value ≡ false }
    ensures { result ≡ value }
{
    value.map(|value| value as i64)
}
