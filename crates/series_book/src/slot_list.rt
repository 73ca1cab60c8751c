ghost use Rattle.std.specs.Prelude.{◌≡◌, ℤ, ◌+◌, ◌-◌, ◌≤◌, ◌++◌, List, length, take, drop, min, Option, IfOk, OnOk, OnErr};
ghost use Rattle.series_book.specs.Edits.{overwritten};
ghost use Rattle.series_book.specs.declared.limits.TheConstants.{MOST_SLOTS};

use std::alloc::AllocError;
use std::marker::Model;

/// The slots of a series, from its start on: each holds a whole number or is missing. They are seen
/// as the list of the slots.
#[derive(Drop)]
pub struct Slots {
    items: Vec<Option<i64>>,
}

impl Model for Slots {
    ghost use Rattle.std.specs.Prelude.{List, Option, ℤ};

    ghost Value = { List (Option ℤ) };

    ghost view = { λ slots. slots.items.items };
}

impl Slots {
    /// These slots.
    pub fn from_vec(items: Vec<Option<i64>>) -> Slots
        ensures { result ≡ items.items }
    {
        Slots { items }
    }

    /// The slots as a slice.
    pub fn as_slice(&self) -> &[Option<i64>]
        ensures { result.now ≡ self.now }
    {
        &self.items
    }

    /// Writes a run from a place on, and gives the slots that it displaced.
    pub(crate) fn put(
        &mut self,
        place: usize,
        run: &[Option<i64>],
    ) -> Result<Vec<Option<i64>>, AllocError>
        requires { place + length run.now ≤ MOST_SLOTS }
        ensures ok { OnOk result (self.new ≡ overwritten self.old place run.now) }
        ensures displaced { IfOk result (λ old. old.items ≡ take (length run.now) (drop place self.old)) }
        ensures err { OnErr result (self.new ≡ self.old) }
    {
        let end = place + run.len();
        let before = self.items.len();
        let alloc = *self.items.allocator();
        let displaced = Vec::from_slice(alloc, &self.items[place.min(before)..end.min(before)])?;
        self.items.resize(before.max(end), None)?;
        overwrite(&mut self.items, place, run);
        Ok(displaced)
    }

    /// Undoes a `put`, given what it displaced and the length before it.
    pub(crate) fn take_back(&mut self, place: usize, displaced: &[Option<i64>], before: usize)
        requires shorter { before ≤ length self.old }
        requires fits { length displaced.now ≤ before - place }
        ensures after { self.new ≡ take (min place before) (take before self.old) ++ displaced.now ++ drop
            (min place before + length displaced.now) (take before self.old) }
        ensures undone { (old run : List (Option ℤ)) → self.old ≡ overwritten old place run
            → displaced.now ≡ take (length run) (drop place old) → before ≡ length old → self.new ≡ old }
    {
        self.items.truncate(before);
        let from = place.min(before);
        overwrite(&mut self.items, from, displaced);
    }
}

/// Writes a run over the slots from a place on.
fn overwrite(slots: &mut [Option<i64>], place: usize, run: &[Option<i64>])
    requires { place + length run.now ≤ length slots.old }
    ensures { slots.new ≡ take place slots.old ++ run.now ++ drop (place + length run.now) slots.old }
{
    let end = place + run.len();
    slots[place..end].copy_from_slice(run);
}
