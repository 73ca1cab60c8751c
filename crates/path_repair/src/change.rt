//! A change of slots.
ghost use Rattle.std.specs.Prelude.{◌≡◌, ◌≢◌, ◌+◌, ◌-◌, ◌*◌, ◌^◌, ◌<◌, ◌≤◌, ℕ, ℤ, Some, None, Option, IsTrue, false, slice_get};
ghost use Rattle.om3_coeff.specs.Spans.{IsProperIfAny, span_of_slot};
ghost use Rattle.whole_number.specs.Range.{IsValue};
ghost use Rattle.om3_coeff.specs.Keys.{first_slot, end_slot};
ghost use Rattle.tree_walk.specs.Trees.{top_of_page};
ghost use Rattle.path_repair.specs.Changes.{new_slot, HasNew};
ghost use Rattle.path_repair.specs.Costs.{is_touched, is_new_root, IsSettled, IsUnsettled};

use om3_coeff::{Key, Span};

/// The slots from `first` on and below `end`, which are to be given values. Where there is no value for
/// them they are cleared.
#[derive(Clone, Copy)]
pub(crate) struct Slots {
    pub(crate) first: u64,
    pub(crate) end: u64,
}

/// A range of 128^level slots, by its index among these, and the height of the tree.
#[derive(Clone, Copy)]
pub(crate) struct Place {
    pub(crate) height: u8,
    pub(crate) level: u8,
    pub(crate) index: u64,
}

/// A page and the span of its range; page 0 where nothing is stored there.
#[derive(Clone, Copy)]
pub(crate) struct Root {
    pub(crate) page: u32,
    pub(crate) span: Option<Span>,
}

impl Place {
    ghost use Rattle.std.specs.Prelude.{◌≡◌, ◌≢◌, ◌+◌, ◌*◌, ◌^◌, ◌<◌, ◌≤◌, IsTrue, true, false, ◌||◌};

    /// The place of a child, 0 to 127, of the page here.
    pub(crate) fn child(self, child: u8) -> Place
        requires level { 1 ≤ self.level }
        requires index { self.index < 2 ^ 35 }
        ensures height { result.height ≡ self.height }
        ensures level { result.level + 1 ≡ self.level }
        ensures index { result.index ≡ 128 * self.index + child }
    {
        Place {
            height: self.height,
            level: self.level - 1,
            index: 128 * self.index + u64::from(child),
        }
    }

    /// The key of its top.
    fn top(self) -> Key
        requires level { self.level ≤ 5 }
        ensures { result ≡ top_of_page self.level self.index }
    {
        Key {
            level: 7 * self.level,
            index: self.index,
        }
    }

    /// Whether one of the slots is in its range.
    #[tactic(auto, unfolding(crate::specs::Costs::is_touched))]
    fn is_touched(self, slots: Slots) -> bool
        requires level { self.level ≤ 5 }
        requires small { end_slot (top_of_page self.level self.index) < 2 ^ 63 }
        ensures { result ≡ is_touched slots.first slots.end self.level self.index }
    {
        let top = self.top();
        slots.first < slots.end && slots.first < top.end() && top.first() < slots.end
    }

    /// Whether the tree gets a new root here.
    #[tactic(auto, unfolding(crate::specs::Costs::is_new_root))]
    pub(crate) fn is_new_root(self) -> bool
        ensures { result ≡ is_new_root self.height self.level self.index }
    {
        self.index == 0 && self.height < self.level
    }

    /// Whether its page is new: there is none, or the tree gets a new root here.
    pub(crate) fn is_new(self, page: u32) -> bool
        ensures old { result ≡ false → (page ≢ 0) × (is_new_root self.height self.level self.index ≡ false) }
        ensures new { page ≢ 0 → is_new_root self.height self.level self.index ≡ false → result ≡ false }
    {
        page == 0 || self.is_new_root()
    }

    /// Whether none of the slots is in its range, and the tree gets no new root here.
    pub(crate) fn is_apart(self, slots: Slots) -> bool
        requires level { self.level ≤ 5 }
        requires small { end_slot (top_of_page self.level self.index) < 2 ^ 63 }
        ensures untouched { IsTrue result → is_touched slots.first slots.end self.level self.index ≡ false }
        ensures no_root { IsTrue result → is_new_root self.height self.level self.index ≡ false }
        ensures passed { result ≡ false → (is_touched slots.first slots.end self.level self.index || is_new_root self.height self.level
            self.index) ≡ true }
    {
        !self.is_touched(slots) && !self.is_new_root()
    }

    /// Whether a slot of its range is given a value.
    fn has_new(self, slots: Slots, values: &[Option<i64>]) -> bool
        requires level { self.level ≤ 5 }
        requires small { end_slot (top_of_page self.level self.index) < 2 ^ 63 }
        ensures some { IsTrue result → HasNew slots.first slots.end values.now (first_slot (top_of_page self.level self.index))
            (end_slot (top_of_page self.level self.index)) }
        ensures none { result ≡ false → HasNew slots.first slots.end values.now (first_slot (top_of_page self.level self.index))
            (end_slot (top_of_page self.level self.index)) → ⊥ }
    {
        let top = self.top();
        let from = top.first().max(slots.first);
        let to = top.end().min(slots.end);
        for slot in from..to {
            if is_value(values, slot - slots.first) {
                return true;
            }
        }
        false
    }

    /// Whether the page here stays as it is.
    pub(crate) fn is_settled(self, page: u32, slots: Slots, values: &[Option<i64>]) -> bool
        requires level { self.level ≤ 5 }
        requires small { end_slot (top_of_page self.level self.index) < 2 ^ 63 }
        ensures settled { IsTrue result → IsSettled page slots.first slots.end values.now self.height self.level self.index }
        ensures unsettled { result ≡ false → IsUnsettled page slots.first slots.end values.now self.height self.level self.index }
    {
        if page == 0 {
            return !self.has_new(slots, values);
        }
        self.is_apart(slots)
    }
}

/// Whether there is a value at this place.
fn is_value(values: &[Option<i64>], at: u64) -> bool
    ensures some { IsTrue result → ((value : ℤ) × (slice_get values.now at ≡ Some (Some value))) }
    ensures none { result ≡ false → (value : ℤ) → slice_get values.now at ≡ Some (Some value) → ⊥ }
{
    match values.get(at as usize) {
        Some(Some(_)) => true,
        _ => false,
    }
}

/// The span of a slot after the change.
#[tactic(auto, unfolding(crate::specs::Changes::new_slot))]
pub(crate) fn slot_after(
    span: Option<Span>,
    slot: u64,
    slots: Slots,
    values: &[Option<i64>],
) -> Option<Span>
    requires span { IsProperIfAny span }
    requires values { (at : ℕ) (value : ℤ) → slice_get values.now at ≡ Some (Some value) → IsValue value }
    ensures span { (old : Option ℤ) → span ≡ span_of_slot old → result ≡ span_of_slot (new_slot slots.first slots.end values.now slot old) }
    ensures proper { IsProperIfAny result }
{
    if slot < slots.first || slot >= slots.end {
        return span;
    }
    match values.get((slot - slots.first) as usize) {
        None => None,
        Some(None) => span,
        Some(Some(value)) => Some(Span {
            min: *value,
            max: *value,
        }),
    }
}

/// Notes that a slot is changed, where its span isn't what it was.
pub(crate) fn note_change(changed: &mut bool, old: Option<Span>, new: Option<Span>)
    ensures was { changed.new ≡ false → changed.old ≡ false }
    ensures same { changed.new ≡ false → new ≡ old }
    ensures idle { changed.old ≡ false → new ≡ old → changed.new ≡ false }
{
    if new != old {
        *changed = true;
    }
}
