//! What follows from the definitions. The functions do nothing: their contracts are the laws.
ghost use Rattle.std.specs.Prelude.{◌≡◌, ℕ, ℤ, ◌+◌, ◌-◌, ◌<◌, ◌≤◌, ◌<ℤ◌, ◌↔◌, List, [], ◌∷◌, None, Some, drop, length};
ghost use Rattle.series_book.specs.declared.one_series.Series.{Series};
ghost use Rattle.series_book.specs.Books.{IsBook};
ghost use Rattle.series_book.specs.EditLists.{book_behind};
ghost use Rattle.series_book.specs.Edits.{apply};
ghost use Rattle.series_book.specs.Pages.{pages_of};
ghost use Rattle.retention.specs.declared.rule.Rule.{Rule};
ghost use Rattle.retention.specs.declared.rule.Rule.TheVariants.{Before, Last, Free};
ghost use Rattle.retention.specs.Drops.{AreAccepted, ForNamed, HasFree, HoldsNothing, IsOldest, LosesIn, book_stepped, book_swept};
ghost use Rattle.retention.specs.Sweeps.{Found, clear_page, oldest, slot_time, slots_before, sweeps};

/// Each clear of a rule is accepted, one after the other, and leaves a book.
pub fn clears_are_accepted()
    ensures accepted { (total : ℕ) (book : List Series) (rule : Rule) → IsBook book → AreAccepted total book (sweeps total book rule) }
    ensures books { (total : ℕ) (book : List Series) (rule : Rule) → IsBook book → IsBook (book_swept total book rule) }
{}

/// The slots before a time are those whose time is below it; as many stand before the time of a slot as before it.
pub fn slots_before_a_time()
    ensures earlier { (series : Series) (time : ℤ) (slot : ℕ) → slot < length series.slots
        → (slot < slots_before series time) ↔ (slot_time series slot <ℤ time) }
    ensures slot { (series : Series) (n : ℕ) → 1 ≤ series.step → n ≤ length series.slots → slots_before series (slot_time series n) ≡ n }
{}

/// Behind the clears before a time the series has no value before it, and all other slots and series are as they were. So
/// it is of all but the last slots, which are those before a time.
pub fn old_slots_are_lost()
    ensures before { (time : ℤ) → ForNamed (λ total book name id series. LosesIn (λ one slot. slot_time one slot <ℤ time) id book
        (book_swept total book (Before name time))) }
    ensures last { (count : ℕ) → ForNamed (λ total book name id series. LosesIn (λ one slot. slot + count < length one.slots) id book
        (book_swept total book (Last name count))) }
    ensures same { (count : ℕ) → ForNamed (λ total book name id series. sweeps total book (Last name count) ≡ sweeps total book
        (Before name (slot_time series (length series.slots - count)))) }
{}

/// Behind the clears that free pages so many are free, or nothing is stored.
pub fn pages_are_freed()
    ensures { (total pages : ℕ) (book : List Series) → IsBook book → HasFree total pages (book_swept total book (Free pages)) }
{}

/// The slot that the next of them clears is the oldest that is stored; none is where nothing is stored.
pub fn the_oldest_slot()
    ensures some { (book : List Series) (found : Found) → oldest book ≡ Some found → IsOldest book found }
    ensures none { (book : List Series) → oldest book ≡ None → HoldsNothing book }
{}

/// The clears that free pages, from the first on: none where so many are free or nothing is stored, and else that of the
/// range of the oldest slot, with those that the book behind it makes.
pub fn free_goes_on()
    ensures enough { (total pages : ℕ) (book : List Series) → pages ≤ total - pages_of book → sweeps total book (Free pages) ≡ [] }
    ensures nothing { (total pages : ℕ) (book : List Series) → oldest book ≡ None → sweeps total book (Free pages) ≡ [] }
    ensures next { (total pages : ℕ) (book : List Series) (found : Found) → IsBook book → total - pages_of book < pages
        → oldest book ≡ Some found
        → sweeps total book (Free pages) ≡ clear_page found ∷ sweeps total (book_behind book (apply book total (clear_page found)))
        (Free pages) }
{}

/// Steps put together are the sweep: behind some first clears the rule makes the later ones of the same list, two steps come
/// to one of as many clears, and one that isn't cut is the sweep.
pub fn steps_go_on()
    ensures rest { (total : ℕ) (book : List Series) (rule : Rule) (most : ℕ) → IsBook book
        → sweeps total (book_stepped total book rule most) rule ≡ drop most (sweeps total book rule) }
    ensures together { (total : ℕ) (book : List Series) (rule : Rule) (first second : ℕ) → IsBook book
        → book_stepped total (book_stepped total book rule first) rule second ≡ book_stepped total book rule (first + second) }
    ensures all { (total : ℕ) (book : List Series) (rule : Rule) (most : ℕ) → length (sweeps total book rule) ≤ most
        → book_stepped total book rule most ≡ book_swept total book rule }
    ensures books { (total : ℕ) (book : List Series) (rule : Rule) (most : ℕ) → IsBook book → IsBook (book_stepped total book rule most) }
{}
