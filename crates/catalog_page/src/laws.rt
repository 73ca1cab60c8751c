//! What follows from the layout. The functions do nothing: their contracts are the laws.

ghost use Rattle.std.specs.Prelude.{◌≡◌, ◌≢◌, ◌<◌, ◌≤◌, ◌+◌, ◌↔◌, ℕ, List};
ghost use Rattle.block_disk.specs.Blocks.{IsBlock};
ghost use Rattle.page_space.specs.Layout.{catalog_page};
ghost use Rattle.catalog_page.specs.Entries.{IsEntry, entry_at};
ghost use Rattle.catalog_page.specs.Layout.{HasRecord, KeepsLayout, IsFirstBad};
ghost use Rattle.catalog_page.specs.Places.{page_of, number_of, records_of};
ghost use Rattle.catalog_page.specs.declared.errors.BadCatalog.{BadCatalog};
ghost use Rattle.catalog_page.specs.Laws.{PagesAreTheirRecords};

/// A page that keeps the layout has no byte but what its records say: one that says the same of as many
/// series is the same.
pub fn pages_are_their_records()
    ensures { PagesAreTheirRecords }
{}

/// What a record of a series says is in range.
pub fn records_say_what_fits()
    ensures { (page : List ℕ) (fresh i : ℕ) → HasRecord fresh page i → IsEntry fresh (entry_at page i) }
{}

/// A page without a series is 4 and zeros.
pub fn blank_pages_have_no_series()
    ensures { (page : List ℕ) (fresh : ℕ) → IsBlock page → KeepsLayout 0 fresh page ↔ (page ≡ catalog_page) }
{}

/// A page keeps its layout while more pages are given out.
pub fn pages_stay_with_more_in_use()
    ensures { (page : List ℕ) (count fresh fresh' : ℕ) → fresh ≤ fresh' → KeepsLayout count fresh page → KeepsLayout count fresh' page }
{}

/// What is named as bad breaks the layout.
pub fn what_is_bad_breaks_the_layout()
    ensures { (page : List ℕ) (count fresh : ℕ) (bad : BadCatalog) → IsFirstBad bad count fresh page → KeepsLayout count fresh page → ⊥ }
{}

/// No two series share a record, and each record of a page from 1 on is one of a series. It is in use
/// exactly where the series is there. With one more series the next record of its page is in use, and of
/// the other pages as many as before.
pub fn series_have_their_records()
    ensures one_series { (s t : ℕ) → page_of s ≡ page_of t → number_of s ≡ number_of t → s ≡ t }
    ensures every_record { (p i : ℕ) → 1 ≤ p → i < 32 → ((s : ℕ) × (page_of s ≡ p) × (number_of s ≡ i)) }
    ensures in_use { (s n : ℕ) → (s < n) ↔ (number_of s < records_of (page_of s) n) }
    ensures next { (n : ℕ) → (records_of (page_of n) n ≡ number_of n) × (records_of (page_of n) (n + 1) ≡ number_of n + 1) }
    ensures others { (n p : ℕ) → 1 ≤ p → p ≢ page_of n → records_of p (n + 1) ≡ records_of p n }
{}
