//! What becomes of pages. The functions do nothing: their contracts are the laws.
ghost use Rattle.std.specs.Prelude.{◌≡◌, ◌≢◌, ◌≤◌, ◌<◌, ◌+◌, ◌*◌, ◌⊎◌, ℕ, List, slice_index};
ghost use Rattle.block_disk.specs.Blocks.{IsBlock};
ghost use Rattle.block_disk.specs.View.{Image};
ghost use Rattle.catalog_page.specs.Fields.{record_bytes};
ghost use Rattle.page_space.specs.Layout.{HasMagic};
ghost use Rattle.store_upgrade.specs.OldStores.{HasOldMagic, IsInUse};
ghost use Rattle.store_upgrade.specs.Upgraded.{levels_of, upgraded_page, current};

/// Pages of version 2 are as they are, and so are pages of no store.
pub fn other_pages_are_current()
    ensures same { (image : Image) → (HasOldMagic (image 0) → ⊥) → current image ≡ image }
    ensures apart { (page : List ℕ) → HasMagic page → HasOldMagic page → ⊥ }
    ensures either { (image : Image) → HasMagic (current image 0) → HasMagic (image 0) ⊎ HasOldMagic (image 0) }
{}

/// Pages of version 1 get the magic of version 2, for good, and those behind the catalog stay.
pub fn old_pages_become_current()
    ensures first { (image : Image) → HasOldMagic (image 0) → HasMagic (current image 0) }
    ensures behind { (image : Image) (p : ℕ) → 17 ≤ p → current image p ≡ image p }
    ensures once { (image : Image) → current (current image) ≡ current image }
{}

/// A page of the catalog gets the kind of version 2, and each record in use the levels of its slots. All other bytes stay.
pub fn records_get_their_levels()
    ensures kind { (page : List ℕ) → IsBlock page → slice_index (upgraded_page page) 0 ≡ 4 }
    ensures levels { (page : List ℕ) (i : ℕ) → IsBlock page → i < 32 → IsInUse (record_bytes page i)
        → slice_index (upgraded_page page) (88 + 96 * i) ≡ levels_of page i }
    ensures rest { (page : List ℕ) (k : ℕ) → k ≢ 0 → ((i : ℕ) → i < 32 → k ≡ 88 + 96 * i → IsInUse (record_bytes page i) → ⊥)
        → slice_index (upgraded_page page) k ≡ slice_index page k }
{}
