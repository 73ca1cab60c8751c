//! The laws.
ghost use Rattle.std.specs.Prelude.{◌≡◌, ◌≤◌, ◌<◌, ◌^◌, [], ℕ, List};
ghost use Rattle.block_disk.specs.View.{Image};
ghost use Rattle.gate_pages.specs.GatePages.{IsReadable};
ghost use Rattle.page_space.specs.declared.superblock.Superblock.{Superblock};
ghost use Rattle.page_space.specs.Firsts.{empty_over};
ghost use Rattle.page_space.specs.Layout.{HasMagic, superblock_page, in_use, IsSmall};
ghost use Rattle.series_book.specs.declared.one_series.Series.{Series};
ghost use Rattle.series_book.specs.Pages.{pages_of};
ghost use Rattle.empty_store.specs.Stores.{IsEmptyStore, IsNewStore};
ghost use Rattle.store_upgrade.specs.Upgraded.{current};
ghost use Rattle.stored_book.specs.Books.{book_of};
ghost use Rattle.stored_book.specs.Standing.{IsStore, PagesStand, StandsForBook, RecoversTo};
ghost use Rattle.stored_book.specs.Changing.{IsSameImage};
ghost use Rattle.stored_book.specs.OneSeries.{BooksHoldTheirSeries, NamesHaveOneSeries};
ghost use Rattle.stored_book.specs.Laws.{SeriesHaveTheirTrees, ChangedSeriesStand, AddedSeriesStand, FullTreesAreFullBooks};

/// Pages stand for one book alone, with one total.
pub fn pages_stand_for_one_book()
    ensures total { (image : Image) (total total' : ℕ) (book book' : List Series) → StandsForBook image total book
        → StandsForBook image total' book' → total' ≡ total }
    ensures book { (image : Image) (total total' : ℕ) (book book' : List Series) → StandsForBook image total book
        → StandsForBook image total' book' → book' ≡ book }
{}

/// Pages that stand for a book tell that book.
pub fn pages_tell_their_book()
    ensures { (image : Image) (total : ℕ) (book : List Series) → StandsForBook image total book → book_of image ≡ book }
{}

/// The image of a disk stands for one book alone.
pub fn images_recover_to_one_book()
    ensures total { (count : ℕ) (image : Image) (total total' : ℕ) (book book' : List Series) → RecoversTo count image total book
        → RecoversTo count image total' book' → total' ≡ total }
    ensures book { (count : ℕ) (image : Image) (total total' : ℕ) (book book' : List Series) → RecoversTo count image total book
        → RecoversTo count image total' book' → book' ≡ book }
{}

/// Pages that stand for a book have the magic of version 2, so they are current. An image whose pages stand for a book
/// recovers to it.
pub fn books_stand_on_current_pages()
    ensures magic { (image : Image) (total : ℕ) (book : List Series) → StandsForBook image total book → HasMagic (image 0) }
    ensures current { (image : Image) (total : ℕ) (book : List Series) → StandsForBook image total book → current image ≡ image }
    ensures recovers { (count : ℕ) (image : Image) (total : ℕ) (book : List Series) → IsReadable count image → total ≤ count
        → PagesStand count image total book → RecoversTo count image total book }
{}

/// Page 0 decides the numbers with which pages stand.
pub fn page_0_has_the_numbers()
    ensures { (image : Image) (total : ℕ) (book : List Series) (s : Superblock) → StandsForBook image total book
        → image 0 ≡ superblock_page s → IsSmall s → IsStore image s book × (s.total ≡ total) }
{}

/// The pages in use are as many as the book needs, which are no more than there are.
pub fn pages_in_use_are_those_of_the_book()
    ensures count { (image : Image) (s : Superblock) (book : List Series) → IsStore image s book → in_use s ≡ pages_of book }
    ensures few { (image : Image) (total : ℕ) (book : List Series) → StandsForBook image total book → pages_of book ≤ total }
{}

/// The first pages of a store stand for a book without a series, and so does a disk with an empty store.
pub fn empty_stores_have_no_series()
    ensures pages { (count : ℕ) (image : Image) → 62 ≤ count → count < 2 ^ 32 → StandsForBook (empty_over count image) count [] }
    ensures empty { (count : ℕ) (image : Image) → 62 ≤ count → count < 2 ^ 32 → IsEmptyStore count image → StandsForBook image count [] }
    ensures disk { (count : ℕ) (image : Image) → 62 ≤ count → count < 2 ^ 32 → IsNewStore count image → RecoversTo count image count [] }
{}

/// The same pages stand for the same book.
pub fn same_pages_stand()
    ensures { (old new : Image) (s : Superblock) (book : List Series) → IsSameImage old new → IsStore old s book → IsStore new s book }
{}

/// Where pages stand for a book, each series has a tree, beside which the pages of the others are in use.
pub fn series_have_their_trees()
    ensures { SeriesHaveTheirTrees }
{}

/// Pages that stand for a book hold each of its series by itself. Whatever else they are, they hold one of a name at most.
pub fn books_hold_their_series()
    ensures each { BooksHoldTheirSeries }
    ensures one { NamesHaveOneSeries }
{}

/// Where the tree of a series is changed and then its record, the pages stand for the book with the changed series.
pub fn changed_series_stand()
    ensures { ChangedSeriesStand }
{}

/// Where page 0 counts a series more, and its record stands behind the others, the pages stand for the book with it.
pub fn added_series_stand()
    ensures { AddedSeriesStand }
{}

/// Where a tree isn't changed for want of pages, the changed book needs so many.
pub fn full_trees_are_full_books()
    ensures { FullTreesAreFullBooks }
{}
