//! What follows from the definitions. The functions do nothing: their contracts are the laws.
ghost use Rattle.std.specs.Prelude.{◌≡◌, ◌<◌, ℕ, None, Ok, List, [], ◌∷◌, ◌++◌, length};
ghost use Rattle.series_book.specs.declared.limits.TheConstants.{MOST_SERIES};
ghost use Rattle.series_book.specs.declared.one_series.Series.{Series};
ghost use Rattle.series_book.specs.declared.edits.Edit.{Edit};
ghost use Rattle.series_book.specs.Books.{IsBook, IsSeries, IsNamed};
ghost use Rattle.series_book.specs.EditLists.{after_edits, edits_give};
ghost use Rattle.series_book.specs.Edits.{Edited, IsEdit, apply, id_of};
ghost use Rattle.series_book.specs.Laws.{OtherSlotsKeepBooks};

/// An accepted edit makes a book of a book.
pub fn accepted_edits_keep_books()
    ensures { (book : List Series) (total : ℕ) (edit : Edit) (edited : Edited) → IsBook book → IsEdit edit → IsNamed edit
        → apply book total edit ≡ Ok edited → IsBook edited.book }
{}

/// A book with other slots in a series is a book, where these are in range.
pub fn other_slots_keep_books()
    ensures { OtherSlotsKeepBooks }
{}

/// A book with a series of a new name behind the others is a book.
pub fn new_series_keep_books()
    ensures { (book : List Series) (series : Series) → IsBook book → IsSeries series → id_of series.name book ≡ None
        → length book < MOST_SERIES → IsBook (book ++ series ∷ []) }
{}

/// Edits behind others are done on the book that those leave.
pub fn edits_go_on()
    ensures books { (t : ℕ) (book : List Series) (first later : List Edit)
        → after_edits t book (first ++ later) ≡ after_edits t (after_edits t book first) later }
    ensures answers { (t : ℕ) (book : List Series) (first later : List Edit)
        → edits_give t book (first ++ later) ≡ edits_give t book first ++ edits_give t (after_edits t book first) later }
{}
