//! What follows from the definitions, in plain words. The functions do nothing: their contracts are the laws.

ghost use Rattle.std.specs.Prelude.{◌≡◌, ◌≢◌, ℕ, List, ◌∷◌, slice_index};
ghost use Rattle.csv_load.specs.Rows.{Says, Fails};
ghost use Rattle.csv_load.specs.declared.row.Row.{Row};
ghost use Rattle.csv_load.specs.declared.row.RowCause.{RowCause};
ghost use Rattle.csv_load.specs.Fields.{fields_of_line};
ghost use Rattle.csv_load.specs.Laws.{PlainLinesHaveTwoFields, CarriageReturnsAreDropped};

/// A line of a text, a comma and a text is these two fields, where neither has a comma, a double
/// quote or a line end in it; a carriage return behind it changes nothing, nor does a byte order mark
/// in front of it.
pub fn plain_lines()
    ensures fields { PlainLinesHaveTwoFields }
    ensures carriage_return { CarriageReturnsAreDropped }
    ensures mark { (line : List ℕ) → slice_index line 0 ≢ 0xEF →
        fields_of_line (0xEF ∷ 0xBB ∷ 0xBF ∷ line) ≡ fields_of_line line }
{}

/// A line says one row at the most, and one that says a row doesn't fail; of one that fails there is
/// one first thing that is wrong.
pub fn one_answer()
    ensures row { (scale : ℕ) (line : List ℕ) (row other : Row) → Says scale line row → Says scale line other → row ≡ other }
    ensures either { (scale : ℕ) (line : List ℕ) (row : Row) (cause : RowCause) → Says scale line row → Fails scale line cause → ⊥ }
    ensures cause { (scale : ℕ) (line : List ℕ) (cause other : RowCause) → Fails scale line cause → Fails scale line other → cause ≡ other }
{}
