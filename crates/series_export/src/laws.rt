//! What follows from the definitions. The functions do nothing: their contracts are the laws.
ghost use Rattle.std.specs.Prelude.{◌≡◌, ◌≤◌, ℕ, List, [], length, Option, None};
ghost use Rattle.series_book.specs.declared.one_series.Series.{Series};
ghost use Rattle.series_book.specs.Books.{IsSeries};
ghost use Rattle.series_book.specs.Pages.{series_pages};
ghost use Rattle.series_book.specs.declared.limits.TheConstants.{MOST_SLOTS};
ghost use Rattle.series_load.specs.Rows.{Reading, ReadsRows};
ghost use Rattle.series_export.specs.Exports.{export_text, window_pages};
ghost use Rattle.series_export.specs.RoundTrips.{HoldsSame};
ghost use Rattle.series_export.specs.Room.{HasRoomFor, AcceptsRunsOf, LoadsBack};
ghost use Rattle.series_export.specs.declared.window.Window.{Window};
ghost use Rattle.series_export.specs.Laws.{SetsHoldTheSame, RowsAreTheValues, LoadedExportsAreTheSame, RoomIsNeeded, ExportsGoThrough};
ghost use Rattle.series_export.specs.Laws.{PiecesAreTheExport, PiecesAreTheWholeExport};

use csv_load::laws::{one_answer, plain_lines};
use reading_lines::laws::{lines_are_plain, lines_are_read_back};
use series_load::laws::runs_are_one;

/// The sets that a load makes of rows that read a series' stored values give a new series of the same start,
/// step and scale the same values at the same slots; and the export of a series that holds the same is the
/// same text.
pub fn loads_hold_the_same()
    ensures sets { SetsHoldTheSame }
    ensures text { (series after : Series) (window : Option Window) → HoldsSame series after
        → export_text after window ≡ export_text series window }
{}

/// A load reads the export of a series as rows whose readings are the series' stored values at their times,
/// and there are such rows: all its lines are rows. So a load of the whole export into a new series of the same
/// start, step and scale gives it the same values at the same slots.
pub fn exports_are_read_back()
    ensures rows { RowsAreTheValues }
    ensures reads { (series : Series) → IsSeries series → (rows : List (Option Reading))
        × ReadsRows series.scale (export_text series None) (export_text series None) [] rows }
    ensures loaded { LoadedExportsAreTheSame }
{
    lines_are_plain();
    lines_are_read_back();
    one_answer();
    plain_lines();
}

/// In a store with room a load of a series' export into a new series of the same start, step and scale reads no bad line,
/// and each of its sets is accepted; then that one holds the same values at the same slots, and its export is the same text. The sets
/// are accepted of any rows that read the series' stored values, and that room is needed for it.
pub fn exports_load_where_there_is_room()
    ensures sets { (total : ℕ) (name : List ℕ) (book : List Series) (series : Series) → IsSeries series → HasRoomFor total name book series
        → AcceptsRunsOf total name book series }
    ensures needed { RoomIsNeeded }
    ensures back { (total : ℕ) (name : List ℕ) (book : List Series) (series : Series) → IsSeries series → HasRoomFor total name book series
        → LoadsBack total name book series }
    ensures through { ExportsGoThrough }
{
    lines_are_plain();
    lines_are_read_back();
    one_answer();
    plain_lines();
    runs_are_one();
}

/// Pieces of a window, each asked for from where the one before it ends, have all its values: of them comes the
/// export of the window, line by line.
pub fn pieces_are_the_export()
    ensures window { PiecesAreTheExport }
    ensures whole { PiecesAreTheWholeExport }
{}

/// The pages of a series' tree that an export in a window reads are no more than the tree has.
pub fn windows_have_no_more_pages()
    ensures { (series : Series) (window : Option Window) → length series.slots ≤ MOST_SLOTS
        → window_pages series window ≤ series_pages series.slots }
{}
