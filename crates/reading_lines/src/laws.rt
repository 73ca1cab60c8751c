//! What follows from the definitions, in plain words. The functions do nothing: their contracts are the laws.

ghost use Rattle.std.specs.Prelude.{ℕ, ℤ, ◌<◌, ◌≤◌, ◌^◌, unsigned_abs, length, All};
ghost use Rattle.std.specs.Int.{IsInRange};
ghost use Rattle.csv_load.specs.Rows.{Says};
ghost use Rattle.csv_load.specs.declared.row.Row.TheVariants.{Point};
ghost use Rattle.reading_lines.specs.Lines.{reading_row, reading_line};
ghost use Rattle.reading_lines.specs.Laws.{LinesTellOneReading, SeriesLinesAreWords, LinesTellOneSeries};

use csv_load::laws::{one_answer, plain_lines};

/// The line of a reading, without its line feed, says that reading to csv_load, whatever the scale; and two readings of one scale
/// that have the same line are the same.
pub fn lines_are_read_back()
    ensures reading { (scale : ℕ) (time value : ℤ) → unsigned_abs time < 10 ^ 19 → unsigned_abs value < 10 ^ 19 →
        Says scale (reading_row scale time value) (Point time value) }
    ensures one_reading { LinesTellOneReading }
{
    plain_lines();
    one_answer();
}

/// In front of its line feed the line of a reading has only bytes from the comma to the digit 9, so no other line feed and no
/// carriage return; with at most 9 decimals it has at most 52 bytes.
pub fn lines_are_plain()
    ensures bytes { (scale : ℕ) (time value : ℤ) → unsigned_abs time < 10 ^ 19 → unsigned_abs value < 10 ^ 19 →
        All (λ byte. IsInRange 44 57 byte) (reading_row scale time value) }
    ensures short { (scale : ℕ) (time value : ℤ) → scale ≤ 9 → unsigned_abs time < 10 ^ 19 → unsigned_abs value < 10 ^ 19 →
        length (reading_line scale time value) ≤ 52 }
{}

/// Cut at its spaces, the line of a series without its line feed is its name, start, step, scale and number of slots; and two series
/// with the same line are told the same.
pub fn series_lines_are_words()
    ensures words { SeriesLinesAreWords }
    ensures one_series { LinesTellOneSeries }
{}
