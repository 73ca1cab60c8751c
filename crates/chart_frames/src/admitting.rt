// The lengths that frames may have.
ghost use Rattle.std.specs.Prelude.{◌≡◌};
ghost use Rattle.chart_frames.specs.Fields.{is_view_length, is_rows_length, is_catalog_length, is_values_length, is_report_length};
ghost use Rattle.chart_frames.specs.Fields.{is_length, admits};

use crate::limits::{
    CATALOG_LENGTH, EIGHT_LENGTH, LISTED_BYTES, LIVE_LENGTH, MOST_COEFS, MOST_ROWS,
    MOST_VALUES_LENGTH, ONE_VALUE_LENGTH, REFUSED_LENGTH, ROWS_LENGTH, SESSION_LENGTH,
    SWEPT_LENGTH, VALUE_BYTES, VALUES_LENGTH, VIEW_LENGTH,
};
use series_book::limits::MOST_SERIES;

fn is_view_length(length: u32) -> bool
    ensures { result ≡ is_view_length length }
{
    length >= VIEW_LENGTH
        && (length - VIEW_LENGTH) % 25 == 0
        && (length - VIEW_LENGTH) / 25 <= MOST_COEFS
}

fn is_rows_length(length: u32) -> bool
    ensures { result ≡ is_rows_length length }
{
    length >= ROWS_LENGTH
        && (length - ROWS_LENGTH) % 34 == 0
        && (length - ROWS_LENGTH) / 34 <= MOST_ROWS
}

fn is_catalog_length(length: u32) -> bool
    ensures { result ≡ is_catalog_length length }
{
    length >= CATALOG_LENGTH
        && (length - CATALOG_LENGTH) % LISTED_BYTES == 0
        && (length - CATALOG_LENGTH) / LISTED_BYTES <= MOST_SERIES as u32
}

fn is_values_length(length: u32) -> bool
    ensures { result ≡ is_values_length length }
{
    length == VALUES_LENGTH
        || (length >= ONE_VALUE_LENGTH && length <= MOST_VALUES_LENGTH && length % VALUE_BYTES == 0)
}

fn is_report_length(length: u32) -> bool
    ensures { result ≡ is_report_length length }
{
    let of_catalog = is_catalog_length(length);
    let of_values = is_values_length(length);
    length == SWEPT_LENGTH || of_catalog || of_values
}

pub(crate) fn is_length(length: u32) -> bool
    ensures { result ≡ is_length length }
{
    let of_view = is_view_length(length);
    let of_rows = is_rows_length(length);
    let of_report = is_report_length(length);
    length == SESSION_LENGTH
        || length == LIVE_LENGTH
        || length == EIGHT_LENGTH
        || length == REFUSED_LENGTH
        || of_view
        || of_rows
        || of_report
}

#[tactic(auto, unfolding(crate::specs::Fields::admits))]
pub(crate) fn admits(length: u32, kind: u8) -> bool
    ensures { result ≡ admits length kind }
{
    match kind {
        1 => length == EIGHT_LENGTH,
        2 => length == REFUSED_LENGTH,
        3 => length == EIGHT_LENGTH,
        4 => length == SESSION_LENGTH,
        5 => is_view_length(length),
        6 => is_rows_length(length),
        7 => length == LIVE_LENGTH,
        8 => is_catalog_length(length),
        9 => is_values_length(length),
        10 => length == SWEPT_LENGTH,
        _ => false,
    }
}
