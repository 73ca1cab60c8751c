//! Where the record of a series stands.
ghost use Rattle.std.specs.Prelude.{◌≡◌, ◌≤◌, ◌<◌};
ghost use Rattle.catalog_page.specs.Places.{page_of, number_of, records_of as count_of_records};

/// The page, 1 to 16, that has the record of the series with this id, 0 to 511.
#[tactic(auto, unfolding(crate::specs::Places::page_of))]
pub fn record_page(id: u16) -> u32
    requires { id < 512 }
    ensures page { result ≡ page_of id }
    ensures some { 1 ≤ result }
    ensures few { result ≤ 16 }
{
    1 + u32::from(id / 32)
}

/// The number of its record in that page, 0 to 31.
#[tactic(auto, unfolding(crate::specs::Places::number_of))]
pub fn record_number(id: u16) -> u8
    ensures number { result ≡ number_of id }
    ensures few { result < 32 }
{
    (id % 32) as u8
}

/// How many records of a page, 1 to 16, are of series where there are so many series, at most 512.
#[tactic(auto, unfolding(crate::specs::Places::records_of))]
pub fn records_of(page: u32, series: u32) -> u8
    requires low { 1 ≤ page }
    requires high { page ≤ 16 }
    requires series { series ≤ 512 }
    ensures count { result ≡ count_of_records page series }
    ensures few { result ≤ 32 }
{
    series.saturating_sub(32 * (page - 1)).min(32) as u8
}
