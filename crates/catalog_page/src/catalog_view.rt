//! A catalog page that keeps its layout.
ghost use Rattle.std.specs.Prelude.{◌≡◌, ◌≤◌};
ghost use Rattle.block_disk.specs.Blocks.{IsBlock};
ghost use Rattle.catalog_page.specs.Layout.{KeepsLayout};

use crate::bad_fields::{bad_record, used_record};
use crate::errors::BadCatalog;
use crate::fields::{bytes_of, record_of};
use crate::layout::KIND;
use crate::rules::is_reserved;
use crate::series_record::Record;

/// The bytes of a catalog page that keeps its layout for so many series and a first page that was never
/// used.
#[derive(Drop)]
pub struct CatalogView<'a> {
    bytes: &'a [u8],
    count: u8,
    fresh: u32,
    ghost whole: { IsBlock bytes.now },
    ghost few: { count ≤ 32 },
    ghost keeps: { KeepsLayout count fresh bytes.now },
}

impl<'a> CatalogView<'a> {
    ghost use Rattle.std.specs.Prelude.{◌≡◌, ◌≤◌, ◌<◌, IfOk, IfErr};
    ghost use Rattle.catalog_page.specs.Entries.{entry_of, entry_at, IsEntry};
    ghost use Rattle.catalog_page.specs.Layout.{KeepsLayout, IsFirstBad};

    /// The page with these bytes, 4,096 of them, whose first `count` records, 0 to 32, are of series,
    /// where `fresh` is the first page that was never used. `BadCatalog` names what first breaks its rule.
    pub fn new(bytes: &'a [u8], count: u8, fresh: u32) -> Result<CatalogView<'a>, BadCatalog>
        requires whole { IsBlock bytes.now }
        requires few { count ≤ 32 }
        ensures bytes { IfOk result (λ view. view.bytes.now ≡ bytes.now) }
        ensures count { IfOk result (λ view. view.count ≡ count) }
        ensures fresh { IfOk result (λ view. view.fresh ≡ fresh) }
        ensures keeps { IfOk result (λ view. KeepsLayout count fresh bytes.now) }
        ensures bad { IfErr result (λ bad. IsFirstBad bad count fresh bytes.now) }
    {
        if bytes[0] != KIND {
            return Err(BadCatalog::Kind);
        }
        if !is_reserved(bytes) {
            return Err(BadCatalog::Reserved);
        }
        if let Some((number, field)) = bad_record(bytes, count, fresh) {
            return Err(BadCatalog::Record { number, field });
        }
        if let Some(number) = used_record(bytes, count) {
            return Err(BadCatalog::Unused { number });
        }
        Ok(CatalogView {
            bytes,
            count,
            fresh,
        })
    }

    /// The page with these bytes, which were found to keep the layout for so many series and this first
    /// page that was never used.
    pub fn of(bytes: &'a [u8], count: u8, fresh: u32) -> CatalogView<'a>
        requires whole { IsBlock bytes.now }
        requires few { count ≤ 32 }
        requires keeps { KeepsLayout count fresh bytes.now }
        ensures bytes { result.bytes.now ≡ bytes.now }
        ensures count { result.count ≡ count }
        ensures fresh { result.fresh ≡ fresh }
    {
        CatalogView {
            bytes,
            count,
            fresh,
        }
    }

    /// How many records are of series, 0 to 32.
    pub fn count(&self) -> u8
        ensures count { result ≡ self.now.count }
        ensures few { result ≤ 32 }
    {
        self.count
    }

    /// What the record of a series says; its number is below `count`.
    pub fn record_at(&self, number: u8) -> Record<'a>
        requires { number < self.now.count }
        ensures entry { entry_of result ≡ entry_at self.now.bytes.now number }
        ensures fit { IsEntry self.now.fresh (entry_of result) }
    {
        record_of(bytes_of(self.bytes, number))
    }
}
