//! Pages with their superblock.
ghost use Rattle.std.specs.Prelude.{◌≡◌};
ghost use Rattle.page_space.specs.Copies.{copies_in, AreCopiesOf};
ghost use Rattle.page_space.specs.Layout.{superblock_page, IsSuperblock};

use crate::page_cache::PageCache;
use crate::superblock::Superblock;
use gate_pages::Pages;

/// Pages with a superblock, and a cache of them. They change by commits of transactions alone.
#[derive(Drop)]
pub struct Space<P: Pages> {
    pub(crate) pages: P,
    pub(crate) superblock: Superblock,
    pub(crate) cache: PageCache,
    ghost rules: { IsSuperblock (P.view pages).size superblock },
    ghost spelled: { (P.view pages).fit → P.told pages → (P.view pages).image 0 ≡ superblock_page superblock },
    ghost copied: { (P.view pages).fit → P.told pages → AreCopiesOf (P.view pages).image (copies_in cache) },
}
