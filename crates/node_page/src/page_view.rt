//! A tree page that keeps its layout.
ghost use Rattle.std.specs.Prelude.{◌≡◌};
ghost use Rattle.block_disk.specs.Blocks.{IsBlock};
ghost use Rattle.node_page.specs.Layout.{KeepsLayout};

use crate::errors::BadPage;
use crate::fields::{child_of, coef_of};
use crate::layout::KIND;
use crate::rules::{are_children, are_differences, are_flags, has_level, is_reserved};
use om3_coeff::Coef;

/// The bytes of a tree page that keeps its layout.
#[derive(Drop)]
pub struct PageView<'a> {
    bytes: &'a [u8],
    ghost whole: { IsBlock bytes.now },
    ghost keeps: { KeepsLayout bytes.now },
}

impl<'a> PageView<'a> {
    ghost use Rattle.std.specs.Prelude.{◌≡◌, ◌≤◌, ◌<◌, IfOk, IfErr};
    ghost use Rattle.node_page.specs.Fields.{level_at, coef_at, child_at};
    ghost use Rattle.node_page.specs.Layout.{KeepsLayout, IsFirstBad, HasDifferences};

    /// The page with these bytes, 4,096 of them. `BadPage` names the first field that breaks its rule.
    pub fn new(bytes: &'a [u8]) -> Result<PageView<'a>, BadPage>
        requires whole { IsBlock bytes.now }
        ensures bytes { IfOk result (λ view. view.bytes.now ≡ bytes.now) }
        ensures keeps { IfOk result (λ view. KeepsLayout bytes.now) }
        ensures bad { IfErr result (λ field. IsFirstBad field bytes.now) }
    {
        if bytes[0] != KIND {
            return Err(BadPage::Kind);
        }
        if !has_level(bytes) {
            return Err(BadPage::Level);
        }
        if !is_reserved(bytes) {
            return Err(BadPage::Reserved);
        }
        if !are_flags(bytes) {
            return Err(BadPage::Flags);
        }
        if !are_differences(bytes) {
            return Err(BadPage::Differences);
        }
        if !are_children(bytes) {
            return Err(BadPage::Children);
        }
        Ok(PageView { bytes })
    }

    /// The page with these bytes, which were found to keep the layout.
    pub fn of(bytes: &'a [u8]) -> PageView<'a>
        requires whole { IsBlock bytes.now }
        requires keeps { KeepsLayout bytes.now }
        ensures bytes { result.bytes.now ≡ bytes.now }
    {
        PageView { bytes }
    }

    /// The page level, 1 to 5.
    #[tactic(auto, unfolding(crate::specs::Fields::level_at))]
    pub fn level(&self) -> u8
        ensures level { result ≡ level_at self.now.bytes.now }
        ensures some { 1 ≤ result }
        ensures few { result ≤ 5 }
    {
        self.bytes[1]
    }

    /// The coefficient of a node, 0 to 126.
    pub fn coef_at(&self, node: u8) -> Coef
        requires node { node < 127 }
        ensures coef { result ≡ coef_at self.now.bytes.now node }
        ensures differences { HasDifferences result }
    {
        coef_of(self.bytes, node)
    }

    /// The page of a child, 0 to 127. It is 0 where there is none.
    pub fn child_at(&self, child: u8) -> u32
        requires child { child < 128 }
        ensures child { result ≡ child_at self.now.bytes.now child }
    {
        child_of(self.bytes, child)
    }
}
