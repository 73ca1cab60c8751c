//! A store.
ghost use Rattle.std.proofs.Props.{props};
ghost use Rattle.std.specs.Prelude.{◌≡◌, ◌<◌, ◌≤◌, ◌^◌, length};
ghost use Rattle.om3_coeff.specs.Spans.{IsProperIfAny};
ghost use Rattle.stored_book.proofs.TrailLemmas.{trail_prop};
ghost use Rattle.series_book.specs.declared.limits.TheConstants.{MOST_SLOTS};
ghost use Rattle.series_catalog.specs.Catalogs.{AreFit, AreAsTold};
ghost use Rattle.series_catalog.specs.Shown.{series_in};
ghost use Rattle.page_space.specs.Shown as spaces;
ghost use Rattle.stored_book.specs.Standing.{AreCatalog};
ghost use Rattle.tree_walk.specs.PagedNodes.{IsTrail};
ghost use Rattle.tree_walk.specs.SpaceViews.{space_view};

use gate_pages::Pages;
use page_space::Space;
use series_catalog::Catalog;
use std::alloc::Global;
use tree_walk::{Trail, Tree};

/// Pages with a book, whose catalog is in memory, and a series of it that is selected.
#[derive(Drop)]
pub struct Store<P: Pages> {
    pub(crate) alloc: Global,
    pub(crate) space: Space<P>,
    pub(crate) catalog: Catalog,
    pub(crate) trail: Trail,
    pub(crate) tree: Tree,
    ghost small: { spaces.total space < 2 ^ 32 },
    ghost count: { length (series_in catalog) ≡ (spaces.numbers space).series },
    ghost fits: { AreFit (spaces.numbers space).fresh (series_in catalog) } by { Prim.hlevel props },
    ghost told: { spaces.IsSound space → spaces.IsTold space → AreAsTold (spaces.image space) (series_in catalog) },
    ghost whole: { spaces.IsSound space → spaces.IsTold space
        → AreCatalog (spaces.image space) (spaces.numbers space).fresh (spaces.numbers space).series },
    ghost few: { tree.slots ≤ MOST_SLOTS },
    ghost root: { tree.root < spaces.total space },
    ghost proper: { IsProperIfAny tree.span } by { Prim.hlevel props },
    ghost trail_is: { IsTrail (spaces.IsTold space) (space_view (spaces.numbers space) (spaces.view space)) tree trail } by { trail_prop (spaces.IsTold space) (spaces.image space) (spaces.total space) tree trail.pages.items trail.len trail.asked },
}
