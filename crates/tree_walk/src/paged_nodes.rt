//! Nodes over pages.
use crate::asking::coef_at;
use crate::trail::Trail;
use crate::tree::Tree;
use gate_pages::Pages;
use om3_coeff::{Coef, Key, NodeError, Nodes, Span};
use page_space::Space;

/// The nodes of a tree on pages. They are fit where the pages are sound, the tree's root is one of them,
/// its span, where there is one, is ordered and in range, there are at most 2^35 slots, and the trail is
/// empty or was filled over them. `DiskFault` and `Damaged` are the only errors.
#[derive(Drop)]
pub struct PagedNodes<P: Pages> {
    pub space: Space<P>,
    pub trail: Trail,
    pub tree: Tree,
}

impl<P: Pages> Nodes for PagedNodes<P> {
    ghost use Rattle.tree_walk.specs.PagedNodes.{Keeps, pages_keep, pages_keep_on, pages_stay};
    ghost use Rattle.tree_walk.specs.Walk as walk;

    ghost view = { λ nodes. walk.nodes nodes.space nodes.tree nodes.trail };

    ghost keeps = { λ old new. Keeps (walk.under old.space old.tree) (walk.under new.space new.tree) };

    fn slots(&self) -> u64 {
        self.tree.slots
    }

    fn root(&self) -> Option<Span> {
        self.tree.span
    }

    fn coef(&mut self, key: Key, span: Span) -> Result<Coef, NodeError> {
        coef_at(&mut self.space, &mut self.trail, self.tree, key, span)
    }

    ghost keeps_itself = { λ nodes. pages_keep (walk.under nodes.space nodes.tree) };

    ghost keeps_on = { λ old between new. pages_keep_on (walk.under old.space old.tree) (walk.under between.space between.tree)
        (walk.under new.space new.tree) };

    ghost keeps_same = { λ old new. pages_stay (walk.under old.space old.tree) (walk.under new.space new.tree) old.trail new.trail };
}
