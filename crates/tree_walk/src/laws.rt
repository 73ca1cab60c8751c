//! What follows from the definitions. The functions do nothing: their contracts are the laws.

ghost use Rattle.std.specs.Prelude.{ℕ, ℤ, List, Option};
ghost use Rattle.block_disk.specs.View.{Image};
ghost use Rattle.om3_coeff.specs.View.{Agrees};
ghost use Rattle.page_space.specs.Shown as shown;
ghost use Rattle.tree_walk.specs.declared.tree.Tree.{Tree};
ghost use Rattle.tree_walk.specs.Paths.{IsDamaged};
ghost use Rattle.tree_walk.specs.Trails.{IsTrailOfAny};
ghost use Rattle.tree_walk.specs.Trees.{StandsFor};
ghost use Rattle.tree_walk.specs.Walk as walk;

use crate::paged_nodes::PagedNodes;
use crate::trail::Trail;
use gate_pages::Pages;
use page_space::Space;

/// Where the pages of a space tell what they are, and stand with a tree for a list, the nodes over them
/// agree with the list. They are fit where the pages are sound and the trail is theirs.
pub fn standing_pages_agree<P: Pages>(nodes: &PagedNodes<P>)
    ensures agrees { (list : List (Option ℤ)) → shown.IsTold nodes.now.space → walk.StandsFor nodes.now.space nodes.now.tree list
        → Agrees (walk.nodes nodes.now.space nodes.now.tree nodes.now.trail) list }
    ensures fit { (list : List (Option ℤ)) → walk.StandsFor nodes.now.space nodes.now.tree list
        → walk.MayBeAskedWhereSound nodes.now.space nodes.now.tree nodes.now.trail }
{
    let _total = nodes.space.total();
}

/// No page is damaged where pages stand with a tree for a list.
pub fn standing_pages_are_sound()
    ensures { (image : Image) (total : ℕ) (tree : Tree) (list : List (Option ℤ)) (page : ℕ)
        → StandsFor image total tree list → IsDamaged image total tree page → ⊥ }
{}

/// An empty trail is one of any tree over any pages.
pub fn empty_trails_fit<P: Pages>(space: &Space<P>, trail: &Trail)
    ensures { (tree : Tree) → IsTrailOfAny trail.now.pages.items trail.now.len trail.now.asked → walk.HasTrail space.now tree trail.now }
{
    let _space = space;
    let _trail = trail;
}
