//! The coefficient of a key, read from pages.
ghost use Rattle.std.specs.Prelude.{◌≡◌, ◌≢◌, ◌≤◌, ◌+◌, None, Some, IfOk, IfErr, OnOk, OnErr, IsSome};
ghost use Rattle.om3_coeff.specs.Keys.{page_levels, height, IsNode, MayFollow};
ghost use Rattle.om3_coeff.specs.Spans.{IsProper};
ghost use Rattle.om3_coeff.specs.Coefs.{parts};
ghost use Rattle.page_space.specs.Shown as shown;
ghost use Rattle.tree_walk.specs.Paths.{told_by_pages};
ghost use Rattle.tree_walk.specs.Walk as walk;

use crate::paths::reach;
use crate::trail::Trail;
use crate::tree::Tree;
use gate_pages::Pages;
use node_page::{PageView, node_number};
use om3_coeff::{Coef, Key, NodeError, Span, split};
use page_space::Space;

/// The coefficient of a key that has this span, by the pages on the way from the tree's root. The trail
/// has to be empty or filled over this tree and this space.
///
/// `DiskFault` comes where a read failed. `Damaged` names a page of the way that breaks its layout, whose
/// page level isn't the one of its place, that names a page past the last one, or whose coefficient of
/// the key doesn't split the span. No other error comes. No memory is taken.
pub fn coef_at<P: Pages>(
    space: &mut Space<P>,
    trail: &mut Trail,
    tree: Tree,
    key: Key,
    span: Span,
) -> Result<Coef, NodeError>
    requires fit { walk.MayBeAsked space.old tree trail.old }
    requires key { IsNode (height tree.slots) key }
    requires span { IsProper span }
    requires seen { walk.HasSpan space.old tree key span }

    ensures fit { walk.MayBeAsked space.new tree trail.new }
    ensures kept { walk.Asks space.old space.new tree }
    ensures told { IfOk result (λ coef. shown.IsTold space.old → told_by_pages (shown.image space.old) tree key ≡ Some coef) }
    ensures splits { IfOk result (λ coef. IsSome (parts span coef)) }

    ensures asked { OnOk result (trail.new.asked ≡ Some key) }
    ensures failed { OnErr result (trail.new.asked ≡ None) }

    // an ask in tree order reads one page at most, another one a page a page level
    ensures one_read { MayFollow (height tree.slots) trail.old.asked key → (shown.view space.new).reads ≤ (shown.view space.old).reads + 1 }
    ensures reads { (shown.view space.new).reads ≤ (shown.view space.old).reads + page_levels tree.slots }

    ensures faults { (shown.view space.old).faults ≤ (shown.view space.new).faults }
    ensures cause { IfErr result (λ cause. walk.Explains cause space.old space.new tree trail.old trail.new) }
    ensures quiet { OnOk result ((shown.view space.new).faults ≡ (shown.view space.old).faults) }
    ensures quiet_err { IfErr result (λ e. e ≢ NodeError.DiskFault → (shown.view space.new).faults ≡ (shown.view space.old).faults) }
    // the damaged page stands on the way to this key
    ensures damaged { IfErr result (λ cause. walk.BlamesWay cause space.old tree key span) }
{
    let last = trail.asked;
    trail.asked = None;
    let depth = reach(space, trail, tree, key, last)?;
    let page = &trail.pages[depth];
    let coef = PageView::of(page.bytes.as_slice()).coef_at(node_number(key));
    if split(span, coef).is_err() {
        return Err(NodeError::Damaged { page: page.number });
    }
    trail.asked = Some(key);
    Ok(coef)
}
