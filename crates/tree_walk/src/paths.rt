//! The way from the root to a key.
ghost use Rattle.std.specs.Prelude.{◌≡◌, ◌≢◌, ◌≤◌, ◌<◌, ◌+◌, ◌-◌, ◌*◌, ◌^◌, ◌⊎◌, Some, false, IsTrue, IfSome, IfOk, IfErr, OnOk, OnErr};
ghost use Rattle.om3_coeff.specs.declared.errors.NodeError.TheVariants.{Damaged};
ghost use Rattle.om3_coeff.specs.Keys.{page_levels as levels_of, height, IsNode, MayFollow};
ghost use Rattle.om3_coeff.specs.declared.key.Key.{Key};
ghost use Rattle.node_page.specs.Fields.{child_at};
ghost use Rattle.node_page.specs.Layout.{KeepsLayout};
ghost use Rattle.node_page.specs.Places.{page_level as level_of_page};
ghost use Rattle.page_space.specs.Shown as shown;
ghost use Rattle.tree_walk.specs.Paths.{path_child as child_on_path};
ghost use Rattle.tree_walk.specs.Trails.{IsLinked, LeadsTo, LeadsToAny};
ghost use Rattle.tree_walk.specs.Holding.{IsHit, IsNear, IsSameAbove};
ghost use Rattle.tree_walk.specs.Walk as walk;

use crate::held_page::HeldPage;
use crate::trail::Trail;
use crate::tree::Tree;
use gate_pages::Pages;
use node_page::{PageView, page_index, page_level};
use om3_coeff::{Key, NodeError, page_levels};
use page_space::Space;

/// Which child of the page of this page level is on the way to a key that stands below it.
#[tactic(auto, unfolding(crate::specs::Paths::path_child, crate::specs::Paths::path_index))]
fn path_child(key: Key, level: usize) -> u8
    requires above { key.level ≤ 7 * (level - 1) }
    requires some { 1 ≤ level }
    requires few { level ≤ 5 }
    ensures child { result ≡ child_on_path key level }
    ensures within { result < 128 }
{
    ((key.index >> (7 * (level - 1) - usize::from(key.level))) % 128) as u8
}

/// The number of a child's page, which is there and below the total.
fn next_page(page: &HeldPage, total: u32, child: u8) -> Result<u32, NodeError>
    requires keeps { KeepsLayout page.now.bytes.items }
    requires child { child < 128 }
    ensures number { IfOk result (λ number. number ≡ child_at page.now.bytes.items child) }
    ensures there { IfOk result (λ number. number ≢ 0) }
    ensures below { IfOk result (λ number. number < total) }
    ensures names { IfErr result (λ e. e ≡ Damaged page.now.number) }
    ensures missing { OnErr result ((child_at page.now.bytes.items child ≡ 0) ⊎ (total ≤ child_at page.now.bytes.items child)) }
{
    let number = PageView::of(page.bytes.as_slice()).child_at(child);
    if number == 0 {
        return Err(NodeError::Damaged { page: page.number });
    }
    if number >= total {
        return Err(NodeError::Damaged { page: page.number });
    }
    Ok(number)
}

/// Reads a page of this page level into a buffer.
fn read_page<P: Pages>(
    space: &mut Space<P>,
    page: &mut HeldPage,
    number: u32,
    level: usize,
) -> Result<(), NodeError>
    requires sound { shown.IsSound space.old }
    requires number { number < shown.total space.old }
    requires some { 1 ≤ level }
    requires few { level ≤ 5 }
    ensures reads { walk.ReadsOne space.old space.new }
    ensures over { walk.Stays space.old space.new }
    ensures count { shown.count space.new ≡ shown.count space.old }
    ensures held { OnOk result (walk.HasRead space.new level page.new) }
    ensures number { OnOk result (page.new.number ≡ number) }
    ensures cause { IfErr result (λ cause. walk.FailsToRead cause space.old space.new number level) }
    ensures quiet { OnOk result ((shown.view space.new).faults ≡ (shown.view space.old).faults) }
    ensures quiet_err { IfErr result (λ e. e ≢ NodeError.DiskFault → (shown.view space.new).faults ≡ (shown.view space.old).faults) }
{
    let Ok(is_tree_page) = space.get_tree(number, level as u8, page.bytes.as_mut_slice()) else {
        return Err(NodeError::DiskFault);
    };
    if !is_tree_page {
        return Err(NodeError::Damaged { page: number });
    }
    page.number = number;
    Ok(())
}

/// Has the trail hold a page of this page level at a depth, and reads it where it isn't held there. What
/// is held above it stays.
fn hold<P: Pages>(
    space: &mut Space<P>,
    trail: &mut Trail,
    levels: usize,
    depth: usize,
    number: u32,
) -> Result<(), NodeError>
    requires sound { shown.IsSound space.old }
    requires number { number < shown.total space.old }
    requires few { levels ≤ 5 }
    requires deep { depth < levels }
    requires reached { depth ≤ trail.old.len }
    requires held { walk.Holds space.old levels trail.old }

    ensures reads { walk.ReadsOne space.old space.new }
    ensures over { walk.Stays space.old space.new }
    ensures count { shown.count space.new ≡ shown.count space.old }
    ensures hit { IsHit trail.old depth number → space.new ≡ space.old }
    ensures still { IsHit trail.old depth number → trail.new ≡ trail.old }
    ensures held { walk.Holds space.new levels trail.new }
    ensures above { IsSameAbove depth trail.old.pages.items trail.new.pages.items }
    ensures reached { OnOk result (IsHit trail.new depth number) }
    ensures asked { trail.new.asked ≡ trail.old.asked }
    ensures cause { IfErr result (λ cause. walk.FailsToRead cause space.old space.new number (levels - depth)) }
    ensures quiet { OnOk result ((shown.view space.new).faults ≡ (shown.view space.old).faults) }
    ensures quiet_err { IfErr result (λ e. e ≢ NodeError.DiskFault → (shown.view space.new).faults ≡ (shown.view space.old).faults) }
{
    if trail.holds(depth, number) {
        return Ok(());
    }
    trail.len = depth;
    read_page(space, &mut trail.pages[depth], number, levels - depth)?;
    trail.len = depth + 1;
    Ok(())
}

/// Has the trail hold the page below a depth on the way to a key.
fn step<P: Pages>(
    space: &mut Space<P>,
    trail: &mut Trail,
    levels: usize,
    key: Key,
    depth: usize,
) -> Result<(), NodeError>
    requires sound { shown.IsSound space.old }
    requires few { levels ≤ 5 }
    requires deep { depth + 1 < levels }
    requires above { key.level ≤ 7 * (levels - depth - 1) }
    requires reached { depth < trail.old.len }
    requires held { walk.Holds space.old levels trail.old }

    ensures reads { walk.ReadsOne space.old space.new }
    ensures over { walk.Stays space.old space.new }
    ensures count { shown.count space.new ≡ shown.count space.old }
    ensures hit { depth + 1 < trail.old.len → IsLinked trail.old.pages.items key levels depth → space.new ≡ space.old }
    ensures still { depth + 1 < trail.old.len → IsLinked trail.old.pages.items key levels depth → trail.new ≡ trail.old }
    ensures held { walk.Holds space.new levels trail.new }
    ensures above { IsSameAbove (depth + 1) trail.old.pages.items trail.new.pages.items }
    ensures reached { OnOk result (depth + 1 < trail.new.len) }
    ensures linked { OnOk result (IsLinked trail.new.pages.items key levels depth) }
    ensures asked { trail.new.asked ≡ trail.old.asked }
    ensures cause { IfErr result (λ cause. walk.FailsToStep cause space.old space.new trail.old key levels depth) }
    ensures quiet { OnOk result ((shown.view space.new).faults ≡ (shown.view space.old).faults) }
    ensures quiet_err { IfErr result (λ e. e ≢ NodeError.DiskFault → (shown.view space.new).faults ≡ (shown.view space.old).faults) }
{
    let child = path_child(key, levels - depth);
    let number = next_page(&trail.pages[depth], space.total(), child)?;
    hold(space, trail, levels, depth + 1, number)
}

/// Has the trail hold the pages on the way to a key, and gives the depth of the page of its node.
fn descend<P: Pages>(
    space: &mut Space<P>,
    trail: &mut Trail,
    tree: Tree,
    key: Key,
) -> Result<usize, NodeError>
    requires sound { shown.IsSound space.old }
    requires few { tree.slots ≤ 2 ^ 35 }
    requires root { tree.root < shown.total space.old }
    requires key { IsNode (height tree.slots) key }
    requires held { walk.Holds space.old (levels_of tree.slots) trail.old }

    ensures kept { walk.Walks space.old space.new }
    ensures over { walk.Stays space.old space.new }
    ensures count { shown.count space.new ≡ shown.count space.old }
    ensures held { walk.Holds space.new (levels_of tree.slots) trail.new }
    ensures depth { IfOk result (λ depth. depth ≡ levels_of tree.slots - level_of_page key.level) }
    ensures leads { OnOk result (LeadsTo tree trail.new.pages.items trail.new.len key) }
    ensures asked { trail.new.asked ≡ trail.old.asked }
    ensures one_read { (last : Key) → LeadsTo tree trail.old.pages.items trail.old.len last → MayFollow (height tree.slots) (Some last) key
        → (shown.view space.new).reads ≤ (shown.view space.old).reads + 1 }
    ensures top_read { key.level ≡ height tree.slots → (shown.view space.new).reads ≤ (shown.view space.old).reads + 1 }
    ensures reads { (shown.view space.new).reads ≤ (shown.view space.old).reads + levels_of tree.slots }
    ensures cause { IfErr result (λ cause. walk.FailsOnWay cause space.old space.new tree key) }
    ensures quiet { OnOk result ((shown.view space.new).faults ≡ (shown.view space.old).faults) }
    ensures quiet_err { IfErr result (λ e. e ≢ NodeError.DiskFault → (shown.view space.new).faults ≡ (shown.view space.old).faults) }
{
    let levels = usize::from(page_levels(tree.slots));
    let depth = levels - usize::from(page_level(key.level));
    hold(space, trail, levels, 0, tree.root)?;
    for above in 0..depth {
        step(space, trail, levels, key, above)?;
    }
    Ok(depth)
}

/// Whether the key asked last has its node in the page of a key's node.
fn is_near(tree: Tree, last: Option<Key>, key: Key) -> bool
    requires few { tree.slots ≤ 2 ^ 35 }
    requires key { IsNode (height tree.slots) key }
    requires last { IfSome last (IsNode (height tree.slots)) }
    ensures { IsTrue result → IsNear last key }
{
    let _levels = page_levels(tree.slots);
    let Some(last) = last else {
        return false;
    };
    page_level(key.level) == page_level(last.level) && page_index(key) == page_index(last)
}

/// The depth of the page of a key's node.
fn depth_of(tree: Tree, key: Key) -> usize
    requires few { tree.slots ≤ 2 ^ 35 }
    requires key { IsNode (height tree.slots) key }
    ensures { result ≡ levels_of tree.slots - level_of_page key.level }
{
    usize::from(page_levels(tree.slots)) - usize::from(page_level(key.level))
}

/// The same as `descend`. Where the key asked last has its node in the page of the key's node, the pages on the way
/// are held already.
pub(crate) fn reach<P: Pages>(
    space: &mut Space<P>,
    trail: &mut Trail,
    tree: Tree,
    key: Key,
    last: Option<Key>,
) -> Result<usize, NodeError>
    requires sound { shown.IsSound space.old }
    requires few { tree.slots ≤ 2 ^ 35 }
    requires root { tree.root < shown.total space.old }
    requires key { IsNode (height tree.slots) key }
    requires held { walk.Holds space.old (levels_of tree.slots) trail.old }
    requires leads { LeadsToAny tree trail.old.pages.items trail.old.len last }

    ensures kept { walk.Walks space.old space.new }
    ensures over { walk.Stays space.old space.new }
    ensures count { shown.count space.new ≡ shown.count space.old }
    ensures held { walk.Holds space.new (levels_of tree.slots) trail.new }
    ensures depth { IfOk result (λ depth. depth ≡ levels_of tree.slots - level_of_page key.level) }
    ensures leads { OnOk result (LeadsTo tree trail.new.pages.items trail.new.len key) }
    ensures asked { trail.new.asked ≡ trail.old.asked }
    ensures one_read { MayFollow (height tree.slots) last key → (shown.view space.new).reads ≤ (shown.view space.old).reads + 1 }
    ensures reads { (shown.view space.new).reads ≤ (shown.view space.old).reads + levels_of tree.slots }
    ensures cause { IfErr result (λ cause. walk.FailsOnWay cause space.old space.new tree key) }
    ensures quiet { OnOk result ((shown.view space.new).faults ≡ (shown.view space.old).faults) }
    ensures quiet_err { IfErr result (λ e. e ≢ NodeError.DiskFault → (shown.view space.new).faults ≡ (shown.view space.old).faults) }
{
    if is_near(tree, last, key) {
        return Ok(depth_of(tree, key));
    }
    descend(space, trail, tree, key)
}
