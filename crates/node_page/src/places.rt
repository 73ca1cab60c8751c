//! Where the node of a key stands.
ghost use Rattle.std.specs.Prelude.{◌≡◌, ◌≤◌, ◌<◌};
ghost use Rattle.node_page.specs.Places.{page_level as level_of_page, below_top as depth_in_page, page_index as index_of_page};
ghost use Rattle.node_page.specs.Places.{node_number as number_of_node};

use om3_coeff::Key;

/// The page level of the pages that hold the nodes of a level, 1 to 35.
#[tactic(auto, unfolding(crate::specs::Places::page_level))]
pub fn page_level(level: u8) -> u8
    requires low { 1 ≤ level }
    requires high { level ≤ 35 }
    ensures level { result ≡ level_of_page level }
    ensures some { 1 ≤ result }
    ensures few { result ≤ 5 }
{
    level.div_ceil(7)
}

/// How many levels a key of this level lies below the top of its page.
#[tactic(auto, unfolding(crate::specs::Places::below_top))]
fn below_top(level: u8) -> u8
    requires low { 1 ≤ level }
    requires high { level ≤ 35 }
    ensures depth { result ≡ depth_in_page level }
    ensures few { result ≤ 6 }
{
    7 * page_level(level) - level
}

/// The index of the key at the top of the page that holds this key's node.
#[tactic(auto, unfolding(crate::specs::Places::page_index))]
pub fn page_index(key: Key) -> u64
    requires low { 1 ≤ key.level }
    requires high { key.level ≤ 35 }
    ensures { result ≡ index_of_page key }
{
    key.index >> below_top(key.level)
}

/// The number of the key's node in its page.
#[tactic(auto, unfolding(crate::specs::Places::node_number))]
pub fn node_number(key: Key) -> u8
    requires low { 1 ≤ key.level }
    requires high { key.level ≤ 35 }
    ensures node { result ≡ number_of_node key }
    ensures few { result < 127 }
{
    let width = 1 << below_top(key.level);
    (width - 1 + key.index % width) as u8
}
