//! What follows from the layout. The functions do nothing: their contracts are the laws.

ghost use Rattle.std.specs.Prelude.{◌≡◌, ◌<◌, ◌≤◌, ◌+◌, ◌*◌, ◌/◌, ◌%◌, ◌||◌, false, pos, ℕ, suc, List, slice_index};
ghost use Rattle.om3_coeff.specs.declared.key.Key.{Key};
ghost use Rattle.om3_coeff.specs.Keys.{parent_of};
ghost use Rattle.node_page.specs.Fields.{flag_at, coef_at, child_at};
ghost use Rattle.node_page.specs.Layout.{KeepsLayout, has_child};
ghost use Rattle.node_page.specs.Places.{page_level, page_index, node_number};
ghost use Rattle.node_page.specs.Laws.{PagesAreTheirFields};

/// A page that keeps the layout has no byte but its fields: one of the same level, coefficients and
/// children is the same.
pub fn pages_are_their_fields()
    ensures { PagesAreTheirFields }
{}

/// The flag above node n is flag n - 1, and that above child c is flag 126 + c: in a page that keeps the
/// layout a flag above a node is set exactly where one of the node's two is.
pub fn flags_are_a_heap()
    ensures nodes { (page : List ℕ) → KeepsLayout page → (b : ℕ) → b < 126
        → flag_at page b ≡ (flag_at page (2 * b + 2) || flag_at page (2 * b + 3)) }
    ensures children { (page : List ℕ) (c : ℕ) → has_child page c ≡ flag_at page (126 + c) }
{}

/// Where the bytes of the fields are all 0, no flag is set, no difference is other than 0, and no child
/// is there.
pub fn blank_pages_have_no_fields()
    ensures flags { (page : List ℕ) → ((k : ℕ) → 8 ≤ k → k < 2584 → slice_index page k ≡ 0) → (b : ℕ) → b < 256 → flag_at page b ≡ false }
    ensures coefs { (page : List ℕ) → ((k : ℕ) → 8 ≤ k → k < 2584 → slice_index page k ≡ 0) → (n : ℕ) → n < 127
        → coef_at page n ≡ record { left = false; right = false; dmin = pos 0; dmax = pos 0 } }
    ensures children { (page : List ℕ) → ((k : ℕ) → 8 ≤ k → k < 2584 → slice_index page k ≡ 0) → (c : ℕ) → c < 128 → child_at page c ≡ 0 }
{}

/// A page has a node for each key of its seven levels, and no two keys share one. The node of a key
/// below the top of a page lies below that of its parent, on the left for an even index; the key at the
/// top of a page is the child of its parent's page that its index says.
pub fn keys_have_their_nodes()
    ensures within { (k : Key) → 1 ≤ k.level → node_number k < 127 }
    ensures one_key { (k l : Key) → 1 ≤ k.level → 1 ≤ l.level → page_level k.level ≡ page_level l.level
        → page_index k ≡ page_index l → node_number k ≡ node_number l → k ≡ l }
    ensures every_node { (p q n : ℕ) → 1 ≤ p → n < 127
        → ((k : Key) × (1 ≤ k.level) × (page_level k.level ≡ p) × (page_index k ≡ q) × (node_number k ≡ n)) }
    ensures top_node { (k : Key) (p : ℕ) → k.level ≡ 7 * p → 1 ≤ p → (page_level k.level ≡ p) × (page_index k ≡ k.index)
        × (node_number k ≡ 0) }
    ensures same_page { (k : Key) → 1 ≤ k.level → page_level (suc k.level) ≡ page_level k.level → page_index (parent_of k) ≡ page_index k }
    ensures node_below { (k : Key) → 1 ≤ k.level → page_level (suc k.level) ≡ page_level k.level
        → node_number k ≡ 2 * node_number (parent_of k) + 1 + k.index % 2 }
    ensures page_above { (k : Key) (p : ℕ) → k.level ≡ 7 * p → 1 ≤ p
        → (page_level (suc k.level) ≡ suc p) × (page_index (parent_of k) ≡ k.index / 128)
        × (node_number (parent_of k) ≡ 63 + k.index % 128 / 2) }
{}
