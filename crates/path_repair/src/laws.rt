//! What follows from the definitions. The functions do nothing: their contracts are the laws.
ghost use Rattle.std.specs.Prelude.{◌≤◌, ◌+◌, ◌-◌, ◌*◌, ℕ};
ghost use Rattle.path_repair.specs.Costs.{touch};

/// One slot lies in one page of each page level. A tree that grows gets a new root on each level above
/// the old one.
pub fn one_slot_touches_a_page_a_level()
    ensures { (first height level : ℕ) → touch first (first + 1) height level 0 ≤ level + (level - height) }
{}

/// At most 256 slots lie in at most three pages of page level 1, two of each level above it, and one of
/// the highest.
pub fn a_run_touches_few_pages()
    ensures most { (first end height level : ℕ) → end ≤ first + 256 → touch first end height level 0 ≤ 2 * level + (level - height) }
    ensures room { (first end height level : ℕ) → end ≤ first + 256 → level ≤ 5 → touch first end height level 0 ≤ 30 + 2 * level }
{}

/// At most 4,096 slots lie in at most 33 pages of page level 1, two of each level above it, and one of
/// the highest.
pub fn a_long_run_touches_few_pages()
    ensures { (first end level : ℕ) → end ≤ first + 4096 → touch first end level level 0 ≤ 30 + 2 * level }
{}

/// A tree that only grows gets a new root a level.
pub fn growth_takes_a_page_a_level()
    ensures { (height level : ℕ) → touch 0 0 height level 0 ≤ level - height }
{}

/// A tree that grows is passed in more pages than the one from before.
pub fn lower_trees_are_touched_less()
    ensures { (first end height level : ℕ) → height ≤ level → touch first end height height 0 ≤ touch first end height level 0 }
{}
