//! A batch of pages.
ghost use Rattle.std.specs.Prelude.{◌≡◌, ◌≤◌, length, IsTrue};
ghost use Rattle.gate_pages.specs.Batch.{is_distinct, numbers};
ghost use Rattle.gate_pages.specs.Batches.{entries_of};

use crate::page::Page;

/// Pages to be committed together, at most 64, no two of one number.
#[derive(Drop)]
pub struct Batch {
    pub(crate) pages: Vec<Page>,
    pub(crate) len: usize,
    ghost room: { length pages.items ≡ 64 },
    ghost within: { len ≤ 64 },
    ghost distinct: { IsTrue (is_distinct (numbers (entries_of len pages.items))) },
}
