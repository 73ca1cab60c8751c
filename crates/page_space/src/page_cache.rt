//! Copies of pages in memory.
ghost use Rattle.std.specs.Prelude.{◌≡◌, ◌≤◌, ◌*◌, length, vec_capacity};
ghost use Rattle.block_disk.specs.Blocks.{block_size};
ghost use Rattle.page_space.specs.Marks.{AreMarked};
ghost use Rattle.page_space.specs.Places.{filled, AreKept};

/// A page that a place holds: its number, which of the copies is its, and the page level of which this copy was found
/// to be a tree page, or 0.
#[derive(Clone, Copy)]
pub(crate) struct Kept {
    pub(crate) page: u32,
    pub(crate) copy: u16,
    pub(crate) level: u8,
}

/// Copies of at most 4,096 pages. Page p has the place p mod 4,096.
#[derive(Drop)]
pub struct PageCache {
    /// The page that each place holds.
    pub(crate) places: Vec<Option<Kept>>,
    /// The copies, one after another, in the order in which their places were first filled.
    pub(crate) bytes: Vec<u8>,
    ghost many: { length places.items ≡ 4096 },
    ghost room: { block_size * 4096 ≤ vec_capacity bytes },
    ghost whole: { length bytes.items ≡ block_size * filled places.items },
    ghost kept: { AreKept places.items },
    ghost marked: { AreMarked places.items bytes.items },
}
