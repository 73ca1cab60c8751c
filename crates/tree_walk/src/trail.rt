//! The pages of one path.
ghost use Rattle.std.specs.Prelude.{◌≡◌, ◌≤◌, length, IfOk};

use crate::held_page::HeldPage;
use om3_coeff::Key;
use std::alloc::{AllocError, Global};

/// The page levels of the highest tree, so the pages of the longest path.
const MOST_LEVELS: usize = 5;

/// The pages of the path to the key asked last, so that the next ask reads only those that it lacks.
#[derive(Drop)]
pub struct Trail {
    pub(crate) pages: Vec<HeldPage>,
    pub(crate) len: usize,
    pub(crate) asked: Option<Key>,
    ghost room: { length pages.items ≡ 5 },
    ghost few: { len ≤ 5 },
}

/// Buffers for the pages of a path.
fn buffers(alloc: Global) -> Result<Vec<HeldPage>, AllocError>
    ensures { IfOk result (λ pages. length pages.items ≡ 5) }
{
    let mut pages = Vec::new(alloc);
    for _ in 0..MOST_LEVELS {
        pages.push(HeldPage::new(alloc)?)?;
    }
    Ok(pages)
}

impl Trail {
    ghost use Rattle.std.specs.Prelude.{◌≡◌, ◌↔◌, None, IsTrue, IfOk};
    ghost use Rattle.tree_walk.specs.Holding.{IsHit};
    ghost use Rattle.tree_walk.specs.Trails.{IsTrailOfAny};

    /// An empty trail, which is one of any tree over any pages. No other call of it takes memory.
    pub fn new(alloc: Global) -> Result<Trail, AllocError>
        ensures fits { IfOk result (λ trail. IsTrailOfAny trail.pages.items trail.len trail.asked) }
        ensures asked { IfOk result (λ trail. trail.asked ≡ None) }
    {
        Ok(Trail {
            pages: buffers(alloc)?,
            len: 0,
            asked: None,
        })
    }

    /// Empties the trail. It is then one of any tree over any pages.
    pub fn forget(&mut self)
        ensures fits { IsTrailOfAny self.new.pages.items self.new.len self.new.asked }
        ensures asked { self.new.asked ≡ None }
    {
        self.len = 0;
        self.asked = None;
    }

    /// Whether the page of this number is held at a depth.
    pub(crate) fn holds(&self, depth: usize, number: u32) -> bool
        ensures { IsTrue result ↔ IsHit self.now depth number }
    {
        depth < self.len && self.pages[depth].number == number
    }
}
