//! What follows where pages stand. The functions do nothing: their contracts are the laws.
ghost use Rattle.std.specs.Prelude.{ℕ, List};
ghost use Rattle.block_disk.specs.View.{Image};
ghost use Rattle.page_space.specs.Spaces.{Stands};
ghost use Rattle.page_space.specs.Standing.{IsApart};
ghost use Rattle.page_space.specs.declared.superblock.Superblock.{Superblock};
ghost use Rattle.page_space.specs.Laws.{PagesStandForOneState, PagesStandOn};

/// Where pages stand, each page that was ever given out is in use or freed, once, and no other page is.
pub fn pages_stand_apart()
    ensures { (count : ℕ) (image : Image) (s : Superblock) (taken freed : List ℕ) (p : ℕ) → Stands count image s taken freed
        → IsApart s taken freed p }
{}

/// Pages stand for one state alone: the numbers, the chain, and the pages in use, in whatever order.
pub fn pages_stand_for_one_state()
    ensures { PagesStandForOneState }
{}

/// Page 0 and the pages of the chain decide what pages stand for. The pages in use are told in any order.
pub fn pages_stand_on()
    ensures { PagesStandOn }
{}
