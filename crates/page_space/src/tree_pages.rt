//! Tree pages among the pages of a space.
ghost use Rattle.std.specs.Prelude.{IsTrue, IsFalse};
ghost use Rattle.block_disk.specs.Blocks.{IsBlock};
ghost use Rattle.page_space.specs.Marks.{IsTreePage, IsNoTreePage};

use node_page::PageView;

/// Whether a page is a tree page of this page level that keeps its layout.
pub(crate) fn is_tree_page(page: &[u8], level: u8) -> bool
    requires { IsBlock page.now }
    ensures is { IsTrue result → IsTreePage level page.now }
    ensures not { IsFalse result → IsNoTreePage level page.now }
{
    match PageView::new(page) {
        Ok(view) => view.level() == level,
        Err(_) => false,
    }
}
