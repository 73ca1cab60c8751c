//! What staging an edit leaves.
use series_book::Outcome;
use tree_walk::Tree;

/// How a catalog is put back to what it was before an edit.
#[derive(Clone, Copy)]
pub(crate) enum Undo {
    /// The edit changed nothing.
    Nothing,
    /// The series of this id had this tree.
    Tree { id: u16, tree: Tree },
    /// The last series is new.
    Last,
}

/// An edit that is staged: what it answers, and how the catalog is put back.
#[derive(Clone, Copy)]
pub(crate) struct Staged {
    pub(crate) outcome: Outcome,
    pub(crate) undo: Undo,
}
