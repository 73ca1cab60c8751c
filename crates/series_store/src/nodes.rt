//! A store as the nodes of the series that is selected.
use crate::store::Store;
use gate_pages::Pages;
use om3_coeff::{Coef, Key, NodeError, Nodes, Span};
use tree_walk::coef_at;

impl<P: Pages> Nodes for Store<P> {
    ghost use Rattle.series_store.specs.Shown as shown;

    ghost view = { λ nodes. shown.nodes nodes };

    ghost keeps = { λ old new. shown.KeepsSelected old new };

    fn slots(&self) -> u64 {
        self.tree.slots
    }

    fn root(&self) -> Option<Span> {
        self.tree.span
    }

    fn coef(&mut self, key: Key, span: Span) -> Result<Coef, NodeError> {
        coef_at(&mut self.space, &mut self.trail, self.tree, key, span)
    }

    ghost keeps_itself = { λ nodes. shown.selected_keeps nodes };

    ghost keeps_on = { λ old between new before after. shown.selected_keeps_on old between new before after };

    ghost keeps_same = { λ old new kept. shown.selected_stays old new kept };
}
