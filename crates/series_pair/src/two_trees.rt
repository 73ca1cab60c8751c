//! Two series of a store as two trees.
ghost use Rattle.std.specs.Prelude.{◌≡◌};
ghost use Rattle.series_pair.specs.Pairs.{side_of};

use crate::store_pair::StorePair;
use derived_chart::TwoTrees;
use gate_pages::Pages;
use om3_coeff::{Coef, Key, NodeError, Nodes, Span};

/// Of two ids the one that is asked.
fn id_of(second: bool, x: u16, y: u16) -> u16
    ensures { result ≡ side_of second x y }
{
    if second { y } else { x }
}

impl<'a, P: Pages> Nodes for StorePair<'a, P> {
    ghost use Rattle.series_pair.specs.Asking.{KeepsPair, pair_view};
    ghost use Rattle.series_pair.specs.AskLaws.{pair_keeps, pair_keeps_on, pair_stays};

    ghost view = { λ pair. pair_view pair };

    ghost keeps = { λ old new. KeepsPair old new };

    fn slots(&self) -> u64 {
        self.store.slots()
    }

    fn root(&self) -> Option<Span> {
        self.store.root()
    }

    fn coef(&mut self, key: Key, span: Span) -> Result<Coef, NodeError> {
        self.store.coef(key, span)
    }

    ghost keeps_itself = { λ pair. pair_keeps pair };

    ghost keeps_on = { λ old between new before after. pair_keeps_on before after };

    ghost keeps_same = { λ old new kept. pair_stays kept };
}

impl<'a, P: Pages> TwoTrees for StorePair<'a, P> {
    ghost use Rattle.series_pair.specs.Asking.{ArePair, Causes, GoesPair, count};
    ghost use Rattle.series_pair.specs.AskLaws.{
      pair_goes_nowhere,
      pair_goes_on,
      asks_are_steps,
      still_are_pair,
      pair_agrees,
      pair_counts,
      asks_have_cause,
      causes_later,
    };

    ghost are = { λ pair xs ys. ArePair pair xs ys };

    ghost asks_second = { λ pair. pair.is_second };

    ghost count = { λ second pair. count second pair };

    ghost goes = { λ old new. GoesPair old new };

    ghost causes = { λ old new error. Causes old new error };

    fn turn(&mut self, second: bool) {
        // A series that is asked again keeps the pages on the way.
        if second == self.is_second {
            return;
        }
        let id = id_of(second, self.x, self.y);
        self.store.select(id);
        self.is_second = second;
    }

    ghost goes_nowhere = { λ at. pair_goes_nowhere at };

    ghost goes_on = { λ old between new before after. pair_goes_on before after };

    ghost asks_go = { λ old new kept. asks_are_steps kept };

    ghost asks_stay = { λ old new kept. kept.side };

    ghost still_are = { λ old new xs ys going are. still_are_pair going are };

    ghost still_count = { λ side old new going. going.counts side };

    ghost agrees = { λ at xs ys are. pair_agrees are };

    ghost counts = { λ at. pair_counts at };

    ghost asks_cause = { λ old new error kept cause. asks_have_cause error kept cause };

    ghost causes_behind = { λ old between new error going quiet cause. causes_later error old between new going quiet cause };
}
