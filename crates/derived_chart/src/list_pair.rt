//! Two lists as two trees.
ghost use Rattle.std.specs.Prelude.{◌≡◌, ◌≤◌, ◌^◌, length, false};
ghost use Rattle.om3_coeff.specs.Spans.{AreSlots};

use crate::trees::TwoTrees;
use om3_coeff::{Coef, Key, ListNodes, NodeError, Nodes, Span};

/// The trees of two lists of slots. Each coefficient is computed from its list, no error comes, and the asks are counted.
#[derive(Drop)]
pub struct ListPair<'a> {
    first: ListNodes<'a>,
    second: ListNodes<'a>,
    is_second: bool,
    asks: u64,
    ghost few_first: { length first.slots.now ≤ 2 ^ 35 },
    ghost few_second: { length second.slots.now ≤ 2 ^ 35 },
}

impl<'a> ListPair<'a> {
    ghost use Rattle.std.specs.Prelude.{◌≡◌, ◌≤◌, ◌^◌, length, false};
    ghost use Rattle.om3_coeff.specs.Spans.{AreSlots};

    /// The trees of these lists. The first one is asked.
    pub fn new(x: &'a [Option<i64>], y: &'a [Option<i64>]) -> ListPair<'a>
        requires first { AreSlots x.now }
        requires second { AreSlots y.now }
        requires few_first { length x.now ≤ 2 ^ 35 }
        requires few_second { length y.now ≤ 2 ^ 35 }
        ensures first { result.first.slots.now ≡ x.now }
        ensures second { result.second.slots.now ≡ y.now }
        ensures side { result.is_second ≡ false }
        ensures none { result.asks ≡ 0 }
    {
        ListPair {
            first: ListNodes::new(x),
            second: ListNodes::new(y),
            is_second: false,
            asks: 0,
        }
    }

    /// How many coefficients were asked so far.
    pub fn asks(&self) -> u64
        ensures { result ≡ self.now.asks }
    {
        self.asks
    }
}

impl<'a> Nodes for ListPair<'a> {
    ghost use Rattle.std.specs.Prelude.{◌≡◌, refl};
    ghost use Rattle.derived_chart.specs.Pairs.{pair_view, KeepsPair};
    ghost use Rattle.derived_chart.specs.PairLaws.{pair_keeps, pair_keeps_on, pair_stays};

    ghost view = { λ pair. pair_view pair.is_second pair.first.slots.now pair.second.slots.now pair.first.asked pair.second.asked };

    ghost keeps = { λ old new. KeepsPair old.is_second new.is_second old.first.slots.now old.second.slots.now new.first.slots.now
        new.second.slots.now };

    fn slots(&self) -> u64 {
        if self.is_second {
            self.second.slots()
        } else {
            self.first.slots()
        }
    }

    fn root(&self) -> Option<Span> {
        if self.is_second {
            self.second.root()
        } else {
            self.first.root()
        }
    }

    fn coef(&mut self, key: Key, span: Span) -> Result<Coef, NodeError> {
        self.asks = self.asks.saturating_add(1);
        if self.is_second {
            self.second.coef(key, span)
        } else {
            self.first.coef(key, span)
        }
    }

    ghost keeps_itself = { λ pair. pair_keeps pair.is_second pair.first.slots.now pair.second.slots.now };

    ghost keeps_on = { λ old between new before after. pair_keeps_on before after };

    ghost keeps_same = { λ old new kept. pair_stays kept old.first.asked old.second.asked new.first.asked new.second.asked };
}

impl<'a> TwoTrees for ListPair<'a> {
    ghost use Rattle.std.specs.Prelude.{◌≡◌, refl};
    ghost use Rattle.derived_chart.specs.Pairs.{AreSame, count_of};
    ghost use Rattle.derived_chart.specs.PairLaws.{same_on, same_counts, pair_agrees, pair_counts, no_cause};

    ghost are = { λ pair xs ys. AreSame xs ys pair.first.slots.now pair.second.slots.now };

    ghost asks_second = { λ pair. pair.is_second };

    ghost count = { λ second pair. count_of second pair.first.slots.now pair.second.slots.now };

    ghost goes = { λ old new. AreSame old.first.slots.now old.second.slots.now new.first.slots.now new.second.slots.now };

    ghost causes = { λ old new error. ⊥ };

    fn turn(&mut self, second: bool) {
        self.is_second = second;
    }

    ghost goes_nowhere = { λ at. (refl, refl) };

    ghost goes_on = { λ old between new before after. same_on before after };

    ghost asks_go = { λ old new kept. kept.lists };

    ghost asks_stay = { λ old new kept. kept.side };

    ghost still_are = { λ old new xs ys going are. same_on are going };

    ghost still_count = { λ side old new going. same_counts side going };

    ghost agrees = { λ at xs ys are. pair_agrees at.is_second are at.first.asked at.second.asked at.first.values at.second.values
        at.few_first at.few_second };

    ghost counts = { λ at. pair_counts at.is_second at.first.slots.now at.second.slots.now at.first.asked at.second.asked };

    ghost asks_cause = { λ old new error kept cause.
        no_cause old.is_second new.is_second old.first.slots.now old.second.slots.now new.first.slots.now new.second.slots.now
        old.first.asked old.second.asked new.first.asked new.second.asked error kept.side cause };

    ghost causes_behind = { λ old between new error going quiet cause. cause };
}
