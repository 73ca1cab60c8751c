ghost use Rattle.std.specs.Prelude.{◌≡◌, ◌≢◌, ◌+◌, ◌^◌, ◌≤◌, Option, None, Some, IfOk, IfErr, OnOk, OnErr, IsSome};
ghost use Rattle.om3_coeff.specs.Keys.{page_levels};
ghost use Rattle.om3_coeff.specs.Spans.{IsProper, IsProperIfAny};
ghost use Rattle.om3_coeff.specs.Coefs.{parts};
ghost use Rattle.om3_coeff.specs.View.{NodesView, known_of, IsNodeOf, MayAsk, HasCause, NamesOnly, StaysSame};

use crate::coef::Coef;
use crate::errors::NodeError;
use crate::key::Key;
use crate::span::Span;

/// What gives the coefficients of the tree over a series' slots.
pub trait Nodes: Drop {
    /// What the nodes mean.
    ghost view: { Self → NodesView };

    /// What asks keep: a relation between the nodes before and after some asks.
    ghost keeps: { Self → Self → Type 0 };

    /// The number of slots, at most 2^35.
    fn slots(&self) -> u64
        ensures slots { result ≡ (view self.now).slots }
        ensures few { (view self.now).fit → result ≤ 2 ^ 35 };

    /// The span of all slots.
    fn root(&self) -> Option<Span>
        ensures root { result ≡ (view self.now).root }
        ensures proper { (view self.now).fit → IsProperIfAny result };

    /// The coefficient of a key that has this span. An implementation says which errors never come.
    fn coef(&mut self, key: Key, span: Span) -> Result<Coef, NodeError>
        requires fit { (view self.old).fit }
        requires key { IsNodeOf (view self.old) key }
        requires span { IsProper span }
        // where the nodes tell their coefficients, the key has this span by those above it
        requires seen { (view self.old).tells → known_of (view self.old) key ≡ Some (Some span) }

        ensures fit { (view self.new).fit }
        ensures kept { keeps self.old self.new }
        ensures told { IfOk result (λ coef. (view self.old).tells → (view self.old).told key ≡ Some coef) }
        ensures splits { IfOk result (λ coef. IsSome (parts span coef)) }

        // the key asked last
        ensures asked { OnOk result ((view self.new).asked ≡ Some key) }
        ensures failed { OnErr result ((view self.new).asked ≡ None) }

        // an ask in tree order reads one block at most, another one a block a page level
        ensures one_read { MayAsk (view self.old) key → (view self.new).reads ≤ (view self.old).reads + 1 }
        ensures reads { (view self.new).reads ≤ (view self.old).reads + page_levels (view self.old).slots }

        // each error has its cause, and a key in it is the one that was asked
        ensures faults { (view self.old).faults ≤ (view self.new).faults }
        ensures cause { IfErr result (HasCause (view self.old) (view self.new)) }
        ensures quiet { OnOk result ((view self.new).faults ≡ (view self.old).faults) }
        ensures quiet_err { IfErr result (λ e. e ≢ NodeError.DiskFault → (view self.new).faults ≡ (view self.old).faults) }
        ensures named { IfErr result (NamesOnly key) };

    /// No ask keeps all, and what is kept by asks and by asks after them is kept by both together.
    ghost keeps_itself: { (nodes : Self) → keeps nodes nodes };

    ghost keeps_on: { (old between new : Self) → keeps old between → keeps between new → keeps old new };

    /// Asks leave the slots, the root, the coefficients and the errors that may come.
    ghost keeps_same: { (old new : Self) → keeps old new → StaysSame (view old) (view new) };
}
