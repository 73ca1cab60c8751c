ghost use Rattle.std.specs.Prelude.{◌≡◌, ◌≤◌, ◌^◌, length, None};
ghost use Rattle.om3_coeff.specs.Spans.{AreSlots, span_over};

use crate::coef::Coef;
use crate::errors::NodeError;
use crate::joining::join;
use crate::key::Key;
use crate::nodes::Nodes;
use crate::scanning::span_of;
use crate::span::Span;

/// The nodes over a list of slots. Each coefficient is computed from the list, and no error comes. They
/// are fit where there are at most 2^35 slots.
#[derive(Drop)]
pub struct ListNodes<'a> {
    slots: &'a [Option<i64>],
    root: Option<Span>,
    asked: Option<Key>,
    ghost values: { AreSlots slots.now },
    ghost whole: { root ≡ span_over slots.now 0 (length slots.now) },
}

impl<'a> ListNodes<'a> {
    ghost use Rattle.std.specs.Prelude.{◌≡◌, ◌<◌, ◌≤◌, ◌^◌, length, None};
    ghost use Rattle.om3_coeff.specs.Keys.{end_slot};
    ghost use Rattle.om3_coeff.specs.Spans.{AreSlots, span};
    ghost use Rattle.om3_coeff.specs.View.{Agrees};
    ghost use Rattle.om3_coeff.specs.ListNodes.{list_view};

    /// The nodes over these slots.
    pub fn new(slots: &'a [Option<i64>]) -> ListNodes<'a>
        requires { AreSlots slots.now }
        ensures slots { result.slots.now ≡ slots.now }
        ensures asked { result.asked ≡ None }
        ensures agrees { length slots.now ≤ 2 ^ 35 → Agrees (list_view result.slots.now result.asked) slots.now }
    {
        ListNodes {
            slots,
            root: span_of(slots),
            asked: None,
        }
    }

    // The span of the key's range, as far as there are slots.
    fn span(&self, key: Key) -> Option<Span>
        requires { end_slot key < 2 ^ 63 }
        ensures { result ≡ span self.now.slots.now key }
    {
        let count = self.slots.len();
        let first = (key.first() as usize).min(count);
        let end = (key.end() as usize).min(count);
        span_of(&self.slots[first..end])
    }
}

impl<'a> Nodes for ListNodes<'a> {
    ghost use Rattle.std.specs.Prelude.{◌≡◌, refl};
    ghost use Rattle.std.proofs.Common.{◌∙◌};
    ghost use Rattle.om3_coeff.specs.ListNodes.{list_view, list_stays};

    ghost view = { λ nodes. list_view nodes.slots.now nodes.asked };

    ghost keeps = { λ old new. new.slots.now ≡ old.slots.now };

    fn slots(&self) -> u64 {
        self.slots.len() as u64
    }

    fn root(&self) -> Option<Span> {
        self.root
    }

    fn coef(&mut self, key: Key, _span: Span) -> Result<Coef, NodeError> {
        let left = self.span(key.left());
        let right = self.span(key.right());
        self.asked = Some(key);
        Ok(join(left, right).0)
    }

    ghost keeps_itself = { λ nodes. refl };

    ghost keeps_on = { λ old between new before after. after ∙ before };

    ghost keeps_same = { λ old new same. list_stays old.slots.now new.slots.now old.asked new.asked same };
}
