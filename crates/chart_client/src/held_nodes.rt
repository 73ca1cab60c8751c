ghost use Rattle.std.specs.Prelude.{◌≡◌, ◌<◌, IfOk, IfErr, AllPairs};
ghost use Rattle.chart_frames.specs.Frames.{Precedes};
ghost use Rattle.om3_coeff.specs.Keys.{left_of, right_of};
ghost use Rattle.om3_coeff.specs.View.{IsNodeOf};
ghost use Rattle.om3_coeff.specs.Walks.{IsReached};
ghost use Rattle.chart_client.specs.HeldNodes.{held_told, told_view, seen_of};
ghost use Rattle.chart_client.specs.Searching.{IsFailure};

use crate::failure::Failure;
use crate::lookup::look_up;
use coefficient_cache::CoefficientCache;
use om3_coeff::{Coef, Key, NodeError, Nodes, Span, split};

/// The nodes over what a view's frame sends and a client holds. An ask is answered `Missing` where the
/// key's coefficient is neither sent nor held, and `BadCoefficient` where it doesn't fit the key's
/// span; no other error comes.
#[derive(Drop)]
pub(crate) struct HeldNodes<'a> {
    pub(crate) series: u16,
    /// The coefficients that are sent, from the top level down and then from left to right.
    pub(crate) sent: &'a [(Key, Coef)],
    pub(crate) cache: &'a CoefficientCache,
    pub(crate) slots: u64,
    pub(crate) root: Option<Span>,
    pub(crate) asked: Option<Key>,
    /// Where among the sent coefficients, and in the cache, the next key of each level may stand.
    pub(crate) hints: [(usize, usize); LEVELS],
}

/// More than a tree has.
pub(crate) const LEVELS: usize = 64;

impl<'a> HeldNodes<'a> {
    /// The coefficient of a key: the one that is sent or, where none is, the one that is held; and hints
    /// for the next key on its level.
    pub(crate) fn told(&self, key: Key, hint: (usize, usize)) -> (Option<Coef>, (usize, usize))
        requires order { AllPairs Precedes self.now.sent.now }
        ensures { result.0 ≡ held_told self.now.series self.now.sent.now self.now.cache.now key }
    {
        let (sent, next) = look_up(self.sent, key, hint.0);
        match sent {
            Some(coef) => (Some(coef), (next, hint.1)),
            None => {
                let (held, behind) = self.cache.find_near(hint.1, self.series, key);
                (held, (next, behind))
            }
        }
    }

    /// The spans of the two halves of a key's range, or how its coefficient fails.
    pub(crate) fn halves(
        &self,
        key: Key,
        span: Span,
    ) -> Result<(Option<Span>, Option<Span>), Failure>
        requires fit { (told_view self.now).fit }
        requires key { IsNodeOf (told_view self.now) key }
        requires reached { IsReached (told_view self.now) key (Some span) }
        ensures left { IfOk result (λ halves. IsReached (told_view self.now) (left_of key) halves.0) }
        ensures right { IfOk result (λ halves. IsReached (told_view self.now) (right_of key) halves.1) }
        ensures named { IfErr result (λ f. f.key ≡ key) }
        ensures fails { IfErr result (λ f. IsFailure (seen_of self.now) self.now.slots f) }
    {
        let (told, _) = self.told(key, (0, 0));
        let Some(coef) = told else {
            return Err(Failure {
                key,
                is_missing: true,
            });
        };
        let Ok(halves) = split(span, coef) else {
            return Err(Failure {
                key,
                is_missing: false,
            });
        };
        Ok(halves)
    }
}

impl<'a> Nodes for HeldNodes<'a> {
    ghost use Rattle.chart_client.specs.HeldNodes.{held_view, Stays};
    ghost use Rattle.chart_client.specs.Keeping.{stays_itself, stays_on, stays_same};

    ghost view = { λ nodes. held_view nodes };

    ghost keeps = { λ old new. Stays old new };

    fn slots(&self) -> u64 {
        self.slots
    }

    fn root(&self) -> Option<Span> {
        self.root
    }

    fn coef(&mut self, key: Key, span: Span) -> Result<Coef, NodeError> {
        self.asked = None;
        let level = usize::from(key.level) % LEVELS;
        let (told, next) = self.told(key, self.hints[level]);
        self.hints[level] = next;
        let Some(coef) = told else {
            return Err(NodeError::Missing { key });
        };
        if split(span, coef).is_err() {
            return Err(NodeError::BadCoefficient { key });
        }
        self.asked = Some(key);
        Ok(coef)
    }

    ghost keeps_itself = { λ nodes. stays_itself nodes };

    ghost keeps_on = { λ old between new before after. stays_on old between new before after };

    ghost keeps_same = { λ old new same. stays_same old new same };
}
