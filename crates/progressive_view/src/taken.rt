//! Which coefficients count.

ghost use Rattle.std.specs.Prelude.{◌<◌, AllPairs};
ghost use Rattle.chart_frames.specs.Frames.{Precedes};

use crate::places::{coef_at, place_of};
use chart_client::Client;
use om3_coeff::{Coef, Key};
use view_cover::{Scope, Teller};

/// What tells the coefficients that count: the first `taken` of those that are sent, and held ones.
#[derive(Clone, Copy)]
pub(crate) struct Taken<'a> {
    pub(crate) client: &'a Client,
    pub(crate) sent: &'a [(Key, Coef)],
    pub(crate) session: u32,
    pub(crate) series: u16,
    pub(crate) scope: Scope,
    pub(crate) taken: usize,
}

impl<'a> Teller for Taken<'a> {
    ghost use Rattle.std.specs.Prelude.{AllPairs};
    ghost use Rattle.chart_frames.specs.Frames.{Precedes};
    ghost use Rattle.chart_client.specs.Holdings.{holding_of};
    ghost use Rattle.progressive_view.specs.Telling.{told_in};

    ghost fit = { λ t. AllPairs Precedes t.sent.now };

    ghost told = { λ t. told_in t.scope t.sent.now (holding_of t.session t.client.now) t.series t.taken };

    fn coef(&self, key: Key) -> Option<Coef> {
        let place = place_of(self.sent, key);
        match coef_at(self.sent, place, key) {
            Some(coef) => { if place < self.taken { Some(coef) } else { None } }
            None => {
                if place <= self.taken && self.scope.is_across(key) {
                    self.client.held(self.session, self.series, key)
                } else {
                    None
                }
            }
        }
    }
}
