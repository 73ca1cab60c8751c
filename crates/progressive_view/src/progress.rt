ghost use Rattle.std.specs.Prelude.{◌≡◌, ◌+◌, ◌<◌, ◌↔◌, None, IfOk, IfErr, IsSome, OnErr, OnOk, IsTrue, if◌then◌else◌, length, min};
ghost use Rattle.chart_frames.specs.Frames.{FitsView};
ghost use Rattle.chart_client.specs.declared.errors.ClientError.TheVariants as client_errors;
ghost use Rattle.chart_client.specs.Holdings.{holding_of};
ghost use Rattle.progressive_view.specs.Covers.{Taking, DrawsCover};

use crate::scopes::scope_of;
use crate::taken::Taken;
use chart_client::{Client, ClientError};
use chart_frames::ViewFrame;
use line_raster::Bitmap;
use std::alloc::{AllocError, Global};
use std::marker::Model;
use view_cover::draw_cover;

/// A view whose coefficients are taken one after the other.
#[derive(Drop)]
pub struct Progress<'a> {
    alloc: Global,
    client: &'a Client,
    view: &'a ViewFrame,
    taken: u32,
}

impl<'a> Model for Progress<'a> {
    ghost use Rattle.progressive_view.specs.Covers.{Taking, IsUnderWay};

    ghost Value = { Taking };

    ghost view = { λ p. record { view = p.view.now; holdings = p.client.now; taken = p.taken } };

    ghost invariant = { λ p. IsUnderWay p.view.now p.client.now p.taken };
}

impl<'a> Progress<'a> {
    /// A view of which no coefficient is taken yet. It is `UnknownSession` where its session isn't open
    /// at the client. It takes no memory.
    pub fn begin(
        alloc: Global,
        client: &'a Client,
        view: &'a ViewFrame,
    ) -> Result<Progress<'a>, ClientError>
        requires { FitsView view.now }
        ensures begun { IfOk result (λ progress. progress ≡ record { view = view.now; holdings = client.now; taken = 0 }) }
        ensures was_open { OnOk result (IsSome (holding_of view.now.session client.now)) }
        ensures refused { IfErr result (λ e. e ≡ client_errors.UnknownSession view.now.session) }
        ensures not_open { OnErr result (holding_of view.now.session client.now ≡ None) }
    {
        if !client.is_open(view.session) {
            return Err(ClientError::UnknownSession {
                session: view.session,
            });
        }
        Ok(Progress {
            alloc,
            client,
            view,
            taken: 0,
        })
    }

    /// Takes the next coefficient that the frame sends, and says whether there was one.
    pub fn advance(&mut self) -> bool
        ensures more { IsTrue result ↔ (self.old.taken < length self.old.view.coefs) }
        ensures taken { self.new ≡ record {
          view = self.old.view;
          holdings = self.old.holdings;
          taken = if result then self.old.taken + 1 else self.old.taken;
        } }
    {
        if self.taken >= self.view.count {
            return false;
        }
        self.taken += 1;
        true
    }

    /// Takes so many of the coefficients that are left, or all of them.
    pub fn advance_by(&mut self, count: u32)
        ensures view { self.new.view ≡ self.old.view }
        ensures holdings { self.new.holdings ≡ self.old.holdings }
        ensures taken { self.new.taken ≡ min (self.old.taken + count) (length self.old.view.coefs) }
    {
        let left = self.view.count - self.taken;
        self.taken += left.min(count);
    }

    /// How many coefficients are taken.
    pub fn taken(&self) -> u32
        ensures { result ≡ self.now.taken }
    {
        self.taken
    }

    /// The cover of the view's chart, by the coefficients that count so far.
    pub fn cover(&self) -> Result<Bitmap, AllocError>
        ensures { IfOk result (DrawsCover self.now) }
    {
        let scope = scope_of(self.view);
        let taken = Taken {
            client: self.client,
            sent: self.view.coefs.as_slice(),
            session: self.view.session,
            series: self.view.series,
            scope,
            taken: self.taken as usize,
        };
        draw_cover(self.alloc, &taken, &scope)
    }
}
