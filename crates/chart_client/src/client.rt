ghost use Rattle.std.specs.Prelude.{◌≡◌, [], ◌==◌, None, Some, IfOk, IfErr, IfSome, IsSome, OnOk, OnErr, is_some, position};
ghost use Rattle.std.specs.Option.{option_map};
ghost use Rattle.coefficient_cache.specs.Caches.{IsCapacity};
ghost use Rattle.chart_frames.specs.declared.frame.Frame.TheVariants.{View, Rows};
ghost use Rattle.chart_frames.specs.Frames.{Fits, FitsView, FitsRows};
ghost use Rattle.chart_client.specs.declared.errors.ClientError.TheVariants as client;
ghost use Rattle.chart_client.specs.Held.{held_by};
ghost use Rattle.chart_client.specs.Holdings.{holding_of, without, opened};
ghost use Rattle.chart_client.specs.Accepting.{Accepts, Rejects, Leaves, KeepsUnless};
ghost use Rattle.chart_client.specs.Spanning.{SpanPicture};

use crate::column_spans::ColumnSpans;
use crate::drawing::{grid_of, picture_of};
use crate::errors::ClientError;
use crate::finding::find;
use crate::holding::Holding;
use crate::picture::Picture;
use chart_frames::{Frame, RowsFrame, ViewFrame};
use coefficient_cache::CoefficientCache;
use line_raster::Bitmap;
use needed_nodes::laws::points_are_the_samples;
use om3_coeff::{Coef, Key};
use std::alloc::{AllocError, Global};
use std::marker::Model;

/// What a client holds of the sessions that are open in its stream.
#[derive(Drop)]
pub struct Client {
    alloc: Global,
    holdings: Vec<Holding>,
}

impl Model for Client {
    ghost use Rattle.std.specs.Prelude.{List};
    ghost use Rattle.chart_client.specs.declared.holding.Holding.{Holding};

    ghost Value = { List Holding };

    ghost view = { λ c. c.holdings.items };
}

impl Client {
    /// A client before any frame.
    pub fn new(alloc: Global) -> Result<Client, AllocError>
        ensures { IfOk result (λ client. client ≡ []) }
    {
        Ok(Client {
            alloc,
            holdings: Vec::new(alloc),
        })
    }

    /// Takes a frame, and answers the picture of a View or Rows frame.
    ///
    /// It is `UnknownSession` where a View, Rows, Closed or Live frame names a session that isn't open, and
    /// `Missing` or `BadCoefficient` where a View wants a key whose coefficient is neither sent nor held,
    /// or doesn't fit the key's span: for the first such key, from the top level down and then from left
    /// to right. After these nothing has changed. After `NoMemory` no session is open any more.
    pub fn accept(&mut self, frame: &Frame) -> Result<Option<Bitmap>, ClientError>
        requires { Fits frame.now }
        ensures accepted { IfOk result (λ drawing. Accepts frame.now drawing self.old self.new) }
        ensures rejected { IfErr result (λ e. Rejects frame.now e self.old) }
        ensures left { IfErr result (λ e. Leaves e self.old self.new) }
    {
        match self.accept_with_columns(frame)? {
            Some(picture) => Ok(Some(picture.bitmap)),
            None => Ok(None),
        }
    }

    /// The same, with the least and the greatest value of each column of the picture.
    pub fn accept_with_columns(&mut self, frame: &Frame) -> Result<Option<Picture>, ClientError>
        requires { Fits frame.now }
        ensures accepted { IfOk result (λ picture. Accepts frame.now (option_map (λ p. p.bitmap) picture) self.old self.new) }
        ensures columns { IfOk result (λ picture. IfSome picture (λ p. SpanPicture frame.now self.old p.columns)) }
        ensures rejected { IfErr result (λ e. Rejects frame.now e self.old) }
        ensures left { IfErr result (λ e. Leaves e self.old self.new) }
    {
        let accepted = self.take(frame);
        if let Err(ClientError::NoMemory) = accepted {
            self.holdings.clear();
        }
        accepted
    }

    // The same, but after `NoMemory` any sessions are open.
    fn take(&mut self, frame: &Frame) -> Result<Option<Picture>, ClientError>
        requires { Fits frame.now }
        ensures accepted { IfOk result (λ picture. Accepts frame.now (option_map (λ p. p.bitmap) picture) self.old self.new) }
        ensures columns { IfOk result (λ picture. IfSome picture (λ p. SpanPicture frame.now self.old p.columns)) }
        ensures rejected { IfErr result (λ e. Rejects frame.now e self.old) }
        ensures kept { IfErr result (λ e. KeepsUnless e self.old self.new) }
    {
        match frame {
            Frame::Done { .. } | Frame::Refused { .. } | Frame::Report(_) => Ok(None),
            Frame::Opened { session, cache } => {
                self.open(*session, *cache)?;
                Ok(None)
            }
            Frame::Closed { session } => {
                self.close(*session)?;
                Ok(None)
            }
            Frame::View(view) => Ok(Some(self.view(view)?)),
            Frame::Rows(rows) => Ok(Some(self.rows(rows)?)),
            Frame::Live { session, .. } => {
                self.need(*session)?;
                Ok(None)
            }
        }
    }

    // Opens a session, also one that is open.
    fn open(&mut self, session: u32, size: u32) -> Result<(), ClientError>
        requires { IsCapacity size }
        ensures opened { OnOk result (self.new ≡ opened session size self.old) }
        ensures failed { IfErr result (λ e. e ≡ client.NoMemory) }
    {
        let cache = CoefficientCache::new(self.alloc, size)?;
        self.remove(session);
        self.holdings.push(Holding {
            number: session,
            cache,
        })?;
        Ok(())
    }

    fn close(&mut self, number: u32) -> Result<(), ClientError>
        ensures closed { OnOk result (self.new ≡ without number self.old) }
        ensures was_open { OnOk result (IsSome (holding_of number self.old)) }
        ensures refused { IfErr result (λ e. e ≡ client.UnknownSession number) }
        ensures not_open { OnErr result (holding_of number self.old ≡ None) }
        ensures unchanged { OnErr result (self.new ≡ self.old) }
    {
        if !self.is_open(number) {
            return Err(ClientError::UnknownSession { session: number });
        }
        self.remove(number);
        Ok(())
    }

    // Whether a session is open, or why a frame that names it isn't accepted.
    fn need(&self, number: u32) -> Result<(), ClientError>
        ensures is_open { OnOk result (IsSome (holding_of number self.now)) }
        ensures refused { IfErr result (λ e. e ≡ client.UnknownSession number) }
        ensures not_open { OnErr result (holding_of number self.now ≡ None) }
    {
        if self.is_open(number) {
            Ok(())
        } else {
            Err(ClientError::UnknownSession { session: number })
        }
    }

    // Drops the holding of a session, if it is open.
    fn remove(&mut self, number: u32)
        ensures { self.new ≡ without number self.old }
    {
        self.holdings.retain(|holding| holding.number != number);
    }

    /// Whether a session is open.
    pub fn is_open(&self, number: u32) -> bool
        ensures { result ≡ is_some (holding_of number self.now) }
    {
        self.place_of(number).is_some()
    }

    /// The coefficient that is held for a key of a series, in the list of a session. It is `None` where
    /// the session isn't open or its list lacks the key. The list stays as it is.
    pub fn held(&self, session: u32, series: u16, key: Key) -> Option<Coef>
        ensures { result ≡ held_by (holding_of session self.now) series key }
    {
        let Some(place) = self.place_of(session) else {
            return None;
        };
        self.holdings[place].cache.find(series, key)
    }

    // The place of the holding of a session.
    fn place_of(&self, number: u32) -> Option<usize>
        ensures { result ≡ position (λ holding. holding.number == number) self.now }
    {
        self.holdings
            .iter()
            .position(|holding| holding.number == number)
    }

    fn view(&mut self, view: &ViewFrame) -> Result<Picture, ClientError>
        requires { FitsView view.now }
        ensures accepted { IfOk result (λ picture. Accepts (View view.now) (Some picture.bitmap) self.old self.new) }
        ensures columns { IfOk result (λ picture. SpanPicture (View view.now) self.old picture.columns) }
        ensures rejected { IfErr result (λ e. Rejects (View view.now) e self.old) }
        ensures kept { IfErr result (λ e. KeepsUnless e self.old self.new) }
    {
        let Some(place) = self.place_of(view.session) else {
            return Err(ClientError::UnknownSession {
                session: view.session,
            });
        };
        let grid = grid_of(view);
        points_are_the_samples();
        let findings = find(self.alloc, view, &self.holdings[place].cache, grid)?;
        let bitmap = picture_of(self.alloc, view.w, view.h, &findings.rows, view.lo, view.hi)?;
        let holding = &mut self.holdings[place];
        holding
            .cache
            .renew(self.alloc, view.series, findings.needed.as_slice())?;
        let columns = ColumnSpans::of(findings.rows);
        Ok(Picture { bitmap, columns })
    }

    fn rows(&self, rows: &RowsFrame) -> Result<Picture, ClientError>
        requires { FitsRows rows.now }
        ensures accepted { IfOk result (λ picture. Accepts (Rows rows.now) (Some picture.bitmap) self.now self.now) }
        ensures columns { IfOk result (λ picture. SpanPicture (Rows rows.now) self.now picture.columns) }
        ensures rejected { IfErr result (λ e. Rejects (Rows rows.now) e self.now) }
    {
        if !self.is_open(rows.session) {
            return Err(ClientError::UnknownSession {
                session: rows.session,
            });
        }
        let bitmap = picture_of(self.alloc, rows.w, rows.h, &rows.rows, rows.lo, rows.hi)?;
        let columns = ColumnSpans::copy_of(self.alloc, &rows.rows)?;
        Ok(Picture { bitmap, columns })
    }
}
