use crate::answer::Answer;
use crate::cover::cover_of;
use crate::fault::Fault;
use chart_client::{Client, ColumnSpans};
use chart_frames::{Decoder, Frame, FrameFault};
use om3_coeff::Span;
use pbm_writer::pbm;
use std::alloc::{AllocError, Global};
use std::marker::Model;

/// A stream of frames, and a client that draws them.
#[derive(Drop)]
pub struct Stream {
    decoder: Decoder,
    client: Client,
    // The frame that was taken last, until it is drawn.
    frame: Option<Frame>,
    // The bytes of what was drawn last, or none.
    picture: Vec<u8>,
    // Those of the picture that was drawn last; a cover is no picture.
    columns: ColumnSpans,
}

impl Model for Stream {
    ghost use Rattle.client_exports.specs.State.{State, HandFits};

    ghost Value = { State };

    ghost view = { λ s. record {
      decoder = s.decoder;
      client = s.client;
      frame = s.frame;
      picture = s.picture.items;
      columns = s.columns;
    } };

    ghost invariant = { λ s. HandFits s.frame };
}

impl Stream {
    ghost use Rattle.std.specs.Prelude.{◌≡◌, ◌++◌, None, length, IfOk, OnOk, OnErr};
    ghost use Rattle.chart_client.specs.Spanning.{span_in};
    ghost use Rattle.client_exports.specs.Steps.{IsFresh, Hands, Draws, DrawsColumns, Covers};
    ghost use Rattle.client_exports.specs.Answers.{TellsColumn, TellColumns};

    /// A stream before any byte.
    pub(crate) fn new(alloc: Global) -> Result<Stream, AllocError>
        ensures { IfOk result IsFresh }
    {
        Ok(Stream {
            decoder: Decoder::new(alloc),
            client: Client::new(alloc)?,
            frame: None,
            picture: Vec::new(alloc),
            columns: ColumnSpans::none(alloc),
        })
    }

    /// Takes the next piece of the stream.
    pub(crate) fn feed(&mut self, piece: &[u8]) -> Result<(), AllocError>
        ensures given { self.new.decoder.given ≡ self.old.decoder.given }
        ensures ok { OnOk result (self.new.decoder.rest ≡ self.old.decoder.rest ++ piece.now) }
        ensures err { OnErr result (self.new.decoder ≡ self.old.decoder) }
        ensures client { self.new.client ≡ self.old.client }
        ensures frame { self.new.frame ≡ self.old.frame }
        ensures picture { self.new.picture ≡ self.old.picture }
        ensures columns { self.new.columns ≡ self.old.columns }
    {
        self.decoder.feed(piece)
    }

    /// Takes the next frame in hand, where none is.
    pub(crate) fn next(&mut self) -> Result<(), FrameFault>
        ensures hands { Hands self.old.frame self.old.decoder result self.new.frame self.new.decoder }
        ensures client { self.new.client ≡ self.old.client }
        ensures picture { self.new.picture ≡ self.old.picture }
        ensures columns { self.new.columns ≡ self.old.columns }
    {
        if self.frame.is_none() {
            self.frame = self.decoder.next()?;
        }
        Ok(())
    }

    /// The frame in hand.
    pub(crate) fn frame(&self) -> &Option<Frame>
        ensures { result.now ≡ self.now.frame }
    {
        &self.frame
    }

    /// How many bytes were fed and not taken.
    pub(crate) fn pending(&self) -> u64
        ensures { result ≡ length self.now.decoder.rest }
    {
        self.decoder.pending()
    }

    /// Has the client accept the frame in hand, and draws it. Whether there was one; there is none then.
    pub(crate) fn draw(&mut self, alloc: Global) -> Result<bool, Fault>
        ensures frame { self.new.frame ≡ None }
        ensures decoder { self.new.decoder ≡ self.old.decoder }
        ensures draws { Draws self.old.frame self.old.client result self.new.client self.new.picture }
        ensures columns { DrawsColumns self.old.frame self.old.client result self.old.columns self.new.columns }
    {
        self.picture.clear();
        let Some(frame) = self.frame.take() else {
            return Ok(false);
        };
        if let Some(drawn) = self.client.accept_with_columns(&frame)? {
            self.picture = pbm(alloc, &drawn.bitmap)?;
            self.columns = drawn.columns;
        }
        Ok(true)
    }

    /// Draws the cover of the view in hand once so many of its coefficients are taken. Whether there is a view.
    pub(crate) fn cover(&mut self, alloc: Global, count: u32) -> Result<bool, Fault>
        ensures covers { Covers self.old.frame self.old.client count result self.new.picture }
        ensures frame { self.new.frame ≡ self.old.frame }
        ensures decoder { self.new.decoder ≡ self.old.decoder }
        ensures client { self.new.client ≡ self.old.client }
        ensures columns { self.new.columns ≡ self.old.columns }
    {
        self.picture.clear();
        let Some(Frame::View(view)) = &self.frame else {
            return Ok(false);
        };
        let cover = cover_of(alloc, &self.client, view, count)?;
        self.picture = pbm(alloc, &cover)?;
        Ok(true)
    }

    /// The bytes of what was drawn last, or none.
    pub(crate) fn picture(&self) -> &[u8]
        ensures { result.now ≡ self.now.picture }
    {
        self.picture.as_slice()
    }

    /// The least and the greatest value of a column of the picture that was drawn last.
    pub(crate) fn span_of(&self, column: u32) -> Option<Span>
        ensures { result ≡ span_in self.now.columns column }
    {
        self.columns.span_of(column)
    }

    /// Tells of each column from 0 on the least and the greatest value.
    pub(crate) fn tell_columns(&self, out: &mut [Answer])
        ensures { TellColumns self.now.columns out.new }
    {
        for x in 0..out.len() {
            out[x] = self.told_of(x);
        }
    }

    // The least and the greatest value of a column, where it can be one.
    fn told_of(&self, x: usize) -> Answer
        ensures { TellsColumn self.now.columns x result }
    {
        match u32::try_from(x) {
            Ok(column) => Answer::of_span(self.span_of(column)),
            Err(_) => Answer::coded(0),
        }
    }
}
