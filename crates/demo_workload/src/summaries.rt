ghost use Rattle.std.specs.Prelude.{◌≡◌, ◌+◌, ◌≤◌, ◌<◌, ◌^◌, ◌++◌, [], length, IfOk, codes};
ghost use Rattle.std.specs.Fmt.{decimal};
ghost use Rattle.chart_frames.specs.Frames.{spelling};
ghost use Rattle.demo_workload.specs.Summaries.{AddsReply, summary_of, summary_line, picture_pixels, IsSmall};

use chart_frames::Frame;
use line_raster::Bitmap;
use std::alloc::{AllocError, Global};

/// What the replies to requests are in all.
#[derive(Clone, Copy)]
pub struct Summary {
    /// The requests.
    pub requests: u64,
    /// The Done frames.
    pub done: u64,
    /// The Refused frames.
    pub refused: u64,
    /// The answered views.
    pub views: u64,
    /// The bytes of their frames.
    pub sent: u64,
    /// The black pixels of all pictures.
    pub black: u64,
}

impl Summary {
    /// The summary of no reply.
    #[tactic(auto, unfolding(crate::specs::Summaries::summary_of))]
    pub fn new() -> Summary
        ensures summary { result ≡ summary_of [] [] }
        ensures none { result.requests ≡ 0 }
        ensures small { IsSmall result }
    {
        Summary {
            requests: 0,
            done: 0,
            refused: 0,
            views: 0,
            sent: 0,
            black: 0,
        }
    }

    /// Adds a reply of so many bytes, with its picture.
    pub fn add(&mut self, frame: &Frame, bytes: u64, picture: &Option<Bitmap>)
        requires few { self.old.requests < 2 ^ 32 }
        requires small { IsSmall self.old }
        requires spelled { bytes ≡ length (spelling frame.now) }
        requires short { bytes ≤ 4194308 }
        ensures summary { AddsReply frame.now picture.now self.old self.new }
        ensures small { IsSmall self.new }
        ensures requests { self.new.requests ≡ self.old.requests + 1 }
    {
        self.requests += 1;
        self.black += black(picture);
        match frame {
            Frame::Done { .. } => self.done += 1,
            Frame::Refused { .. } => self.refused += 1,
            Frame::Opened { .. } => {}
            Frame::Closed { .. } => {}
            Frame::Live { .. } => {}
            Frame::Report(_) => {}
            Frame::View(_) => self.add_view(bytes),
            Frame::Rows(_) => self.add_view(bytes),
        }
    }

    /// Adds an answered view, whose frame has so many bytes.
    fn add_view(&mut self, bytes: u64)
        requires views { self.old.views < 2 ^ 32 }
        requires sent { self.old.sent < 2 ^ 63 }
        requires short { bytes ≤ 4194308 }
        ensures { self.new ≡ record self.old { views = self.old.views + 1; sent = self.old.sent + bytes } }
    {
        self.views += 1;
        self.sent += bytes;
    }

    /// The line of the summary.
    pub fn line(&self, alloc: Global) -> Result<Vec<u8>, AllocError>
        ensures { IfOk result (λ line. line.items ≡ summary_line self.now) }
    {
        let mut line = replies_text(alloc, self.requests, self.done, self.refused)?;
        let views = views_text(alloc, self.views, self.sent, self.black)?;
        line.extend_from_slice(&views)?;
        Ok(line)
    }
}

/// The first half of a summary's line.
fn replies_text(
    alloc: Global,
    requests: u64,
    done: u64,
    refused: u64,
) -> Result<Vec<u8>, AllocError>
    ensures { IfOk result (λ text. text.items ≡ codes
        "requests " ++ (decimal requests ++ (codes " done " ++ (decimal done ++ (codes " refused " ++ decimal refused))))) }
{
    let text = format!(in alloc; "requests {requests} done {done} refused {refused}")?;
    Ok(Vec::from_slice(alloc, text.as_bytes())?)
}

/// The second half of a summary's line.
fn views_text(alloc: Global, views: u64, sent: u64, black: u64) -> Result<Vec<u8>, AllocError>
    ensures { IfOk result (λ text. text.items ≡ codes
        " views " ++ (decimal views ++ (codes " sent " ++ (decimal sent ++ (codes " black " ++ (decimal black ++ codes "\n")))))) }
{
    let text = format!(in alloc; " views {views} sent {sent} black {black}\n")?;
    Ok(Vec::from_slice(alloc, text.as_bytes())?)
}

/// The black pixels of a picture, where there is one.
#[tactic(auto, using(crate::proofs::Summing::few_black))]
fn black(picture: &Option<Bitmap>) -> u64
    ensures pixels { result ≡ picture_pixels picture.now }
    ensures few { result ≤ 2 ^ 24 }
{
    match picture {
        Some(bitmap) => {
            // It brings in the limits of the picture's sides.
            let _sides = (bitmap.width(), bitmap.height());
            bitmap.black()
        }
        None => 0,
    }
}
