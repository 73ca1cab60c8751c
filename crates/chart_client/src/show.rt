ghost use Rattle.std.specs.Prelude.{ℕ, List, Result};
ghost use Rattle.chart_client.specs.declared.errors.ClientError.{ClientError};
ghost use Rattle.chart_client.specs.declared.show.Shown.{Shown};
ghost use Rattle.chart_client.specs.Showing.{IsSpelling};

use crate::errors::ClientError;
use chart_frames::Frame;
use line_raster::Bitmap;

/// What the bytes of a frame show: the frame, and the picture of a View or Rows frame.
#[derive(Drop)]
pub struct Shown {
    pub frame: Frame,
    pub bitmap: Option<Bitmap>,
}

/// What shows the frames of a stream.
pub trait Show: Drop {
    /// What showing these bytes may answer, and what it may leave.
    ghost gives: { Self → List ℕ → Result Shown ClientError → Self → Type 0 };

    /// Shows the bytes of one frame.
    fn show(&mut self, bytes: &[u8]) -> Result<Shown, ClientError>
        requires { IsSpelling bytes.now }
        ensures { gives self.old bytes.now result self.new };
}
