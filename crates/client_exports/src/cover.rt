//! The cover of a view.

ghost use Rattle.std.specs.Prelude.{length, min, IfOk, IfErr};
ghost use Rattle.chart_frames.specs.Frames.{FitsView};
ghost use Rattle.progressive_view.specs.Covers.{DrawsCover};
ghost use Rattle.client_exports.specs.Steps.{CoverFails};

use chart_client::{Client, ClientError};
use chart_frames::ViewFrame;
use line_raster::Bitmap;
use progressive_view::Progress;
use std::alloc::Global;

/// The cover of a view once so many of its coefficients are taken, or all where it has fewer.
pub(crate) fn cover_of(
    alloc: Global,
    client: &Client,
    view: &ViewFrame,
    count: u32,
) -> Result<Bitmap, ClientError>
    requires { FitsView view.now }
    ensures cover { IfOk result (λ cover. DrawsCover
        (record { view = view.now; holdings = client.now; taken = min count (length view.now.coefs) }) cover) }
    ensures failed { IfErr result (λ e. CoverFails view.now client.now e) }
{
    let mut progress = Progress::begin(alloc, client, view)?;
    progress.advance_by(count);
    Ok(progress.cover()?)
}
