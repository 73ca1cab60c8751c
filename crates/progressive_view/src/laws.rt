//! What follows from the definitions. The functions do nothing: their contracts are the laws.
ghost use Rattle.progressive_view.specs.Laws.{LaterCoversLieWithin, CoversHoldAgreeingCharts, PicturesLieWithinCovers};

use view_cover::laws::{covers_hold_the_chart, covers_shrink};
use view_keys::laws::wanted_keys_are_needed;

/// A later cover of a view lies within an earlier one.
pub fn later_covers_lie_within()
    ensures { LaterCoversLieWithin }
{
    covers_shrink();
}

/// Where no wanted key of a view's frame fails, the cover of each stage holds the chart of each list
/// that agrees with the whole frame.
pub fn covers_hold_agreeing_charts()
    ensures { CoversHoldAgreeingCharts }
{
    covers_hold_the_chart();
    wanted_keys_are_needed();
}

/// Where a client accepts a view's frame, its picture is the chart of each list that agrees with the
/// frame, and black only where each cover of the view is.
pub fn pictures_lie_within_covers()
    ensures { PicturesLieWithinCovers }
{
    covers_hold_the_chart();
    wanted_keys_are_needed();
}
