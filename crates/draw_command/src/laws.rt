//! What follows from the definitions. The functions do nothing: their contracts are the laws.
ghost use Rattle.draw_command.specs.Laws.{CoversNarrow, CoversHoldThePicture};

use progressive_view::laws::{later_covers_lie_within, pictures_lie_within_covers};

/// Of the covers that are sent for a view a later one lies within an earlier one. Where the view is
/// accepted, and for a list of slots that agrees with its frame, the picture lies within each of them.
pub fn covers_narrow_to_the_picture()
    ensures narrow { CoversNarrow }
    ensures hold { CoversHoldThePicture }
{
    later_covers_lie_within();
    pictures_lie_within_covers();
}
