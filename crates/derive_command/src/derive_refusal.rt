//! Why a request is refused.
ghost use Rattle.std.specs.Prelude.{◌≡◌};
ghost use Rattle.derive_command.specs.Answers.{number_of};

use series_book::Refusal;
use series_book::refusal_numbers::{OTHER_GRID, SUM_TOO_LARGE};
use thiserror::Error;

/// Why a request is refused. The variants stand in the order in which they are tested.
#[derive(Clone, Copy, Debug, Error)]
pub enum DeriveRefusal {
    /// No series has the one or the other name.
    #[error("no such series")]
    UnknownSeries,
    /// The steps of the two series differ, or their starts differ by no multiple of the step.
    #[error("the series are on no common grid")]
    NotOneGrid,
    /// The window is empty, or an end of it is more than 2 * 10^18 in size.
    #[error("bad window")]
    BadWindow,
    /// The width or the height isn't 1 to 4,096.
    #[error("bad canvas")]
    BadCanvas,
    /// The range's low end is above its high end, or one of them is more than 10^18 in size.
    #[error("bad range")]
    BadRange,
    /// A sum in the window is more than 10^18 in size.
    #[error("a sum is too large")]
    TooLarge,
}

impl DeriveRefusal {
    /// The number of the refusal. A view that is refused for the same reason has the same number.
    pub fn number(self) -> u8
        ensures { result ≡ number_of self }
    {
        match self {
            DeriveRefusal::UnknownSeries => Refusal::UnknownSeries.number(),
            DeriveRefusal::NotOneGrid => OTHER_GRID,
            DeriveRefusal::BadWindow => Refusal::BadWindow.number(),
            DeriveRefusal::BadCanvas => Refusal::BadCanvas.number(),
            DeriveRefusal::BadRange => Refusal::BadRange.number(),
            DeriveRefusal::TooLarge => SUM_TOO_LARGE,
        }
    }
}
