//! What follows from the definitions. The functions do nothing: their contracts are the laws.
ghost use Rattle.series_pair.specs.Laws.{ChartsAreOne, LargeSumsHaveNoChart};

use derived_chart::laws::samples_are_one;

/// A chart of a sum is the only one of its kind: another one has the same size and the same black pixels.
pub fn charts_are_one()
    ensures { ChartsAreOne }
{
    samples_are_one();
}

/// A sum that is too large at some time of the window has no chart.
pub fn large_sums_have_no_chart()
    ensures { LargeSumsHaveNoChart }
{}
