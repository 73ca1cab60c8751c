//! What follows from the definitions. The functions do nothing: their contracts are the laws.
ghost use Rattle.std.specs.Prelude.{◌≡◌, ℤ, ◌<◌, List, Option};
ghost use Rattle.chart_grid.specs.declared.axis.Axis.{Axis};
ghost use Rattle.chart_grid.specs.declared.grid.Grid.{Grid};
ghost use Rattle.plain_chart.specs.Samples.{kept};
ghost use Rattle.plain_chart.specs.declared.sample.Sample.{Sample};
ghost use Rattle.derived_chart.specs.declared.sum.Sum.{Sum};
ghost use Rattle.derived_chart.specs.Lists.{sums_of};
ghost use Rattle.derived_chart.specs.Points.{IsShift, AreSumSamples};
ghost use Rattle.derived_chart.specs.Sums.{AreSums};

/// The list of the sums of two lists has, at each slot of the first one, the sum of the two values that stand at its time.
/// No other list has.
pub fn sums_are_one()
    ensures are { (sum : Sum) (xs ys : List (Option ℤ)) → AreSums sum xs ys (sums_of sum xs ys) }
    ensures one { (sum : Sum) (xs ys sums : List (Option ℤ)) → AreSums sum xs ys sums → sums ≡ sums_of sum xs ys }
{}

/// What a view keeps of the list of the sums are the samples of the sum in its window: at each time at which both series
/// store a value, the sum of these.
pub fn kept_sums_are_the_samples()
    ensures { (g : Grid) (x y : Axis) (sum : Sum) (xs ys : List (Option ℤ)) → 0 < x.step → IsShift x y sum.shift →
        AreSumSamples g sum.a sum.b x y xs ys (kept g x (sums_of sum xs ys)) }
{}

/// There is one list of the samples of a sum in a window.
pub fn samples_are_one()
    ensures { (g : Grid) (a b : ℤ) (x y : Axis) (xs ys : List (Option ℤ)) (one other : List Sample) →
        AreSumSamples g a b x y xs ys one → AreSumSamples g a b x y xs ys other → one ≡ other }
{}
