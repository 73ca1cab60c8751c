//! What follows from the definitions. The functions do nothing: their contracts are the laws.
ghost use Rattle.std.specs.Prelude.{◌≡◌, ℕ, List, ◌++◌, Option};
ghost use Rattle.series_load.specs.Runs.{Rows, Run, Cut, Ended, AllRuns};

/// Rows have a list of runs, and one alone; one run at the most stands open behind them. The runs that have ended
/// within the first rows are the first runs of all.
pub fn runs_are_one()
    ensures cut { (step : ℕ) (rows : Rows) (runs others : List Run) (open_run other : Option Run) → Cut step rows runs open_run
        → Cut step rows others other → (runs ≡ others) × (open_run ≡ other) }
    ensures all { (step : ℕ) (rows : Rows) (runs others : List Run) → AllRuns step rows runs → AllRuns step rows others → runs ≡ others }
    ensures some { (step : ℕ) (rows : Rows) → (runs : List Run) × AllRuns step rows runs }
    ensures first { (step : ℕ) (rows more : Rows) (runs all : List Run) → Ended step rows runs → Ended step (rows ++ more) all
        → (later : List Run) × (all ≡ runs ++ later) }
{}
