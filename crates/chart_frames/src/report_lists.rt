//! The lists of reports.
ghost use Rattle.std.specs.Prelude.{◌≡◌};

use crate::reports::{ListedSeries, Run};
use std::marker::Model;

/// A list of series.
#[derive(Drop)]
pub struct SeriesList {
    items: Vec<ListedSeries>,
}

impl Model for SeriesList {
    ghost use Rattle.std.specs.Prelude.{List};
    ghost use Rattle.chart_frames.specs.declared.reports.ListedSeries.{ListedSeries};

    ghost Value = { List ListedSeries };

    ghost view = { λ series. series.items.items };
}

impl SeriesList {
    /// The series of a vector. It takes no memory.
    pub fn from_vec(items: Vec<ListedSeries>) -> SeriesList
        ensures { result ≡ items.items }
    {
        SeriesList { items }
    }

    /// The series, from the first on.
    pub fn as_slice(&self) -> &[ListedSeries]
        ensures { result.now ≡ self.now }
    {
        &self.items
    }
}

/// A list of runs.
#[derive(Drop)]
pub struct RunList {
    items: Vec<Run>,
}

impl Model for RunList {
    ghost use Rattle.std.specs.Prelude.{List};
    ghost use Rattle.chart_frames.specs.declared.reports.Run.{Run};

    ghost Value = { List Run };

    ghost view = { λ runs. runs.items.items };
}

impl RunList {
    /// The runs of a vector. It takes no memory.
    pub fn from_vec(items: Vec<Run>) -> RunList
        ensures { result ≡ items.items }
    {
        RunList { items }
    }

    /// The runs, from the first on.
    pub fn as_slice(&self) -> &[Run]
        ensures { result.now ≡ self.now }
    {
        &self.items
    }
}

/// A list of stored values.
#[derive(Drop)]
pub struct ValueList {
    items: Vec<i64>,
}

impl Model for ValueList {
    ghost use Rattle.std.specs.Prelude.{List, ℤ};

    ghost Value = { List ℤ };

    ghost view = { λ values. values.items.items };
}

impl ValueList {
    /// The values of a vector. It takes no memory.
    pub fn from_vec(items: Vec<i64>) -> ValueList
        ensures { result ≡ items.items }
    {
        ValueList { items }
    }

    /// The values, from the first on.
    pub fn as_slice(&self) -> &[i64]
        ensures { result.now ≡ self.now }
    {
        &self.items
    }
}
