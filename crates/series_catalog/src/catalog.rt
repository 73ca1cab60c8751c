//! The series of a catalog.
ghost use Rattle.std.specs.Prelude.{List, ◌≡◌, ◌<◌, ◌≤◌, ◌++◌, ◌∷◌, [], length, slice_get, Some, IfOk, OnOk, OnErr, IfSome};
ghost use Rattle.series_catalog.specs.Catalogs.{place_of, with_tree};

use crate::stored_series::StoredSeries;
use series_book::Name;
use series_book::limits::MOST_SERIES;
use std::alloc::{AllocError, Global};
use tree_walk::Tree;

/// The series of a store, in the order of their ids.
#[derive(Drop)]
pub struct Catalog {
    pub(crate) series: Vec<StoredSeries>,
    ghost few: { length series.items ≤ 512 },
}

impl Catalog {
    /// A catalog without a series. It takes the room of all series that there may be, so that `add` takes
    /// none.
    pub fn new(alloc: Global) -> Result<Catalog, AllocError>
        ensures { IfOk result (λ it. it.series.items ≡ []) }
    {
        let series = Vec::with_capacity(alloc, MOST_SERIES)?;
        Ok(Catalog { series })
    }

    /// How many series there are, at most 512.
    pub fn len(&self) -> u32
        ensures count { result ≡ length self.now.series.items }
        ensures few { result ≤ 512 }
    {
        self.series.len() as u32
    }

    /// The place of the series of this name.
    #[tactic(auto, unfolding(crate::specs::Catalogs::place_of))]
    fn place(&self, name: &Name) -> Option<usize>
        ensures place { result ≡ place_of name.now self.now.series.items }
        ensures there { IfSome result (λ place. place < length self.now.series.items) }
    {
        self.series
            .iter()
            .position(|series| series.name.as_slice() == name.as_slice())
    }

    /// The id of the series of this name.
    pub fn find(&self, name: &Name) -> Option<u16>
        ensures id { result ≡ place_of name.now self.now.series.items }
        ensures there { IfSome result (λ id. id < length self.now.series.items) }
    {
        let place = self.place(name)?;
        Some(place as u16)
    }

    /// The series of this id.
    pub fn series(&self, id: u16) -> &StoredSeries
        requires { id < length self.now.series.items }
        ensures { slice_get self.now.series.items id ≡ Some result.now }
    {
        &self.series[usize::from(id)]
    }

    /// Gives a series another tree.
    pub fn set_tree(&mut self, id: u16, tree: Tree)
        requires { id < length self.old.series.items }
        ensures len { length self.new.series.items ≡ length self.old.series.items }
        ensures set { IfSome (slice_get self.old.series.items id)
            (λ one. self.new.series.items ≡ with_tree self.old.series.items id one tree) }
    {
        self.series[usize::from(id)].tree = tree;
    }

    /// Adds a series behind the others. After want of memory the catalog is as it was.
    pub fn add(&mut self, series: StoredSeries) -> Result<(), AllocError>
        requires { length self.old.series.items < 512 }
        ensures ok { OnOk result (self.new.series.items ≡ self.old.series.items ++ series ∷ []) }
        ensures err { OnErr result (self.new.series.items ≡ self.old.series.items) }
    {
        self.series.push(series)?;
        Ok(())
    }

    /// Takes the last series away.
    pub fn take_last(&mut self)
        ensures { (series : List StoredSeries) (last : StoredSeries) → self.old.series.items ≡ series ++ last ∷ []
            → self.new.series.items ≡ series }
    {
        self.series.pop();
    }
}
