//! A service.
ghost use Rattle.std.specs.Prelude.{length};
ghost use Rattle.series_store.specs.Shown as stored;
ghost use Rattle.chart_service.specs.Holding.{AreViewsIn};
ghost use Rattle.chart_service.specs.HoldingLaws.{views_prop};

use gate_pages::Pages;
use series_store::Store;
use std::alloc::Global;
use zoom_session::Sessions;

/// A store, whose pages stand for a book, and the sessions that are open. It answers requests one by one.
#[derive(Drop)]
pub struct Service<P: Pages> {
    pub(crate) alloc: Global,
    pub(crate) store: Store<P>,
    pub(crate) sessions: Sessions,
    ghost views: { AreViewsIn (length (stored.catalog store)) sessions } by { views_prop (length (stored.catalog store)) sessions },
}
