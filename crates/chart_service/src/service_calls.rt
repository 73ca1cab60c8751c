//! A service is made, and what it tells.
ghost use Rattle.std.specs.Prelude.{◌≡◌, ◌↔◌, [], IfOk, IfErr, IsTrue};
ghost use Rattle.std.specs.Option.{option_copied};
ghost use Rattle.series_book.specs.Edits.{id_of};
ghost use Rattle.zoom_session.specs.Sessions.{session_of, last_of, cache_of, AreSessions};
ghost use Rattle.chart_service.specs.State.{IsSound};
ghost use Rattle.chart_service.specs.Shown as shown;

use crate::service::Service;
use crate::store_work::StoreWork;
use block_disk::Back;
use gate_pages::Pages;
use series_book::Name;
use series_store::Store;
use std::alloc::{AllocError, Global};
use zoom_session::{Sessions, ViewSpec};

impl<P: Pages> Service<P> {
    /// A service over this store, with no session open.
    pub fn new(alloc: Global, store: Store<P>) -> Result<Service<P>, Back<Store<P>, AllocError>>
        ensures store { IfOk result (λ service. service.store ≡ store) }
        ensures sessions { IfOk result (λ service. service.sessions ≡ []) }
        ensures back { IfErr result (λ back. back.value ≡ store) }
    {
        match Sessions::new(alloc) {
            Ok(sessions) => Ok(Service {
                alloc,
                store,
                sessions,
            }),
            Err(_) => Err(Back {
                value: store,
                cause: AllocError,
            }),
        }
    }

    /// The store.
    pub fn into_store(self) -> Store<P>
        ensures { result ≡ self.store }
    {
        self.store
    }

    /// The store.
    pub fn store(&self) -> &Store<P>
        ensures { result.now ≡ shown.store self.now }
    {
        &self.store
    }

    /// Does a work on the store. The sessions stay: each has its list and its last view, whatever was done.
    pub fn with_store<W: StoreWork<Store<P>>>(&mut self, work: &mut W) -> W::Answer
        requires counts { shown.CountsSeries W.series }
        requires may { W.may work.old (shown.store self.old) }
        ensures does { W.does work.old (shown.store self.old) result work.new (shown.store self.new) }
        ensures sessions { shown.sessions self.new ≡ shown.sessions self.old }
    {
        work.work(&mut self.store)
    }

    /// Whether more calls may be made. After a fault in a commit they may not.
    pub fn is_sound(&self) -> bool
        ensures sound { IsTrue result ↔ (shown.view self.now).fit }
        ensures state { shown.ForSoundBook self.now (λ total book. IsSound (shown.state self.now total book)) }
    {
        let _count = self.store.len();
        let _open = self.sessions.is_open(1);
        self.store.is_sound()
    }

    /// The view that a session was answered last. It is `None` where the session isn't open, or has had no
    /// answered view.
    pub fn last_view(&self, session: u32) -> Option<&ViewSpec>
        ensures { option_copied result ≡ last_of (session_of session self.now.sessions) }
    {
        self.sessions.last_view(session)
    }

    /// How many coefficients a session's client keeps. It is `None` where the session isn't open.
    pub fn cache(&self, session: u32) -> Option<u32>
        ensures cache { result ≡ cache_of (session_of session self.now.sessions) }
        ensures valid { AreSessions self.now.sessions }
    {
        self.sessions.cache(session)
    }

    /// The id of the series of a name. It is `None` where no series has the name.
    pub fn series_id(&self, name: &Name) -> Option<u16>
        ensures { shown.ForSoundBook self.now (λ total book. result ≡ id_of name.now book) }
    {
        match self.store.series(name) {
            Some(info) => Some(info.id),
            None => None,
        }
    }
}
