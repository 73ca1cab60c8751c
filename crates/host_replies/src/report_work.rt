//! A line is answered, as a work on the store of a service.
ghost use Rattle.std.specs.Prelude.{length};
ghost use Rattle.series_store.specs.Shown as stored;
ghost use Rattle.host_replies.specs.Reading.{MayRead, Reads};

use crate::reading::reply_at;
use chart_frames::Frame;
use chart_service::{ServiceError, StoreWork};
use gate_pages::Pages;
use host_lines::HostLine;
use series_store::Store;
use std::alloc::Global;

/// Answers a line, whose session is open if it names one.
#[derive(Drop)]
pub(crate) struct ReportWork<'a> {
    pub(crate) alloc: Global,
    pub(crate) asked: &'a HostLine,
}

impl<'a, P: Pages> StoreWork<Store<P>> for ReportWork<'a> {
    type Answer = Result<Frame, ServiceError>;

    ghost series = { λ store. length (stored.catalog store) };

    ghost may = { λ work store. MayRead work.asked.now store };

    ghost does = { λ work store answer after later. Reads work.asked.now store later answer };

    fn work(&mut self, store: &mut Store<P>) -> Result<Frame, ServiceError> {
        reply_at(self.alloc, store, self.asked)
    }
}
