//! A host on edits whose lines stand ready, and on the same edits with other lines between them.
ghost use Rattle.chart_service.specs.Shown as shown;

use crate::worlds::{empty, world_of};
use block_disk::World;
use chart_frames::{Decoder, Frame};
use chart_service::Service;
use disk_store::{disk_of, open_store};
use gate_pages::GatePages;
use hosted_lines::host_lines;
use live_service::ServiceStepper;
use live_view::Live;
use run_ends::{End, status_of};
use std::alloc::Global;
use std::test::Fail;

/// Three edits, a session that follows one of their series, and four more, three of them of that series.
const READY: &[u8] =
    b"create s 0 1 0\ncreate t 0 1 0\nappend s 1 2 3\nopen 1 1000\nview 1 s 8 4 0 10 auto\nfollow 1\nappend s 4\nappend t 1\nappend s 5\nset s 0 9\n";

/// The same with a line between two edits.
const APART: &[u8] =
    b"create s 0 1 0\nclose 9\ncreate t 0 1 0\nclose 9\nappend s 1 2 3\nopen 1 1000\nview 1 s 8 4 0 10 auto\nfollow 1\nappend s 4\nclose 9\nappend t 1\nclose 9\nappend s 5\nclose 9\nset s 0 9\n";

/// How many of these frames are Done, and how many show a view.
fn counts(alloc: Global, bytes: &[u8]) -> Result<(u32, u32), Fail> {
    let mut decoder = Decoder::new(alloc);
    decoder.feed(bytes)?;
    let mut done = 0u32;
    let mut views = 0u32;
    for _number in 0..30u32 {
        match decoder.next()? {
            Some(Frame::Done { .. }) => done = done.saturating_add(1),
            Some(Frame::View(_)) => views = views.saturating_add(1),
            _ => {}
        }
    }
    Ok((done, views))
}

/// How a host ended over a service, and the world behind it.
fn host_over<W: World>(alloc: Global, service: Service<GatePages<W>>) -> (End, W)
    requires { (shown.view service).fit }
{
    service.is_sound();
    let mut live = Live::new(alloc, ServiceStepper::new(service));
    let end = host_lines(alloc, &mut live);
    let service = live.into_stepper().into_service();
    (end, disk_of(service.into_store()))
}

/// By a host on these lines over an empty store: the edits done, the views sent, and how often the disk was synced.
fn hosted(alloc: Global, lines: &[u8]) -> Result<(u32, u32, u64), Fail> {
    let Ok(store) = open_store(alloc, world_of(alloc, empty(alloc)?, lines, &[])?) else {
        return Err(Fail::new("no store"));
    };
    let Ok(service) = Service::new(alloc, store) else {
        return Err(Fail::new("no service"));
    };
    if !service.is_sound() {
        return Err(Fail::new("the store isn't sound"));
    }
    let (end, world) = host_over(alloc, service);
    if status_of(end).code != 0 {
        return Err(Fail::new("the host ended otherwise"));
    }
    let (done, views) = counts(alloc, world.sent())?;
    Ok((done, views, world.into_disk().syncs()))
}

#[test]
fn edits_that_stand_ready_are_pushed_once(rt: HostRuntime) -> Result<(), Fail> {
    let alloc = rt.alloc();
    let (done, views, syncs) = hosted(alloc, READY)?;
    let (done_apart, views_apart, syncs_apart) = hosted(alloc, APART)?;
    assert_eq!(rt; done, 7);
    assert_eq!(rt; views, 2);
    assert_eq!(rt; done_apart, 7);
    assert_eq!(rt; views_apart, 4);
    // seven commits of four syncs each, and two
    assert_eq!(rt; syncs_apart.saturating_sub(syncs), 20);
    Ok(())
}
