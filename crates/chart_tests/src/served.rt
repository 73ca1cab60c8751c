//! The lines of a service's streams by the one loop, beside the frames that a service gives for the same lines, one by one.

use crate::worlds::{empty, world_of};
use chart_frames::encode;
use chart_service::Service;
use disk_store::{disk_of, open_store};
use gate_pages::Pages;
use served_lines::serve;
use std::alloc::Global;
use std::test::Fail;

/// Lines of each kind, with 70 edits in a row among them, and a last one without a line feed.
fn lines_of(alloc: Global) -> Result<Vec<u8>, Fail> {
    let mut lines = Vec::from_slice(alloc, b"create s 0 1 0\nopen 1 64\nnothing\n")?;
    for _number in 0..70 {
        lines.extend_from_slice(b"set s 5 7\n")?;
    }
    lines.extend_from_slice(b"\nview 1 s 8 4 0 10 auto\nset x 1 1\nclose 1\nclose 1\nset s 6 8")?;
    Ok(lines)
}

/// What the one loop sends for them.
fn sent_together(alloc: Global) -> Result<Vec<u8>, Fail> {
    let lines = lines_of(alloc)?;
    let world = world_of(alloc, empty(alloc)?, lines.as_slice(), &[])?;
    let Ok(store) = open_store(alloc, world) else {
        return Err(Fail::new("no store"));
    };
    let Ok(mut service) = Service::new(alloc, store) else {
        return Err(Fail::new("no service"));
    };
    if !service.is_sound() {
        return Err(Fail::new("the store isn't sound"));
    }
    if serve(alloc, &mut service).is_err() {
        return Err(Fail::new("the lines weren't answered"));
    }
    let world = disk_of(service.into_store());
    Ok(Vec::from_slice(alloc, world.sent())?)
}

/// The spelling of the frame that answers a line is put behind the others.
fn add_reply<P: Pages>(
    alloc: Global,
    service: &mut Service<P>,
    line: &[u8],
    sent: &mut Vec<u8>,
) -> Result<(), Fail> {
    if !service.is_sound() {
        return Err(Fail::new("the store isn't sound"));
    }
    let Ok(frame) = service.step_line(line) else {
        return Err(Fail::new("no frame"));
    };
    let bytes = encode(alloc, &frame)?;
    sent.extend_from_slice(bytes.as_slice())?;
    Ok(())
}

/// The spellings of the frames of a service that is given the same lines one by one, but for the empty one.
fn sent_singly(alloc: Global) -> Result<Vec<u8>, Fail> {
    let Ok(store) = open_store(alloc, empty(alloc)?) else {
        return Err(Fail::new("no store"));
    };
    let Ok(mut service) = Service::new(alloc, store) else {
        return Err(Fail::new("no service"));
    };
    let mut sent = Vec::new(alloc);
    add_reply(alloc, &mut service, b"create s 0 1 0", &mut sent)?;
    add_reply(alloc, &mut service, b"open 1 64", &mut sent)?;
    add_reply(alloc, &mut service, b"nothing", &mut sent)?;
    for _number in 0..70 {
        add_reply(alloc, &mut service, b"set s 5 7", &mut sent)?;
    }
    add_reply(alloc, &mut service, b"view 1 s 8 4 0 10 auto", &mut sent)?;
    add_reply(alloc, &mut service, b"set x 1 1", &mut sent)?;
    add_reply(alloc, &mut service, b"close 1", &mut sent)?;
    add_reply(alloc, &mut service, b"close 1", &mut sent)?;
    add_reply(alloc, &mut service, b"set s 6 8", &mut sent)?;
    Ok(sent)
}

#[test]
fn the_one_loop_sends_the_same(rt: HostRuntime) -> Result<(), Fail> {
    let alloc = rt.alloc();
    let together = sent_together(alloc)?;
    let singly = sent_singly(alloc)?;
    assert!(rt; together.len() > 500);
    assert!(rt; together.as_slice() == singly.as_slice());
    Ok(())
}
