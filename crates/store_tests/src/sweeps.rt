//! A sweep that is stopped after each of its calls, with each way to tear what is pending then, and one in steps.

use crate::deeds::{Deed, MANY, after, bytes_of, fused, run};
use crate::stops::{TEARS, pages_of};
use block_disk::{MemDisk, Tear};
use disk_store::{disk_of, open_store};
use gate_pages::Pages;
use retention::{Rule, sweep, sweep_some};
use series_book::Name;
use series_store::Store;
use std::alloc::Global;
use std::test::Fail;

/// A series of 5,632 slots in 44 pages and a root: no page of the disk is free.
const FULL: [Deed; 24] = [
    Deed::Make,
    Deed::Create,
    Deed::Append(256, 0),
    Deed::Append(256, 1),
    Deed::Append(256, 2),
    Deed::Append(256, 3),
    Deed::Append(256, 4),
    Deed::Append(256, 5),
    Deed::Append(256, 6),
    Deed::Append(256, 7),
    Deed::Append(256, 8),
    Deed::Append(256, 9),
    Deed::Append(256, 10),
    Deed::Append(256, 11),
    Deed::Append(256, 12),
    Deed::Append(256, 13),
    Deed::Append(256, 14),
    Deed::Append(256, 15),
    Deed::Append(256, 16),
    Deed::Append(256, 17),
    Deed::Append(256, 18),
    Deed::Append(256, 19),
    Deed::Append(256, 20),
    Deed::Append(256, 21),
];

/// The slots before the time 5,000: those of one range of 4,096 slots, and some of the next one.
const CLEARS: [Deed; 2] = [Deed::Clear(0, 4096), Deed::Clear(4096, 904)];

/// The rule that drops them.
fn rule(alloc: Global) -> Result<Rule, Fail> {
    Ok(Rule::Before {
        name: Name::new(alloc, b"a")?,
        time: 5_000,
    })
}

/// Drops them on a disk of these bytes that stops after so many calls: whether that was done, and the disk.
fn swept(alloc: Global, image: &[u8], calls: u64) -> Result<(bool, MemDisk), Fail> {
    let rule = rule(alloc)?;
    let disk = fused(alloc, image, calls, &[])?;
    let (done, disk) = match open_store(alloc, disk) {
        Ok(mut store) => {
            let done = store.is_sound() && sweep(&mut store, &rule).is_ok();
            (done, disk_of(store))
        }
        Err(back) => (false, back.value),
    };
    Ok((done, disk.into_inner()))
}

/// The disk before the clears, behind the first one and behind both, as edits leave it.
fn images_of(alloc: Global, full: &[u8]) -> Result<Vec<Vec<u8>>, Fail> {
    let mut images = Vec::new(alloc);
    let mut image = Vec::from_slice(alloc, full)?;
    for clear in CLEARS {
        let (done, disk) = run(alloc, image.as_slice(), clear, MANY, &[])?;
        if !done {
            return Err(Fail::new("not cleared"));
        }
        images.push(image)?;
        image = bytes_of(alloc, disk, 0)?;
    }
    images.push(image)?;
    Ok(images)
}

/// How many clears the pages show that a disk stands for.
fn clears_in(alloc: Global, disk: MemDisk, images: &[Vec<u8>]) -> Result<usize, Fail> {
    let pages = pages_of(alloc, disk)?;
    let found = images
        .iter()
        .position(|image| image.as_slice().ends_with(pages.as_slice()));
    Ok(found.ok_or("other pages")?)
}

/// Wherever the sweep is stopped, some first clears are left, and no fewer than by an earlier stop.
fn stops_in_order(
    alloc: Global,
    full: &[u8],
    images: &[Vec<u8>],
    calls: u64,
    tear: Tear,
) -> Result<(), Fail> {
    let mut reached = 0;
    for stop in 0..calls.saturating_add(1) {
        let (done, disk) = swept(alloc, full, stop)?;
        let clears = clears_in(alloc, disk.after_crash(tear)?, images)?;
        if clears < reached || done != (stop == calls) {
            return Err(Fail::from((stop, tear, clears as u64)));
        }
        reached = clears;
    }
    if reached != CLEARS.len() {
        return Err(Fail::new("not all clears"));
    }
    Ok(())
}

#[test]
fn a_stop_leaves_some_first_clears(rt: HostRuntime) -> Result<(), Fail> {
    let alloc = rt.alloc();
    let full = after(alloc, &FULL)?;
    let images = images_of(alloc, full.as_slice())?;
    let (_, disk) = swept(alloc, full.as_slice(), MANY)?;
    let calls = disk.calls();
    for (tear, _) in TEARS {
        stops_in_order(alloc, full.as_slice(), images.as_slice(), calls, tear)?;
    }
    Ok(())
}

/// A step of at most so many clears: how many it made, and whether more are left.
fn step<P: Pages>(store: &mut Store<P>, rule: &Rule, most: u64) -> Result<(u64, bool), Fail> {
    if !store.is_sound() {
        return Err(Fail::new("the store isn't sound"));
    }
    match sweep_some(store, rule, most) {
        Ok(swept) => Ok((swept.clears, swept.more)),
        Err(_) => Err(Fail::new("no step")),
    }
}

/// Steps of at most so many clears on a disk of these bytes, one behind the other: what each told, and the disk.
fn stepped(
    alloc: Global,
    image: &[u8],
    mosts: &[u64],
) -> Result<(Vec<(u64, bool)>, MemDisk), Fail> {
    let rule = rule(alloc)?;
    let disk = fused(alloc, image, MANY, &[])?;
    let Ok(mut store) = open_store(alloc, disk) else {
        return Err(Fail::new("no store"));
    };
    let mut told = Vec::new(alloc);
    for most in mosts {
        told.push(step(&mut store, &rule, *most)?)?;
    }
    Ok((told, disk_of(store).into_inner()))
}

#[test]
fn steps_go_on_until_no_clear_is_left(rt: HostRuntime) -> Result<(), Fail> {
    let alloc = rt.alloc();
    let full = after(alloc, &FULL)?;
    let images = images_of(alloc, full.as_slice())?;
    let (told, disk) = stepped(alloc, full.as_slice(), &[0, 1])?;
    assert!(rt; told.as_slice() == [(0, true), (1, true)].as_slice());
    assert_eq!(rt; clears_in(alloc, disk, images.as_slice())?, 1);
    let (told, disk) = stepped(alloc, full.as_slice(), &[1, 1, 1])?;
    assert!(rt; told.as_slice() == [(1, true), (1, false), (0, false)].as_slice());
    assert_eq!(rt; clears_in(alloc, disk, images.as_slice())?, 2);
    Ok(())
}
